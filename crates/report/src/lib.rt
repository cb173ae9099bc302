// What is written: one line for an answer, in the words of the card-file paper, and the line that replies to a card file. Reading the
// file's bytes and writing the line's are left to the programs.
#![tactic(auto)]

mod line;
mod replying;

ghost use Rattle.std.specs.Prelude.{List, ◌++◌, ◌≡◌, ℕ, ◌+◌, ◌*◌, ◌≤◌, length};
ghost use Rattle.places.specs.Limits.{bundle_most};
ghost use Rattle.reply.specs.declared.Reply.TheVariants.{Accepted};
ghost use Rattle.report.specs.Lines.{line_of, line_shown, newline, places_shown, spaced, words};
ghost use Rattle.report.specs.Text.{decimal};

pub use line::Line;
use places::{BundlePlace, RootPlace};
use reply::{Answer, Path, Reply};
pub use replying::{Room, reply_to};

// The line for an answer: a function, which the paper's words in specs/ are named for.
pub fn line_of(answer: Answer) -> Line
    ensures { result ≡ line_shown (line_of answer) }
{
    match answer.reply {
        Reply::Accepted { root, steps } => accepted(root, steps, answer.path),
        Reply::Refused { steps } => numbered(b"REFUSE steps ", steps),
        Reply::Exhausted { steps } => numbered(b"EXHAUSTED steps ", steps),
        Reply::Error(number) => numbered(b"ERROR ", number.into()),
    }
}

fn accepted(root: RootPlace, steps: u64, path: Path) -> Line
    ensures { result ≡ line_shown (words (Accepted root steps) (places_shown path) ++ newline) }
{
    let line = Line::new()
        .with_number(b"ACCEPT steps ", steps)
        .with_byte(b" root ", root.0)
        .with(b" path");
    with_places(line, path).with(b"\n")
}

// A word, a number and a newline.
fn numbered(word: &[u8], n: u64) -> Line
    requires { length word.now ≤ 27 }
    ensures { result ≡ line_shown ((word.now ++ decimal n) ++ newline) }
{
    Line::new().with_number(word, n).with(b"\n")
}

// The line with a path's places behind it.
fn with_places(mut line: Line, path: Path) -> Line
    requires { line.length ≤ 47 }
    ensures length_bound { result.length ≤ line.length + 4 * bundle_most }
    ensures by_index { (l : List ℕ) → line ≡ line_shown l → result ≡ line_shown (l ++ spaced (places_shown path)) }
{
    let n = Path::within(path.length.into());
    for &BundlePlace(place) in &path.places[..n] {
        line = line.with_byte(b" ", place);
    }
    line
}

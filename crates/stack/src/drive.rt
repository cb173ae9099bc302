// The search: step after step, each of which takes a path from the stack and puts its children in its stead.
ghost use Rattle.std.specs.Prelude.{◌≡◌, length};
ghost use Rattle.card.specs.Content.{content_p};
ghost use Rattle.reply.specs.Records.{bytes_of};
ghost use Rattle.stack.specs.Begins.{Ran};
ghost use Rattle.stack.specs.Stands.{lent, Fair, Over, Rested, pathless};

use crate::begin::{Terms, begin};
use crate::child::{child, spread};
use crate::look::look;
use crate::records::{clear, push, take, whole};
use order::slots;
use policy::Ground;
use reply::{Answer, Path, Reply};

// The search of a file in records: a paused run with this budget, or else the search with the file's own budget.
pub(crate) fn run(file: &[u8], records: &mut [Path], paused: Option<u64>) -> Answer
    ensures { Ran paused (content_p file.now) (bytes_of records.old) (bytes_of records.new) result }
{
    whole(records);
    match begin(file, records.len(), paused) {
        Ok(begun) => {
            let ground = Ground {
                rows: &begun.rows,
                roots: &begun.roots,
                seats: &begun.seats,
            };
            search(records, ground, begun.terms)
        }
        Err(number) => Answer::stopped(number),
    }
}

// The search, and zeros put above what stays.
fn search(records: &mut [Path], ground: Ground<'_>, terms: Terms) -> Answer
    requires { Fair terms (length records.old) }
    ensures { Rested (lent ground.entry records.old terms) result records.new }
{
    let end = drive(records, ground, terms);
    let stays = if terms.leaves { end.waiting } else { 0 };
    clear(records, stays, slots(terms.size) as usize);
    end.answer
}

// Where a search is over: the answer, and how many paths wait in the first records, which are lent and as many as they are.
#[derive(Clone, Copy)]
pub(crate) struct End {
    pub(crate) answer: Answer,
    pub(crate) waiting: usize,
}

// Steps until a path reaches a root, none waits, or the budget is spent.
fn drive(records: &mut [Path], ground: Ground<'_>, terms: Terms) -> End
    requires { Fair terms (length records.old) }
    ensures { Over (lent ground.entry records.old terms) result records.new }
{
    push(records, 0, child(Path::new(), 0));
    let mut waiting = 1;
    let mut steps = 0;
    while waiting != 0 {
        if terms.budget <= steps {
            return ended(Reply::Exhausted { steps }, waiting);
        }
        let path = take(records, waiting - 1);
        let found = look(ground, terms.size, path);
        waiting = spread(records, waiting - 1, path, found.next);
        steps += 1;
        if let Some(root) = found.root {
            let answer = Answer {
                reply: Reply::Accepted { root, steps },
                path,
            };
            return End { answer, waiting };
        }
    }
    ended(Reply::Refused { steps }, waiting)
}

// The end of a search with no path to show.
fn ended(reply: Reply, waiting: usize) -> End
    ensures answer { result.answer ≡ pathless reply }
    ensures waiting { result.waiting ≡ waiting }
{
    let answer = Answer {
        reply,
        path: Path::new(),
    };
    End { answer, waiting }
}

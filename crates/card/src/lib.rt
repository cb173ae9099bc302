// The card file: its sections in their order, read once from left to right. A card that was read is numbers and places in the file;
// nothing is copied out of it. Each section has its own crate below, and its types are handed on here. Who issued whom, and what is
// believed, is left to the crates above.
#![tactic(auto)]

ghost use Rattle.std.specs.Prelude.{◌≡◌};
ghost use Rattle.fields.specs.Answers.{passed, passing, held, numbered, handed};
ghost use Rattle.card.specs.Card.{card_p, file_p, fresh_card};
ghost use Rattle.card.specs.Content.{edition_p};

pub use certificates::{Bundle, Roots};
use certificates::{bundle_at, roots_at};
use fields::{Fault, byte_at};
pub use places::{BundlePlace, RootPlace};
use task::task_at;
pub use task::{Host, Task};
pub use verdicts::Verdicts;
use verdicts::verdicts_at;

// A card file that was read.
#[derive(Clone, Copy)]
pub struct Card {
    pub roots: Roots,
    pub bundle: Bundle,
    pub verdicts: Verdicts,
    pub task: Task,
}

impl Card {
    pub const MOST: usize = 65535;

    pub const EDITION: usize = 1;

    // The card before a file is read: nothing but zeros.
    pub fn new() -> Card
        ensures { result ≡ fresh_card }
    {
        Card {
            roots: Roots::new(),
            bundle: Bundle::new(),
            verdicts: Verdicts::new(),
            task: Task::new(),
        }
    }

    // Reads the sections at a place, in their order, and tells the place past them. They are put where they stay, as a card is large to copy from
    // answer to answer.
    #[tactic(auto, unfolding(crate::specs::Card::card_p))]
    fn fill(&mut self, file: &[u8], at: usize) -> Result<usize, Fault>
        ensures { held result self.new ≡ card_p file.now at }
    {
        let at = edition_past(file, at)?;
        let at = roots_at(file, at, &mut self.roots)?;
        let at = bundle_at(file, at, &mut self.bundle)?;
        let (verdicts, at) = verdicts_at(file, at, self.roots.count, self.bundle.count)?;
        let (task, next) = task_at(file, at)?;
        self.verdicts = verdicts;
        self.task = task;
        Ok(next)
    }
}

// A file's card, or the first fault from left to right, and then nothing of what was read before it.
#[tactic(auto, unfolding(crate::specs::Card::file_p, fields::specs::Fields::whole))]
pub fn read(file: &[u8]) -> Result<Card, Fault>
    ensures { numbered result ≡ handed (file_p file.now) }
{
    if Card::MOST < file.len() {
        return Err(Fault::TooLong);
    }
    let mut card = Card::new();
    let end = card.fill(file, 0)?;
    if end < file.len() {
        return Err(Fault::LeftOver);
    }
    Ok(card)
}

// The place past the edition. One function for this and the purpose of a task would take the byte and the fault, and be as long.
#[tactic(auto, unfolding(crate::specs::Content::edition_p))]
fn edition_past(file: &[u8], at: usize) -> Result<usize, Fault>
    ensures { passed result ≡ passing (edition_p file.now at) }
{
    let (edition, next) = byte_at(file, at)?;
    if edition == Card::EDITION {
        return Ok(next);
    }
    Err(Fault::UnknownEdition)
}

// The question of a card file: the file is read, and its certificates are compared and judged once, at a time that is handed in. How the
// question is answered is left to the crates above.
#![tactic(auto)]

ghost use Rattle.std.specs.Prelude.{◌≡◌};
ghost use Rattle.fields.specs.Answers.{numbered};
ghost use Rattle.card.specs.Card.{file_p};
ghost use Rattle.question.specs.Question.{question_of, posed};

use card::{Card, read};
use fields::Fault;
use policy::{Judged, judge};
use rules::Time;

// What a card asks: how many certificates there are, what was compared and judged of them, and the budget.
#[derive(Clone, Copy)]
pub struct Question {
    pub judged: Judged,
    pub budget: u64,
    pub size: u8,
}

// The question of a file, or why it can't be read, and then nothing is compared or judged. Its certificates are judged at a time, or else
// at the time that the file says.
pub fn pose(file: &[u8], time: Option<Time>) -> Result<Question, Fault>
    ensures { numbered result ≡ posed file.now time (file_p file.now) }
{
    Ok(put(file, time, read(file)?))
}

// The question of a card, whose certificates stand in the file. File and time are handed on once, so that no struct has them.
#[tactic(auto, unfolding(crate::specs::Question::question_of))]
fn put(file: &[u8], time: Option<Time>, card: Card) -> Question
    ensures { result ≡ question_of file.now time card }
{
    let time = time.unwrap_or(Time::at(card.task.now));
    Question {
        judged: judge(file, time, card),
        budget: card.task.budget,
        size: card.bundle.size(),
    }
}

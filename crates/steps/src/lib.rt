// The search over a question: it finds the first path that reaches a root under the policy, and what then waits is left in lent room. The
// card file is left to others. The two functions promise two definitions, `Searched` and `Paused`; one of both would need a third that is the
// one or the other, for the three lines that they share.
#![tactic(auto)]

mod lay;
mod room;
mod run;
mod walk;

ghost use Rattle.std.specs.Prelude.{length};
ghost use Rattle.question.specs.Question.{places_of, roots_of};
ghost use Rattle.reply.specs.Answer.{Paused, Searched, case_of, Answered};

use crate::lay::leave;
use crate::room::zero_bytes;
use crate::run::{answer_of, run};
use order::slots;
use question::Question;
use reply::{Answer, Slot, room_for};

// Searches with this budget, and leaves the paths that wait then in the needed slots.
pub fn paused(room: &mut [u8], question: Question, budget: u64) -> Answer
    ensures { Answered (λ q. Paused (places_of q) (roots_of q) budget room.old room.new result) (case_of question question.size (length room.old)) room.old room.new result }
{
    let n = question.size;
    if let Err(lack) = room_for(n, room.len()) {
        return Answer::stopped(lack.into());
    }
    let end = run(n, question.judged, budget);
    leave(room, n, end);
    answer_of(end)
}

// Searches with the question's own budget, and leaves zeros in the needed slots. It begins as the paused run does; a function of both
// would hand out the refusal and the end of the walk, and be no shorter.
pub fn search(room: &mut [u8], question: Question) -> Answer
    ensures { Answered (λ q. Searched (places_of q) (roots_of q) q.budget room.old room.new result) (case_of question question.size (length room.old)) room.old room.new result }
{
    let n = question.size;
    if let Err(lack) = room_for(n, room.len()) {
        return Answer::stopped(lack.into());
    }
    let end = run(n, question.judged, question.budget);
    zero_bytes(room, 0, Slot::BYTES * (slots(n) as usize));
    answer_of(end)
}

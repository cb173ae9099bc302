// The checker: finds the first path of a card file that reaches a root under the policy, in lent room. Every file, budget and room gets an
// answer. The two functions promise two definitions, `Search` and `Pause`; one of both would need a third that is the one or the other.
#![tactic(auto)]

ghost use Rattle.card.specs.Content.{content_p};
ghost use Rattle.search.specs.Search.{Search, Pause};

use question::pose;
use reply::Answer;

// Searches with the file's own budget, and leaves zeros in the needed slots.
pub fn search(file: &[u8], room: &mut [u8]) -> Answer
    ensures { Search (content_p file.now) room.old room.new result }
{
    match pose(file, None) {
        Ok(question) => steps::search(room, question),
        Err(fault) => Answer::stopped(fault.into()),
    }
}

// Searches with budget k, and leaves the paths that wait then in the needed slots.
pub fn paused(file: &[u8], k: u64, room: &mut [u8]) -> Answer
    ensures { Pause (content_p file.now) k room.old room.new result }
{
    match pose(file, None) {
        Ok(question) => steps::paused(room, question, k),
        Err(fault) => Answer::stopped(fault.into()),
    }
}

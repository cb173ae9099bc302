// The search of a card file in lent records: they are its stack while it runs, a waiting path in each. It answers what the search in lent
// bytes answers, and leaves in the records what that leaves in the slots.
#![tactic(auto)]

mod begin;
mod child;
mod drive;
mod look;
mod records;

ghost use Rattle.card.specs.Content.{content_p};
ghost use Rattle.reply.specs.Records.{bytes_of};
ghost use Rattle.search.specs.Search.{Search, Pause};

use crate::drive::run;
use reply::{Answer, Path};

// Searches with the file's own budget, and leaves zeros in the needed records.
pub fn search_records(file: &[u8], records: &mut [Path]) -> Answer
    ensures { Search (content_p file.now) (bytes_of records.old) (bytes_of records.new) result }
{
    run(file, records, None)
}

// Searches with budget k, and leaves the paths that wait then in the needed records.
pub fn paused_records(file: &[u8], k: u64, records: &mut [Path]) -> Answer
    ensures { Pause (content_p file.now) k (bytes_of records.old) (bytes_of records.new) result }
{
    run(file, records, Some(k))
}

// The search and the paused run for C, and the room that they need: lent bytes, or lent records.
ghost use Rattle.std.specs.Prelude.{◌≡◌};
ghost use Rattle.card.specs.Content.{content_p};
ghost use Rattle.order.specs.Slots.{slots_of};
ghost use Rattle.reply.specs.Records.{bytes_of};
ghost use Rattle.search.specs.Search.{Search, Pause};
ghost use Rattle.desk.specs.Plain.{Says};

use crate::Plain;
use reply::Path;

// Searches with the file's own budget, and leaves zeros in the needed slots.
#[unsafe(no_mangle)]
pub extern "C" fn savuneco_search(file: &[u8], room: &mut [u8]) -> Plain
    ensures { Says (Search (content_p file.now) room.old room.new) result }
{
    search::search(file, room).into()
}

// Searches with budget k, and leaves the paths that wait then in the needed slots.
#[unsafe(no_mangle)]
pub extern "C" fn savuneco_paused(file: &[u8], k: u64, room: &mut [u8]) -> Plain
    ensures { Says (Pause (content_p file.now) k room.old room.new) result }
{
    search::paused(file, k, room).into()
}

// The search in records, with the file's own budget: it leaves zeros in the needed records.
#[unsafe(no_mangle)]
pub extern "C" fn savuneco_search_records(file: &[u8], records: &mut [Path]) -> Plain
    ensures { Says (Search (content_p file.now) (bytes_of records.old) (bytes_of records.new)) result }
{
    stack::search_records(file, records).into()
}

// The paused run in records, with budget k: it leaves the paths that wait then in the needed records.
#[unsafe(no_mangle)]
pub extern "C" fn savuneco_paused_records(file: &[u8], k: u64, records: &mut [Path]) -> Plain
    ensures { Says (Pause (content_p file.now) k (bytes_of records.old) (bytes_of records.new)) result }
{
    stack::paused_records(file, k, records).into()
}

// The slots that n certificates need; 0 past the table's end.
#[unsafe(no_mangle)]
pub extern "C" fn savuneco_slots(n: u8) -> u8
    ensures { result ≡ slots_of n }
{
    order::slots(n)
}

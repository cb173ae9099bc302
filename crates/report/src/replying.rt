// The line that replies to a card file.
ghost use Rattle.card.specs.Content.{content_p};
ghost use Rattle.io.specs.Counts.{IsPrefixLen};
ghost use Rattle.report.specs.Replying.{Replies};

use crate::{Line, line_of};
use reply::Slot;
use search::search;

// The room that a search is lent here.
#[derive(Clone, Copy)]
pub struct Room;

impl Room {
    // Always enough: what a full bundle needs.
    pub const BYTES: usize = Slot::MOST * Slot::BYTES;
}

// The second clause follows from the first; with it, `&bytes[..length]` needs no proof.
pub fn reply_to(file: &[u8]) -> Line
    ensures replies { Replies (content_p file.now) result }
    ensures prefix_len { IsPrefixLen result.length result.bytes }
{
    let mut room = [0u8; Room::BYTES];
    line_of(search(file, &mut room))
}

// What is answered: the reply, the path beside it, and the lent room that a search needs. Whoever searches, answers by these; how a search
// goes about it is left to the crates above.
#![tactic(auto)]

mod path;

ghost use Rattle.std.specs.Prelude.{[], ◌≡◌};
ghost use Rattle.reply.specs.Answer.{path_shown, case_of};
ghost use Rattle.reply.specs.Numbers.{fault_of, lacked};
ghost use Rattle.reply.specs.Room.{has_room};
ghost use Rattle.reply.specs.declared.Reply.TheVariants.{Error};

use order::slots;
pub use path::Path;
use places::{BundlePlace, RootPlace};

// The replies to a card file; those from 3 up by the number that the card-file paper gives them. `Error` is no enum of its own, since
// `line_of` of report and `Plain` of desk answer for every number.
#[derive(Clone, Copy)]
pub enum Reply {
    Accepted { root: RootPlace, steps: u64 },
    Refused { steps: u64 },
    Exhausted { steps: u64 },
    Error(u8),
}

impl Reply {
    pub const EMPTY_CHAIN: u8 = 3;

    pub const NO_ROOM: u8 = 10;
}

#[derive(Clone, Copy)]
pub struct Answer {
    pub reply: Reply,
    pub path: Path,
}

impl Answer {
    // The answer where there is no search.
    pub fn stopped(number: u8) -> Answer
        ensures reply { result.reply ≡ Error number }
        ensures path { result.path ≡ path_shown [] }
    {
        Answer {
            reply: Reply::Error(number),
            path: Path::new(),
        }
    }
}

// A slot of the lent room: a length, then as many places as a path can have.
#[derive(Clone, Copy)]
pub struct Slot;

impl Slot {
    pub const BYTES: usize = BundlePlace::MOST + 1;

    // What the printed table asks for a full bundle.
    pub const MOST: usize = (BundlePlace::MOST - 1) * (BundlePlace::MOST - 2) / 2 + 1;
}

// What stands in the way of a search, each with the number of its reply.
#[derive(Clone, Copy, Debug, PartialEq, Eq)]
pub enum Lack {
    Certificates,
    Room,
}

impl From<Lack> for u8 {
    ghost use Rattle.reply.specs.Numbers.{lacking};

    ghost from_gives = { λ lack reply. reply ≡ lacking lack };

    fn from(lack: Lack) -> u8 {
        match lack {
            Lack::Certificates => Reply::EMPTY_CHAIN,
            Lack::Room => Reply::NO_ROOM,
        }
    }
}

// Whether a search over n certificates in a room of so many bytes lacks nothing, or else what.
#[tactic(auto, unfolding(crate::specs::Answer::case_of))]
pub fn room_for(n: u8, bytes: usize) -> Result<(), Lack>
    ensures { lacked result ≡ fault_of (case_of n n bytes) }
{
    if n == 0 {
        return Err(Lack::Certificates);
    }
    if !has_room(n, bytes) {
        return Err(Lack::Room);
    }
    Ok(())
}

// Whether so many bytes hold the slots that n certificates need.
#[tactic(auto, unfolding(crate::specs::Room::has_room))]
fn has_room(n: u8, bytes: usize) -> bool
    ensures { result ≡ has_room n bytes }
{
    n as usize <= BundlePlace::MOST && slots(n) as usize <= bytes / Slot::BYTES
}

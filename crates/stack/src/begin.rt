// What the search of a file goes by.
ghost use Rattle.std.specs.Prelude.{IfOk, IfErr, ◌*◌, ◌<◌, ◌^◌};
ghost use Rattle.card.specs.Content.{content_p};
ghost use Rattle.reply.specs.Slots.{slot_bytes};
ghost use Rattle.stack.specs.Begins.{Ran, RanOver, Leads, Unbegun};

use places::BundlePlace;
use policy::{Seats, seats_in};
use question::{Question, pose};
use reply::{Slot, room_for};

// What is asked: how many certificates there are, the budget, and whether what waits stays in the records at the end. A flag beside the
// budget, and no Option: there is a budget in both cases, the file's own where nothing stays.
#[derive(Clone, Copy)]
pub(crate) struct Terms {
    pub(crate) budget: u64,
    pub(crate) size: u8,
    pub(crate) leaves: bool,
}

// Who issued whom, who may stand where, and what is asked. The arrays stand each by itself, as a `Ground` lends them.
#[derive(Clone, Copy)]
pub(crate) struct Begun {
    pub(crate) rows: [u64; BundlePlace::MOST],
    pub(crate) roots: [u64; BundlePlace::MOST],
    pub(crate) seats: [u64; Seats::ROWS],
    pub(crate) terms: Terms,
}

// The search of a file in so many records: a paused run with this budget, or else the search with the file's own budget. Where there is
// no search, the number of what stands in its way: an error is answered by its number (`Reply::Error`), and a fault and a lack become one.
pub(crate) fn begin(file: &[u8], count: usize, paused: Option<u64>) -> Result<Begun, u8>
    requires { slot_bytes * count < 2 ^ 63 }
    ensures ok { IfOk result (Leads count (Ran paused (content_p file.now))) }
    ensures err { IfErr result (Unbegun count (Ran paused (content_p file.now))) }
{
    begin_over(pose(file, None)?, count, paused)
}

// The same of a question.
fn begin_over(question: Question, count: usize, paused: Option<u64>) -> Result<Begun, u8>
    requires { slot_bytes * count < 2 ^ 63 }
    ensures ok { IfOk result (Leads count (RanOver paused question)) }
    ensures err { IfErr result (Unbegun count (RanOver paused question)) }
{
    let n = question.size;
    room_for(n, Slot::BYTES * count)?;
    // In variables: the borrow checker's part of the proof covers no array field that is put straight into a literal.
    let judged = question.judged;
    let issuing = judged.issuing;
    let rows = issuing.bundle;
    let roots = issuing.roots;
    let mut seats = [0u64; Seats::ROWS];
    seats_in(&mut seats, judged, n - 1);
    Ok(Begun {
        rows,
        roots,
        seats,
        terms: Terms {
            budget: paused.unwrap_or(question.budget),
            size: n,
            leaves: paused.is_some(),
        },
    })
}

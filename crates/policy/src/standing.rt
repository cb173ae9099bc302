// How a path stands under the policy, as a small value that is begun before the leaf and goes on place by place. Who may stand where is read
// from the seats, which were filled once.
ghost use Rattle.std.specs.Prelude.{◌≡◌};
ghost use Rattle.policy.specs.Standing.{begun, over, added};

use crate::Seats;
use rows::has;

// How a path stands: its seat. It grows by one with each certificate that counts, and is 0 if one may not stand where it does: an index like
// the others, whose rows are empty, so that a step looks there as anywhere, and no `None` is asked for.
#[derive(Clone, Copy)]
pub struct Standing {
    pub seat: usize,
}

// Before the leaf.
pub fn begun() -> Standing
    ensures { result ≡ begun }
{
    Standing { seat: 1 }
}

// The roots that may stand above a path, whoever issued its last place.
#[tactic(auto, unfolding(crate::specs::Standing::over))]
pub fn over(seats: &[u64; Seats::ROWS], standing: Standing) -> u64
    ensures { result ≡ over seats.now standing }
{
    let seat = standing.seat;
    if seat < Seats::MOST {
        return seats[Seats::ROOTS + seat];
    }
    0
}

// How a path stands that goes on by a place.
#[tactic(auto, unfolding(crate::specs::Standing::added))]
pub fn added(seats: &[u64; Seats::ROWS], standing: Standing, place: u8) -> Standing
    ensures { result ≡ added seats.now standing place }
{
    let seat = standing.seat;
    if seat < Seats::MOST {
        if has(seats[Seats::COUNTED + seat], place) {
            return Standing { seat: seat + 1 };
        }
        if has(seats[Seats::OTHERS + seat], place) {
            return Standing { seat };
        }
    }
    Standing { seat: 0 }
}

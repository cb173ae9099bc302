// Simple paths, their order, a path's rank, and what waits after k steps: definitions in specs/ and theorems in proofs/. The one
// function answers how many slots the waiting paths need; finding a path is left to the search.
#![tactic(auto)]

ghost use Rattle.std.specs.Prelude.{◌≡◌};
ghost use Rattle.order.specs.Slots.{slots_of};

use places::BundlePlace;

// The printed table: the slots that n certificates need.
const SLOTS: [u8; BundlePlace::MOST + 1] = [
    0, 1, 1, 2, 4, 7, 11, 16, 22, 29, 37, 46, 56, 67, 79, 92, 106, 121, 137, 154, 172, 191, 211,
    232, 254,
];

// The slots that n certificates need; 0 past the table's end.
#[tactic(auto, using(crate::proofs::Printed::printed))]
pub fn slots(n: u8) -> u8
    ensures { result ≡ slots_of n }
{
    SLOTS.get(n as usize).copied().unwrap_or(0)
}

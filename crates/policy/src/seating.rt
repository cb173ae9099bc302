// Who may stand where, by the path lengths: filled once, so that a place more costs one look.
ghost use Rattle.std.specs.Prelude.{List, ◌≡◌, ℕ, ◌<◌, min, length, replicate};
ghost use Rattle.places.specs.Limits.{bundle_most};
ghost use Rattle.policy.specs.Filling.{Limited, Entered, Filled, Empty, FilledFrom};
ghost use Rattle.policy.specs.Standing.{Seated};

use crate::{Judged, Sound};
use card::{BundlePlace, RootPlace};
use rows::{below, each, either, with};
use std::cmp::min;

// Three rows for each seat: the roots that may stand above, the places that may come next and count, and those that may and don't. Seat 0
// is none, seat 1 is before the leaf, and each after it is above the leaf and one certificate more that counts. The rows of the three kinds
// are one array, since `Seated`, by which steps, stack and drawer read them, speaks of one; `fill_from` fills a part of it for each kind.
#[derive(Clone, Copy)]
pub struct Seats {
    pub rows: [u64; Seats::ROWS],
}

impl Seats {
    pub const MOST: usize = BundlePlace::MOST + 2;

    // Where the rows of each kind begin.
    pub const ROOTS: usize = 0;

    pub const COUNTED: usize = Seats::MOST;

    pub const OTHERS: usize = 2 * Seats::MOST;

    pub const ROWS: usize = 3 * Seats::MOST;
}

// The seats of a card's certificates, in paths of no more than so many places after the leaf.
pub fn seats_of(judged: Judged, after: u8) -> Seats
    ensures { Seated judged after result.rows }
{
    let mut rows = [0u64; Seats::ROWS];
    seats_in(&mut rows, judged, after);
    Seats { rows }
}

// The same in lent rows, whatever they held, for a caller that keeps no copy.
pub fn seats_in(rows: &mut [u64; Seats::ROWS], judged: Judged, after: u8)
    ensures { Seated judged after rows.new }
{
    let last = min(after as usize, BundlePlace::MOST - 1);
    let tops = judged.above.among(below(RootPlace::MOST as u8));
    let between = judged.between.among(below(BundlePlace::MOST as u8));
    let counted = between.among(judged.counted);
    let others = between.outside(judged.counted);
    *rows = [0u64; Seats::ROWS];
    fill_from(rows, Seats::ROOTS + 2, last, &tops);
    fill_from(rows, Seats::COUNTED + 2, last, &counted);
    fill_from(rows, Seats::OTHERS + 2, last, &others);
    rows[Seats::COUNTED + 1] = judged.leaves;
}

// Fills the rows of a kind, which begin at `from`, and leaves the others as they are. Each function below hands its arguments to the next, so
// that a struct of them would only be taken apart again. What is asked of a kind is no invariant of it: `seats_of` takes any.
fn fill_from<const MOST: usize>(rows: &mut [u64], from: usize, last: usize, kind: &Sound<MOST>)
    requires empty { Empty from rows.old × (last < bundle_most) }
    requires limited { Limited kind.now.sound kind.now.limits }
    ensures { FilledFrom from last kind.now.sound kind.now.limits rows.old rows.new }
{
    fill(&mut rows[from..from + BundlePlace::MOST], last, kind);
}

// Whoever may stand above so many certificates may stand above fewer: each is put in the last row where it may stand, and then handed on.
fn fill<const MOST: usize>(rows: &mut [u64], last: usize, kind: &Sound<MOST>)
    requires rows_value { (rows.old ≡ replicate bundle_most 0) × (last < bundle_most) }
    requires limited { Limited kind.now.sound kind.now.limits }
    ensures { Filled last kind.now.sound kind.now.limits rows.new }
{
    enter(rows, last, kind);
    hand_on(rows, last);
}

// Puts each in the row of its limit, or in the last row where its limit is past it.
fn enter<const MOST: usize>(rows: &mut [u64], last: usize, kind: &Sound<MOST>)
    requires rows_value { (rows.old ≡ replicate bundle_most 0) × (last < bundle_most) }
    requires limited { Limited kind.now.sound kind.now.limits }
    ensures { Entered last kind.now.sound kind.now.limits rows.new }
{
    let limits = &kind.limits[..];
    for i in each(kind.sound) {
        let row = min(limits[i as usize] as usize, last);
        rows[row] = with(rows[row], i);
    }
}

// Puts those of each row, from the last on down, in the row before it.
fn hand_on(rows: &mut [u64], last: usize)
    requires { (length rows.old ≡ bundle_most) × (last < bundle_most) }
    ensures { (sound : ℕ) (limits : List ℕ) → Entered last sound limits rows.old → Filled last sound limits rows.new }
{
    for k in (0..last).rev() {
        rows[k] = either(rows[k], rows[k + 1]);
    }
}

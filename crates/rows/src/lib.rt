// A row: a set of places as the bits of one number. A row has room for as many places as any limit asks, so that one width serves all.
// It stays a plain number: the crates above hand rows on in arrays of numbers, and a type of its own would be unwrapped at each of them.
#![tactic(auto)]

mod coming;

ghost use Rattle.std.specs.Prelude.{◌≡◌};
ghost use Rattle.rows.specs.Rows.{has, joined, left, common, either, lowest, highest, below};

pub use coming::{Rising, each};

// The places that a row has room for.
#[derive(Clone, Copy)]
pub struct Row;

impl Row {
    pub const PLACES: u8 = 64;
}

// Whether place i stands in a row. False if a row has no room for such a place.
pub fn has(row: u64, i: u8) -> bool
    ensures { result ≡ has i row }
{
    if Row::PLACES <= i {
        return false;
    }
    (row >> i) & 1 != 0
}

// A row with place i; as it was where a row has no such place.
pub fn with(row: u64, i: u8) -> u64
    ensures { result ≡ joined row i }
{
    if Row::PLACES <= i {
        return row;
    }
    row | (1u64 << i)
}

// The places of a row that are not in another.
pub fn without(row: u64, taken: u64) -> u64
    ensures { result ≡ left row taken }
{
    row ^ (row & taken)
}

// The places that stand in both of two rows.
pub fn shared(row: u64, other: u64) -> u64
    ensures { result ≡ common row other }
{
    row & other
}

// The places that stand in one of two rows, or in both.
pub fn either(row: u64, other: u64) -> u64
    ensures { result ≡ either row other }
{
    row | other
}

// The lowest place of a row; as many as a row has room for where it has none: `lowest` of specs/, which the promises above cite, is a number
// then too, and no Option. So is `highest`.
pub fn lowest(row: u64) -> u8
    ensures { result ≡ lowest row }
{
    u64::trailing_zeros(row) as u8
}

// The highest place of a row; as many as a row has room for where it has none.
pub fn highest(row: u64) -> u8
    ensures { result ≡ highest row }
{
    if row == 0 {
        return Row::PLACES;
    }
    (63 - u64::leading_zeros(row)) as u8
}

// The row of the places below n; all that a row has room for where n is more.
pub fn below(n: u8) -> u64
    ensures { result ≡ below n }
{
    if Row::PLACES <= n {
        return u64::MAX;
    }
    (1u64 << n) - 1
}

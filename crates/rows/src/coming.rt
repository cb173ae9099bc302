// The places of a row, one after another.
ghost use Rattle.std.specs.Prelude.{◌≡◌, ◌-◌};
ghost use Rattle.std.specs.Iterator.{at_most};
ghost use Rattle.rows.specs.Rows.{lowest, Next};

use crate::{Row, lowest, with, without};

// Those that are still to come, the lowest first.
#[derive(Clone, Copy)]
pub struct Rising {
    pub rest: u64,
}

// All the places of a row.
pub fn each(row: u64) -> Rising
    ensures { result ≡ record { rest = row } }
{
    Rising { rest: row }
}

impl Iterator for Rising {
    type Item = u8;

    ghost next_gives = { λ s r t. Next s.rest r t.rest };

    ghost remaining = { λ s. at_most (64 - lowest s.rest) };

    #[tactic(auto, using(crate::proofs::Taking::lowest_grows))]
    fn next(&mut self) -> Option<u8> {
        let i = lowest(self.rest);
        if Row::PLACES <= i {
            return None;
        }
        self.rest = without(self.rest, with(0, i));
        Some(i)
    }
}

// A list of usages: a count, then a byte for each.
ghost use Rattle.std.specs.Prelude.{◌≡◌, ℕ};
ghost use Rattle.fields.specs.Answers.{read};
ghost use Rattle.lists.specs.Lists.{usage_p};
ghost use Rattle.lists.specs.Runs.{usages_p};

use fields::{Fault, Reading, Run, Thing, byte_at, list_at};

pub struct Usage;

impl Usage {
    // The highest.
    pub const LAST: usize = 7;

    // Of the usages in a list.
    pub const FEWEST: usize = 0;

    pub const MANY: usize = 8;
}

impl Thing for Usage {
    ghost Value = { ℕ };

    ghost thing_p = { usage_p };

    fn past(file: &[u8], at: usize) -> Result<usize, Fault> {
        Ok(usage_at(file, at)?.1)
    }
}

// The usages at a place.
#[tactic(auto, using(fields::proofs::Runs::run_by_ends))]
pub fn usages_at(file: &[u8], at: usize) -> Reading<Run>
    ensures { read result ≡ usages_p file.now at }
{
    list_at::<Usage>(file, at, Usage::FEWEST, Usage::MANY)
}

// The usage at a place: a bad value above the last, judged when it is read.
#[tactic(auto, unfolding(crate::specs::Lists::usage_p))]
pub fn usage_at(file: &[u8], at: usize) -> Reading<usize>
    ensures { read result ≡ usage_p file.now at }
{
    let (usage, next) = byte_at(file, at)?;
    if Usage::LAST < usage {
        return Err(Fault::BadValue);
    }
    Ok((usage, next))
}

// So many of a thing in a row.
ghost use Rattle.std.specs.Prelude.{◌≡◌};
ghost use Rattle.fields.specs.Fields.{count_p, many};
ghost use Rattle.fields.specs.Runs.{run_p, any_of};
ghost use Rattle.fields.specs.Answers.{begun, read, passed, passing};

use crate::{Fault, Reading, Test, Thing, count_at};

// How many of a thing there are, and where the first one stands.
#[derive(Clone, Copy)]
pub struct Run {
    pub count: usize,
    pub first: usize,
}

impl Run {
    // The place past the last one.
    pub fn past<T: Thing>(self, file: &[u8]) -> Result<usize, Fault>
        ensures { passed result ≡ passing (many T.thing_p self.count file.now self.first) }
    {
        let mut at = self.first;
        for _ in 0..self.count {
            at = T::past(file, at)?;
        }
        Ok(at)
    }

    // Whether one of them passes a test, from the left as far as they can be read.
    pub fn any<T: Test>(self, file: &[u8], test: &T) -> bool
        ensures { result ≡ any_of (T.passes test.now) T.thing_p self.count file.now self.first }
    {
        let mut at = self.first;
        for _ in 0..self.count {
            match test.ask(file, at) {
                Ok((true, _)) => return true,
                Ok((false, next)) => at = next,
                Err(_) => return false,
            }
        }
        false
    }
}

// A count of things, from least to most.
pub fn run_at(file: &[u8], at: usize, least: usize, most: usize) -> Result<Run, Fault>
    ensures { begun result ≡ count_p least most file.now at }
{
    let (count, first) = count_at(file, at, least, most)?;
    Ok(Run { count, first })
}

// A count of things, from least to most, and then the things.
#[tactic(auto, using(crate::proofs::Runs::run_by_ends))]
pub fn list_at<T: Thing>(file: &[u8], at: usize, least: usize, most: usize) -> Reading<Run>
    ensures { read result ≡ run_p least most T.thing_p file.now at }
{
    let run = run_at(file, at, least, most)?;
    let next = run.past::<T>(file)?;
    Ok((run, next))
}

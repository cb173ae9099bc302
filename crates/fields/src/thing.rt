// A thing that stands in a file, so that one loop goes past so many of any kind.
ghost use Rattle.std.specs.Prelude.{◌≡◌, ℕ, List};
ghost use Rattle.fields.specs.Fields.{Parsed, whole};
ghost use Rattle.fields.specs.Answers.{passed, passing};

use crate::Fault;

pub trait Thing {
    ghost Value: { Type 0 };

    ghost thing_p: { List ℕ → ℕ → Parsed Value };

    // The place past the thing at a place.
    fn past(file: &[u8], at: usize) -> Result<usize, Fault>
        ensures { passed result ≡ passing (thing_p file.now at) };
}

// The end of a thing that fills its bytes to the last.
#[tactic(auto, using(crate::proofs::Judged::whole_ends))]
pub fn whole<T: Thing>(s: &[u8]) -> Result<usize, Fault>
    ensures { passed result ≡ passing (whole T.thing_p s.now) }
{
    let end = T::past(s, 0)?;
    if end < s.len() {
        return Err(Fault::LeftOver);
    }
    Ok(end)
}

// One byte: a count or a length, judged when it is read, or any.
ghost use Rattle.std.specs.Prelude.{◌≡◌};
ghost use Rattle.fields.specs.Fields.{byte_p, count_p};
ghost use Rattle.fields.specs.Answers.{read};

use crate::{Fault, Reading};

// The byte at a place, from least to most, and the place past it.
#[tactic(auto, unfolding(crate::specs::Fields::count_p))]
pub fn count_at(file: &[u8], at: usize, least: usize, most: usize) -> Reading<usize>
    ensures { read result ≡ count_p least most file.now at }
{
    let Some(&byte) = file.get(at) else {
        return Err(Fault::CutShort);
    };
    let count = byte as usize;
    if count < least || most < count {
        return Err(Fault::BadCount);
    }
    Ok((count, at + 1))
}

// Any byte, and the place past it.
#[tactic(auto, unfolding(crate::specs::Fields::byte_p))]
pub fn byte_at(file: &[u8], at: usize) -> Reading<usize>
    ensures { read result ≡ byte_p file.now at }
{
    count_at(file, at, 0, 255)
}

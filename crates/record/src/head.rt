// The head of a record: version, flags, and the two dates.
ghost use Rattle.std.specs.Prelude.{◌&&◌, not, ◌≡◌};
ghost use Rattle.extensions.specs.Flags.{flag};
ghost use Rattle.fields.specs.Answers.{read};
ghost use Rattle.record.specs.Record.{opening_p, dates_p, head_p};

use extensions::{Flags, has_flag};
use fields::{Fault, Reading, byte_at, u64_at};

// Zeros where it can't be read.
#[derive(Clone, Copy, Default)]
pub struct Head {
    pub version: usize,
    pub flags: usize,
    pub not_before: u64,
    pub not_after: u64,
}

// Inlined, so that where the flags alone are needed the dates are not put together: called, it took 4 ns longer for a record's 48.
#[inline]
#[tactic(auto, unfolding(crate::specs::Record::head_p))]
pub(crate) fn head_at(file: &[u8], at: usize) -> Reading<Head>
    ensures { read result ≡ head_p file.now at }
{
    let ((version, flags), at) = flags_at(file, at)?;
    let ((not_before, not_after), next) = dates_at(file, at)?;
    let head = Head {
        version,
        flags,
        not_before,
        not_after,
    };
    Ok((head, next))
}

// Any version; flags of which a path length's needs a CA's, and that to sign a key usage's, judged when they are read.
#[tactic(auto, unfolding(crate::specs::Record::opening_p, crate::specs::Certificate::flags_p, crate::specs::Certificate::paired))]
fn flags_at(file: &[u8], at: usize) -> Reading<(usize, usize)>
    ensures { read result ≡ opening_p file.now at }
{
    let (version, at) = byte_at(file, at)?;
    let (flags, next) = byte_at(file, at)?;
    if lacks(flags, Flags::PATH_LENGTH, Flags::CA)
        || lacks(flags, Flags::MAY_SIGN, Flags::KEY_USAGE)
    {
        return Err(Fault::BadValue);
    }
    Ok(((version, flags), next))
}

// Whether one flag is set without the other that it needs.
fn lacks(flags: usize, one: usize, other: usize) -> bool
    ensures { result ≡ flag one flags && not (flag other flags) }
{
    has_flag(flags, one) && !has_flag(flags, other)
}

#[tactic(auto, unfolding(crate::specs::Record::dates_p))]
fn dates_at(file: &[u8], at: usize) -> Reading<(u64, u64)>
    ensures { read result ≡ dates_p file.now at }
{
    let (not_before, at) = u64_at(file, at)?;
    let (not_after, next) = u64_at(file, at)?;
    Ok(((not_before, not_after), next))
}

// What is asked of one certificate, a rule a function, in the paper's order. The head is read once for all rules.
ghost use Rattle.std.specs.Prelude.{List, ◌≡◌, ℕ};
ghost use Rattle.record.specs.Parts.{certificate_by};
ghost use Rattle.record.specs.declared.Record.{Record};
ghost use Rattle.rules.specs.Rules.{at, in_date, well_formed, handled, authority};
ghost use Rattle.rules.specs.Limits.{limit_of};

use extensions::{Flags, has_flag};
use fields::part;
use record::{Head, Record};
use text::equal;

// When certificates are judged.
#[derive(Clone, Copy)]
pub struct Time {
    now: u64,
}

impl Time {
    // No `From`: a number is made a time here alone, and no rule but the dates' opens one.
    #[tactic(auto, unfolding(crate::specs::Rules::at))]
    pub fn at(now: u64) -> Time
        ensures { result ≡ at now }
    {
        Time { now }
    }
}

// Not before and not after.
#[tactic(auto, unfolding(crate::specs::Rules::in_date, record::specs::Parts::certificate_by))]
pub fn in_date(time: Time, head: Head) -> bool
    ensures { (cert : Record) (s : List ℕ) → result ≡ in_date time (certificate_by head cert s) }
{
    head.not_before <= time.now && time.now <= head.not_after
}

// X.509 v3, and the algorithm inside the signature is the one outside it.
#[tactic(auto, unfolding(crate::specs::Rules::well_formed, record::specs::Parts::certificate_by))]
pub fn well_formed(file: &[u8], head: Head, cert: Record) -> bool
    ensures { result ≡ well_formed (certificate_by head cert file.now) }
{
    if head.version != V3 {
        return false;
    }
    let strings = cert.strings(file);
    equal(part(file, strings.outer), part(file, strings.inner))
}

// The version is the file's number; this one alone has a meaning.
const V3: usize = 2;

// No critical extension was left unhandled.
#[tactic(auto, unfolding(crate::specs::Rules::handled, record::specs::Parts::certificate_by))]
pub fn handled(head: Head) -> bool
    ensures { (cert : Record) (s : List ℕ) → result ≡ handled (certificate_by head cert s) }
{
    !has_flag(head.flags, Flags::UNHANDLED)
}

// A CA, which may sign certificates where it says what its key is for.
#[tactic(auto, unfolding(crate::specs::Rules::authority, record::specs::Parts::certificate_by))]
pub fn authority(head: Head) -> bool
    ensures { (cert : Record) (s : List ℕ) → result ≡ authority (certificate_by head cert s) }
{
    let flags = head.flags;
    has_flag(flags, Flags::CA)
        && (!has_flag(flags, Flags::KEY_USAGE) || has_flag(flags, Flags::MAY_SIGN))
}

// How many certificates that count a path length lets stand between this one and the leaf; no limit where there is none.
#[tactic(auto, using(crate::proofs::Limits::path_length_byte), unfolding(crate::specs::Limits::limit_of, record::specs::Parts::certificate_by))]
pub fn limit(file: &[u8], head: Head, cert: Record) -> u8
    ensures { result ≡ limit_of (certificate_by head cert file.now) }
{
    let flags = head.flags;
    if has_flag(flags, Flags::PATH_LENGTH) {
        return cert.extensions(file, flags).path_length as u8;
    }
    NO_LIMIT
}

// More certificates than a path can have; a number and no Option, for limits stand in arrays of bytes (`place_limits` of policy).
const NO_LIMIT: u8 = 255;

// The flags of a record: what each one says, and whether it is set.
ghost use Rattle.std.specs.Prelude.{◌≡◌};
ghost use Rattle.extensions.specs.Flags.{flag};

// The flags byte of a record. Its flags are numbers, and no enum: `has_flag` promises an answer for every number.
#[derive(Clone, Copy)]
pub struct Flags;

impl Flags {
    pub const AUTHORITY_KEY: usize = 1;

    pub const AUTHORITY_SERIAL: usize = 2;

    pub const SUBJECT_KEY: usize = 4;

    pub const CA: usize = 8;

    pub const PATH_LENGTH: usize = 16;

    pub const KEY_USAGE: usize = 32;

    pub const MAY_SIGN: usize = 64;

    pub const UNHANDLED: usize = 128;
}

// Whether a flag is set; no for 0, which is none.
#[tactic(auto, unfolding(crate::specs::Flags::flag))]
pub fn has_flag(flags: usize, one: usize) -> bool
    ensures { result ≡ flag one flags }
{
    one != 0 && flags / one % 2 == 1
}

// Two texts walked side by side, and whether values are compared in normal form.
ghost use Rattle.std.specs.Prelude.{◌≡◌};

#[derive(Clone, Copy)]
pub struct Pair<'a> {
    pub left: &'a [u8],
    pub right: &'a [u8],
    pub normalise: bool,
}

impl<'a> Pair<'a> {
    pub fn of(left: &'a [u8], right: &'a [u8], normalise: bool) -> Self
        ensures { result ≡ record { left = left.entry; right = right.entry; normalise = normalise } }
    {
        Pair {
            left,
            right,
            normalise,
        }
    }
}

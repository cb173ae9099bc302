// Single bytes, and byte strings compared.
ghost use Rattle.std.specs.Prelude.{map, ◌≡◌};
ghost use Rattle.text.specs.Bytes.{lowered, same};
ghost use Rattle.text.specs.Private.{lowered_if};

// A to Z gain 32.
#[tactic(auto, using(crate::proofs::Lowering::lowered_std), unfolding(crate::specs::Bytes::lowered))]
pub fn lower(b: u8) -> u8
    ensures { result ≡ lowered b }
{
    b.to_ascii_lowercase()
}

// A byte as it is compared: lowered where that is asked. A flag, since it is asked in this one place; a const parameter would make
// every function above it two.
fn lower_if(b: u8, lowering: bool) -> u8
    ensures { result ≡ lowered_if lowering b }
{
    if lowering { lower(b) } else { b }
}

// Whether a and b hold the same bytes.
#[tactic(auto, using(crate::proofs::Same::same_std))]
pub fn equal(a: &[u8], b: &[u8]) -> bool
    ensures { result ≡ same a.now b.now }
{
    a == b
}

// Whether a and b hold the same bytes, both lowered where that is asked. The fold does not stop at a difference, so that the compiler
// compares many bytes at once: std's `eq_ignore_ascii_case` stops, and takes three times as long over 16 equal bytes.
pub(crate) fn equal_lowering(a: &[u8], b: &[u8], lowering: bool) -> bool
    ensures { result ≡ same (map (lowered_if lowering) a.now) (map (lowered_if lowering) b.now) }
{
    a.len() == b.len()
        && a.iter().zip(b).fold(
            true,
            |alike, (x, y)| alike & (lower_if(*x, lowering) == lower_if(*y, lowering)),
        )
}

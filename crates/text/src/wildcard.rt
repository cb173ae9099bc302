// A host name under a pattern that may begin with a star.
ghost use Rattle.std.specs.Prelude.{map, ◌≡◌};
ghost use Rattle.text.specs.Bytes.{lowered};
ghost use Rattle.text.specs.Private.{lowered_if};
ghost use Rattle.text.specs.Wildcard.{match_name};

use crate::bytes::equal_lowering;

// Whether a name fits a pattern, byte for byte. A star before a domain stands for one label of at least one byte.
pub fn match_name(pattern: &[u8], name: &[u8]) -> bool
    ensures { result ≡ match_name pattern.now name.now }
{
    match_lowering(pattern, name, false)
}

// Whether a name fits a pattern, both lowered.
pub fn match_lowered(pattern: &[u8], name: &[u8]) -> bool
    ensures { result ≡ match_name (map lowered pattern.now) (map lowered name.now) }
{
    match_lowering(pattern, name, true)
}

// Whether a name fits a pattern, both lowered where that is asked. Lowering moves neither the star nor a dot.
fn match_lowering(pattern: &[u8], name: &[u8], lowering: bool) -> bool
    ensures { result ≡ match_name (map (lowered_if lowering) pattern.now) (map (lowered_if lowering) name.now) }
{
    if !pattern.starts_with(b"*.") {
        return equal_lowering(pattern, name, lowering);
    }
    let suffix = &pattern[1..];
    if pattern.len() <= 2 || name.len() <= suffix.len() {
        return false;
    }
    let (label, rest) = name.split_at(name.len() - suffix.len());
    equal_lowering(rest, suffix, lowering) && !label.contains(&b'.')
}

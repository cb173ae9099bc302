// The normal form of a string, in which names are compared (RFC 5280, 7.1).
ghost use Rattle.std.specs.Prelude.{◌≡◌};
ghost use Rattle.text.specs.Normalize.{form_of, normalized, written};

use crate::lower;

// Writes the normal form of s to the start of out, and answers its length: A to Z lowered, spaces at both ends gone, a run of spaces
// inside become one. Without room for s itself nothing is written.
#[tactic(auto, unfolding(crate::specs::Normalize::normalized, crate::specs::Normalize::written))]
pub fn normalize_string(s: &[u8], out: &mut [u8]) -> Option<usize>
    ensures answer { form_of result ≡ normalized s.now out.old }
    ensures room { out.new ≡ written s.now out.old }
{
    if out.len() < s.len() {
        return None;
    }
    let mut n = 0;
    let mut gap = false;
    for &b in s {
        if b == b' ' {
            gap = 0 < n;
        } else {
            if gap {
                out[n] = b' ';
                n += 1;
            }
            out[n] = lower(b);
            n += 1;
            gap = false;
        }
    }
    Some(n)
}

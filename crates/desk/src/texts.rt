// Texts for C: a string's normal form, and a host name under a pattern.
ghost use Rattle.std.specs.Prelude.{◌≡◌};
ghost use Rattle.text.specs.Normalize.{normalized, written};
ghost use Rattle.text.specs.Wildcard.{match_name};
ghost use Rattle.desk.specs.Leaves.{yes_no, formed};

// The normal form's length and number 0, or length 0 and number 10.
#[repr(C)]
#[derive(Clone, Copy)]
pub struct Form {
    pub length: u64,
    pub number: u8,
}

// The same answer in plain numbers.
impl From<Option<usize>> for Form {
    ghost use Rattle.text.specs.Normalize.{form_of};
    ghost use Rattle.desk.specs.Leaves.{formed};

    ghost from_gives = { λ length form. form ≡ formed (form_of length) };

    fn from(length: Option<usize>) -> Form {
        match length {
            Some(bytes) => Form {
                length: bytes as u64,
                number: 0,
            },
            None => Form {
                length: 0,
                number: 10,
            },
        }
    }
}

// Writes the normal form of s to the start of out; without room for s itself nothing is written.
#[unsafe(no_mangle)]
pub extern "C" fn savuneco_normalize(s: &[u8], out: &mut [u8]) -> Form
    ensures answer { result ≡ formed (normalized s.now out.old) }
    ensures room { out.new ≡ written s.now out.old }
{
    text::normalize_string(s, out).into()
}

// Whether a name fits a pattern.
#[unsafe(no_mangle)]
pub extern "C" fn savuneco_match_name(pattern: &[u8], name: &[u8]) -> u8
    ensures { result ≡ yes_no (match_name pattern.now name.now) }
{
    text::match_name(pattern, name).into()
}

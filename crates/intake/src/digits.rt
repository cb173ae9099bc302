// The digits in which programs are given bytes.
ghost use Rattle.std.specs.Prelude.{◌<◌, SomeIff};
ghost use Rattle.std.specs.Char.{digit_value};

// The value of a hexadecimal digit; none where b is no digit, or a small letter.
pub fn hex_digit(b: u8) -> Option<u8>
    ensures { SomeIff result ((b < 97) × (digit_value b < 16)) (digit_value b) }
{
    match b {
        b'0'..=b'9' => Some(b - b'0'),
        b'A'..=b'F' => Some(b - b'A' + 10),
        _ => None,
    }
}

// The bytes that an argument stands for.
ghost use Rattle.std.specs.Prelude.{◌<◌, IfSome, length};

use intake::hex_digit;

// The bytes of a field, written to out: those that find no room are left out.
pub(crate) fn unescape<'a>(field: &[u8], out: &'a mut [u8]) -> &'a [u8] {
    let mut rest = field;
    let mut n = 0;
    while let Some((byte, behind)) = first_byte(rest) {
        if n == out.len() {
            break;
        }
        out[n] = byte;
        n += 1;
        rest = behind;
    }
    &out[..n]
}

// The first byte that an argument stands for, and what stands behind it.
fn first_byte(arg: &[u8]) -> Option<(u8, &[u8])>
    ensures { IfSome result (λ r. length r.1.now < length arg.now) }
{
    if let [b'\\', high, low, rest @ ..] = arg {
        if let (Some(high), Some(low)) = (hex_digit(*high), hex_digit(*low)) {
            return Some((high * 16 + low, rest));
        }
    }
    let (byte, rest) = arg.split_first()?;
    Some((*byte, rest))
}

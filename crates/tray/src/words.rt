// The bytes that the words of a card stand for, and the number that digits stand for.
ghost use Rattle.std.specs.Prelude.{◌≡◌, ◌≤◌, length};

use intake::hex_digit;

// Writes the bytes of a card; how many they are. Those that find no room are left out.
pub(crate) fn card(text: &[u8], out: &mut [u8]) -> usize
    ensures bound { result ≤ length out.old }
    ensures same_length { length out.new ≡ length out.old }
{
    let mut n = 0;
    for word in text.split(|b| *b == b' ') {
        n += word_bytes(word, &mut out[n..]);
    }
    n
}

// Writes a word's bytes; how many they are.
fn word_bytes(word: &[u8], out: &mut [u8]) -> usize
    ensures bound { result ≤ length out.old }
    ensures same_length { length out.new ≡ length out.old }
{
    match word.iter().position(|b| *b == b'*') {
        Some(star) => again(&word[star + 1..], number(&word[..star]), out),
        None => pairs(word, out),
    }
}

// Writes the bytes of pairs of digits so many times.
fn again(digits: &[u8], times: usize, out: &mut [u8]) -> usize
    ensures bound { result ≤ length out.old }
    ensures same_length { length out.new ≡ length out.old }
{
    let mut n = 0;
    for _ in 0..times {
        n += pairs(digits, &mut out[n..]);
    }
    n
}

// Writes the byte of each pair of hexadecimal digits.
fn pairs(digits: &[u8], out: &mut [u8]) -> usize
    ensures bound { result ≤ length out.old }
    ensures same_length { length out.new ≡ length out.old }
{
    for (byte, pair) in out.iter_mut().zip(digits.chunks_exact(2)) {
        *byte = digit(pair[0]) * 16 + digit(pair[1]);
    }
    out.len().min(digits.len() / 2)
}

// The value of a hexadecimal digit; 0 where b is none.
fn digit(b: u8) -> u8
    ensures { result ≤ 15 }
{
    hex_digit(b).unwrap_or(0)
}

// The number that digits stand for by tens, A to F as 10 to 15 there too; digits behind one over 9,999 are not read.
pub(crate) fn number(digits: &[u8]) -> usize {
    let mut n = 0;
    for b in digits {
        if n >= 10_000 {
            break;
        }
        n = n * 10 + usize::from(digit(*b));
    }
    n
}

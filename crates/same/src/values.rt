// Two values compared in normal form, walked side by side: neither form is written down.
ghost use Rattle.std.specs.Prelude.{◌≡◌, eqb, drop};
ghost use Rattle.text.specs.Bytes.{lowered, same};
ghost use Rattle.text.specs.Normal.{normal};
ghost use Rattle.same.specs.Values.{together, spaces};

// Every byte lowered. `alike` looks both of its bytes up, since a test goes one way for one letter and the other way for the next, which a
// processor can't foresee.
#[rattlefmt::skip]
static LOWERED: [u8; 256] = [
    0, 1, 2, 3, 4, 5, 6, 7, 8, 9, 10, 11, 12, 13, 14, 15,
    16, 17, 18, 19, 20, 21, 22, 23, 24, 25, 26, 27, 28, 29, 30, 31,
    32, 33, 34, 35, 36, 37, 38, 39, 40, 41, 42, 43, 44, 45, 46, 47,
    48, 49, 50, 51, 52, 53, 54, 55, 56, 57, 58, 59, 60, 61, 62, 63,
    64, 97, 98, 99, 100, 101, 102, 103, 104, 105, 106, 107, 108, 109, 110, 111,
    112, 113, 114, 115, 116, 117, 118, 119, 120, 121, 122, 91, 92, 93, 94, 95,
    96, 97, 98, 99, 100, 101, 102, 103, 104, 105, 106, 107, 108, 109, 110, 111,
    112, 113, 114, 115, 116, 117, 118, 119, 120, 121, 122, 123, 124, 125, 126, 127,
    128, 129, 130, 131, 132, 133, 134, 135, 136, 137, 138, 139, 140, 141, 142, 143,
    144, 145, 146, 147, 148, 149, 150, 151, 152, 153, 154, 155, 156, 157, 158, 159,
    160, 161, 162, 163, 164, 165, 166, 167, 168, 169, 170, 171, 172, 173, 174, 175,
    176, 177, 178, 179, 180, 181, 182, 183, 184, 185, 186, 187, 188, 189, 190, 191,
    192, 193, 194, 195, 196, 197, 198, 199, 200, 201, 202, 203, 204, 205, 206, 207,
    208, 209, 210, 211, 212, 213, 214, 215, 216, 217, 218, 219, 220, 221, 222, 223,
    224, 225, 226, 227, 228, 229, 230, 231, 232, 233, 234, 235, 236, 237, 238, 239,
    240, 241, 242, 243, 244, 245, 246, 247, 248, 249, 250, 251, 252, 253, 254, 255,
];

// Whether two values have the same normal form. A word is walked in both for as long as they agree; where both then have spaces the next
// word begins behind these, and else both must be at their end, but for spaces.
pub(crate) fn same_normal(a: &[u8], b: &[u8]) -> bool
    ensures { result ≡ same (normal a.now) (normal b.now) }
{
    let mut x = past_spaces(a);
    let mut y = past_spaces(b);
    'words: loop {
        let n = together(x, y);
        let x_end = &x[n..];
        let y_end = &y[n..];
        let x_next = past_spaces(x_end);
        let y_next = past_spaces(y_end);
        if x_next.len() == x_end.len() || y_next.len() == y_end.len() {
            return x_next.is_empty() && y_next.is_empty();
        }
        x = x_next;
        y = y_next;
    }
}

// How many bytes two strings begin with that are the same lowered, up to the first space. Both are cut to one length first, so that a byte
// costs one look at a length and not two.
fn together(a: &[u8], b: &[u8]) -> usize
    ensures { result ≡ together a.now b.now }
{
    let n = a.len().min(b.len());
    a[..n]
        .iter()
        .zip(&b[..n])
        .take_while(|&(&x, &y)| x != b' ' && alike(x, y))
        .count()
}

// Whether two bytes are the same lowered.
fn alike(x: u8, y: u8) -> bool
    ensures { result ≡ eqb (lowered x) (lowered y) }
{
    LOWERED[x as usize] == LOWERED[y as usize]
}

// A string from its first byte on that is no space.
fn past_spaces(s: &[u8]) -> &[u8]
    ensures { result.now ≡ drop (spaces s.now) s.now }
{
    let n = s.iter().take_while(|&&b| b == b' ').count();
    &s[n..]
}

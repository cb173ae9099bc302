// A line under way.
ghost use Rattle.std.specs.Prelude.{List, [], ◌++◌, ◌≡◌, ℕ, ◌+◌, ◌≤◌, length, take};
ghost use Rattle.report.specs.Lines.{line_most, line_shown};
ghost use Rattle.report.specs.Text.{decimal};

use places::BundlePlace;

// Bytes, zeros past them, and how many they are: an array and its length, since nothing is allocated. That it shows a line is said of each
// function below, and is no invariant: the fields are public, and whoever makes a line may put anything there.
#[derive(Clone, Copy)]
pub struct Line {
    pub bytes: [u8; Line::MOST],
    pub length: usize,
}

impl Line {
    // An acceptance with steps of 20 digits, and a root and a full path of three digits each.
    pub const MOST: usize = 48 + 4 * BundlePlace::MOST;

    pub(crate) fn new() -> Line
        ensures { (result ≡ line_shown []) × (result.length ≡ 0) }
    {
        Line {
            bytes: [0u8; Line::MOST],
            length: 0,
        }
    }

    // The bytes of the line, without the zeros past them.
    pub fn as_slice(&self) -> &[u8]
        ensures { result.now ≡ take self.now.length self.now.bytes }
    {
        &self.bytes[..self.length.min(Line::MOST)]
    }

    // The line with more bytes behind it.
    pub(crate) fn with(mut self, more: &[u8]) -> Line
        requires { self.length + length more.now ≤ line_most }
        ensures length_value { result.length ≡ self.length + length more.now }
        ensures by_index { (l : List ℕ) → self ≡ line_shown l → result ≡ line_shown (l ++ more.now) }
    {
        let start = self.length;
        let end = start + more.len();
        self.bytes[start..end].copy_from_slice(more);
        self.length = end;
        self
    }

    // The line with a word and a number behind it.
    pub(crate) fn with_number(self, word: &[u8], n: u64) -> Line
        requires { self.length + length word.now + length (decimal n) ≤ line_most }
        ensures length_value { result.length ≡ self.length + length word.now + length (decimal n) }
        ensures by_index { (l : List ℕ) → self ≡ line_shown l → result ≡ line_shown (l ++ (word.now ++ decimal n)) }
    {
        let mut digits = [0u8; 20];
        let k = io::decimal(n, &mut digits);
        self.with(word).with(&digits[..k])
    }

    // The same of a byte, which has three digits at most.
    pub(crate) fn with_byte(self, word: &[u8], n: u8) -> Line
        requires { self.length + length word.now + 3 ≤ line_most }
        ensures length_bound { result.length ≤ self.length + length word.now + 3 }
        ensures by_index { (l : List ℕ) → self ≡ line_shown l → result ≡ line_shown (l ++ (word.now ++ decimal n)) }
    {
        self.with_number(word, n.into())
    }
}

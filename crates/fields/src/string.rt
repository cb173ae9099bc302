// A string: a length byte and its bytes.
ghost use Rattle.std.specs.Prelude.{◌≡◌};
ghost use Rattle.fields.specs.Spans.{span_p, bytes_of};
ghost use Rattle.fields.specs.Answers.{spanned};

use crate::{Fault, count_at};

// A string's bytes in a file: from start up to end, which is the place past the string.
#[derive(Clone, Copy)]
pub struct Span {
    pub start: usize,
    pub end: usize,
}

impl Span {
    // Of a part that is not there.
    pub const NOWHERE: Span = Span { start: 0, end: 0 };
}

// The string at a place, of least to most bytes. Its length is judged before any of its bytes is needed.
#[tactic(auto, unfolding(crate::specs::Spans::span_p, crate::specs::Fields::count_p))]
pub fn string_at(file: &[u8], at: usize, least: usize, most: usize) -> Result<Span, Fault>
    ensures { spanned result ≡ span_p least most file.now at }
{
    let (length, start) = count_at(file, at, least, most)?;
    if file.len() - start < length {
        return Err(Fault::CutShort);
    }
    Ok(Span {
        start,
        end: start + length,
    })
}

// A span's bytes; none where the span does not lie within the file.
#[tactic(auto, unfolding(crate::specs::Spans::bytes_of))]
pub fn part(file: &[u8], span: Span) -> &[u8]
    ensures { result.now ≡ bytes_of span file.now }
{
    file.get(span.start..span.end).unwrap_or(&[])
}

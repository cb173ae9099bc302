// The strings that every record has: serial, outer and inner algorithm.
ghost use Rattle.std.specs.Prelude.{◌≡◌};
ghost use Rattle.fields.specs.Answers.{read};
ghost use Rattle.record.specs.Record.{strings_p};

use crate::Record;
use fields::{Reading, Span, string_at};

#[derive(Clone, Copy)]
pub struct Strings {
    pub serial: Span,
    pub outer: Span,
    pub inner: Span,
}

impl Strings {
    pub const NOWHERE: Strings = Strings {
        serial: Span::NOWHERE,
        outer: Span::NOWHERE,
        inner: Span::NOWHERE,
    };
}

#[tactic(auto, unfolding(crate::specs::Record::strings_p))]
pub(crate) fn strings_at(file: &[u8], at: usize) -> Reading<Strings>
    ensures { read result ≡ strings_p file.now at }
{
    let serial = string_at(file, at, Record::SERIAL_LEAST, Record::SERIAL_MOST)?;
    let outer = string_at(
        file,
        serial.end,
        Record::ALGORITHM_LEAST,
        Record::ALGORITHM_MOST,
    )?;
    let inner = string_at(
        file,
        outer.end,
        Record::ALGORITHM_LEAST,
        Record::ALGORITHM_MOST,
    )?;
    let strings = Strings {
        serial,
        outer,
        inner,
    };
    Ok((strings, inner.end))
}

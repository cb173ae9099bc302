// A certificate's record as it stands in a card file: its parts in their order, each with its limits, and the reader. A record that was
// read is four places in the file; what stands there is read again where it is asked for. What a file of records means is left to
// the crate above.
#![tactic(auto)]

mod head;
mod parties;
mod strings;

ghost use Rattle.std.specs.Prelude.{◌≡◌};
ghost use Rattle.fields.specs.Answers.{read};
ghost use Rattle.record.specs.Fresh.{fresh};
ghost use Rattle.record.specs.Record.{place_of, placed, record_p};
ghost use Rattle.record.specs.Parts.{value_or, head_of, strings_of, key_ids_of, extensions_of, issuer_span, subject_span};

use extensions::{Extensions, KeyIds, extensions_at, key_ids_at};
use fields::{Reading, Span};
pub use head::Head;
use head::head_at;
pub use parties::Names;
use parties::names_at;
pub use strings::Strings;
use strings::strings_at;

// A record that was read: where it starts, where its two names start, and where what is behind them starts.
#[derive(Clone, Copy, Default)]
pub struct Record {
    start: u16,
    issuer: u16,
    subject: u16,
    rest: u16,
}

impl Record {
    pub const SERIAL_LEAST: usize = 1;

    pub const SERIAL_MOST: usize = KeyIds::SERIAL_MOST;

    pub const ALGORITHM_LEAST: usize = 1;

    pub const ALGORITHM_MOST: usize = 32;

    // The bytes of a head.
    const HEAD: usize = 18;

    // The last place that a record can hold.
    const PLACE_MOST: usize = 65535;

    // The record that stands where none was read: nothing but zeros.
    pub fn new() -> Record
        ensures { result ≡ fresh }
    {
        Record::default()
    }

    // A record by its places. A place that does not fit wraps, as `record_p` says; no card file has so many bytes.
    fn placed(start: usize, issuer: usize, subject: usize, rest: usize) -> Record
        ensures { result ≡ placed start issuer subject rest }
    {
        Record {
            start: place_of(start),
            issuer: place_of(issuer),
            subject: place_of(subject),
            rest: place_of(rest),
        }
    }

    // Version, flags and dates; zeros where they can't be read. Inlined as `head_at` is.
    #[inline]
    #[tactic(auto, unfolding(crate::specs::Parts::head_of))]
    pub fn head(self, file: &[u8]) -> Head
        ensures { result ≡ head_of self file.now }
    {
        value_or(head_at(file, self.start as usize), Head::default())
    }

    // The flags of the head, for who needs no more of it.
    pub fn flags(self, file: &[u8]) -> usize
        ensures { result ≡ (head_of self file.now).flags }
    {
        self.head(file).flags
    }

    // Serial and algorithms; nowhere where they can't be read.
    #[tactic(auto, unfolding(crate::specs::Parts::strings_of))]
    pub fn strings(self, file: &[u8]) -> Strings
        ensures { result ≡ strings_of self file.now }
    {
        value_or(
            strings_at(file, self.start as usize + Record::HEAD),
            Strings::NOWHERE,
        )
    }

    // Where the issuer's name stands.
    pub fn issuer_name(self) -> Span
        ensures { result ≡ issuer_span self }
    {
        Span {
            start: self.issuer as usize,
            end: self.subject as usize,
        }
    }

    // Where the subject's name stands.
    pub fn subject_name(self) -> Span
        ensures { result ≡ subject_span self }
    {
        Span {
            start: self.subject as usize,
            end: self.rest as usize,
        }
    }

    // Key ids, by the flags of the record's head; nowhere where they can't be read.
    #[tactic(auto, unfolding(crate::specs::Parts::key_ids_of))]
    pub fn key_ids(self, file: &[u8], flags: usize) -> KeyIds
        ensures { result ≡ key_ids_of flags self file.now }
    {
        value_or(key_ids_at(file, self.rest as usize, flags), KeyIds::NOWHERE)
    }

    // All that stands behind the names, by the flags of the record's head; nothing where it can't be read.
    #[tactic(auto, unfolding(crate::specs::Parts::extensions_of))]
    pub fn extensions(self, file: &[u8], flags: usize) -> Extensions
        ensures { result ≡ extensions_of flags self file.now }
    {
        value_or(
            extensions_at(file, self.rest as usize, flags),
            Extensions::NOWHERE,
        )
    }
}

// The record at a place.
#[tactic(auto, unfolding(crate::specs::Record::record_p))]
pub fn record_at(file: &[u8], at: usize) -> Reading<Record>
    ensures { read result ≡ record_p file.now at }
{
    let (head, strings) = head_at(file, at)?;
    let (_, names) = strings_at(file, strings)?;
    let (names, rest) = names_at(file, names)?;
    let (_, next) = extensions_at(file, rest, head.flags)?;
    Ok((Record::placed(at, names.issuer, names.subject, rest), next))
}

// What was read, or else.
fn value_or<T: Copy>(found: Reading<T>, other: T) -> T
    ensures { result ≡ value_or other (read found) }
{
    match found {
        Ok((value, _)) => value,
        Err(_) => other,
    }
}

// A place as a record holds it.
fn place_of(at: usize) -> u16
    ensures { result ≡ place_of at }
{
    (at % (Record::PLACE_MOST + 1)) as u16
}

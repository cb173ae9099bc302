// What a certificate's record has behind its names: key ids and a path length by its flags, and its lists. What was read is numbers and
// places in the file. Which flags a record has, and what stands before, is left to the crate above.
#![tactic(auto)]

mod flags;

ghost use Rattle.std.specs.Prelude.{◌≡◌};
ghost use Rattle.fields.specs.Answers.{read};
ghost use Rattle.extensions.specs.Extensions.{span_if_p, key_ids_p, path_length_p, extensions_p};
ghost use Rattle.extensions.specs.Flags.{flag};

use fields::{Reading, Run, Span, byte_at, string_at};
pub use flags::{Flags, has_flag};
use lists::{dns_names_at, usages_at};

// Key ids and the authority's serial; a part whose flag is not set stands nowhere.
// Spans beside the flags, and no Option: `certified` of record/specs/Parts has a part wherever its flag is set, even if nothing can be read there.
#[derive(Clone, Copy)]
pub struct KeyIds {
    pub authority: Span,
    pub authority_serial: Span,
    pub subject: Span,
}

impl KeyIds {
    pub const LEAST: usize = 1;

    pub const KEY_ID_MOST: usize = 64;

    pub const SERIAL_MOST: usize = 20;

    // Of parts that are not there.
    pub const NOWHERE: KeyIds = KeyIds {
        authority: Span::NOWHERE,
        authority_serial: Span::NOWHERE,
        subject: Span::NOWHERE,
    };
}

// A path length whose flag is not set is 0, and no Option, as with key ids.
#[derive(Clone, Copy)]
pub struct Extensions {
    pub key_ids: KeyIds,
    pub path_length: usize,
    pub usages: Run,
    pub dns_names: Run,
}

impl Extensions {
    // Of parts that are not there.
    pub const NOWHERE: Extensions = Extensions {
        key_ids: KeyIds::NOWHERE,
        path_length: 0,
        usages: Run { count: 0, first: 0 },
        dns_names: Run { count: 0, first: 0 },
    };
}

// The extensions at a place, of a record with such flags, which are handed on beside file and place: they stand in the record's head.
#[tactic(auto, unfolding(crate::specs::Extensions::extensions_p))]
pub fn extensions_at(file: &[u8], at: usize, flags: usize) -> Reading<Extensions>
    ensures { read result ≡ extensions_p flags file.now at }
{
    let (key_ids, at) = key_ids_at(file, at, flags)?;
    let (path_length, at) = path_length_at(file, at, flags)?;
    let (usages, at) = usages_at(file, at)?;
    let (dns_names, next) = dns_names_at(file, at)?;
    let extensions = Extensions {
        key_ids,
        path_length,
        usages,
        dns_names,
    };
    Ok((extensions, next))
}

// Authority key id, authority serial, subject key id, each by its flag.
#[tactic(auto, unfolding(crate::specs::Extensions::key_ids_p))]
pub fn key_ids_at(file: &[u8], at: usize, flags: usize) -> Reading<KeyIds>
    ensures { read result ≡ key_ids_p flags file.now at }
{
    let (authority, at) = option_at(file, at, flags, Flags::AUTHORITY_KEY, KeyIds::KEY_ID_MOST)?;
    let (authority_serial, at) = option_at(
        file,
        at,
        flags,
        Flags::AUTHORITY_SERIAL,
        KeyIds::SERIAL_MOST,
    )?;
    let (subject, next) = option_at(file, at, flags, Flags::SUBJECT_KEY, KeyIds::KEY_ID_MOST)?;
    let key_ids = KeyIds {
        authority,
        authority_serial,
        subject,
    };
    Ok((key_ids, next))
}

// The path length by its flag; 0 where there is none.
#[tactic(auto, unfolding(crate::specs::Extensions::path_length_p))]
fn path_length_at(file: &[u8], at: usize, flags: usize) -> Reading<usize>
    ensures { read result ≡ path_length_p flags file.now at }
{
    if has_flag(flags, Flags::PATH_LENGTH) {
        return byte_at(file, at);
    }
    Ok((0, at))
}

// A string of at least one byte where its flag is set; nothing is read where it is not.
#[tactic(auto, unfolding(crate::specs::Extensions::span_if_p))]
fn option_at(file: &[u8], at: usize, flags: usize, one: usize, most: usize) -> Reading<Span>
    ensures { read result ≡ span_if_p (flag one flags) most file.now at }
{
    if has_flag(flags, one) {
        let span = string_at(file, at, KeyIds::LEAST, most)?;
        return Ok((span, span.end));
    }
    Ok((Span::NOWHERE, at))
}

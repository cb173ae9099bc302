// A list of no more than so many certificates.
ghost use Rattle.std.specs.Prelude.{◌≡◌, ◌≤◌};
ghost use Rattle.fields.specs.Fields.{counted_p};
ghost use Rattle.fields.specs.Answers.{held, Emptied};
ghost use Rattle.record.specs.Record.{record_p};
ghost use Rattle.certificates.specs.Certificates.{fresh_certificates, filled_certificates, record_of, size_of};

use fields::{Fault, count_at};
use record::{Record, record_at};
use std::cmp::min;

// An array with a count, as the library has no heap. The count stands last, so that the records are copied whole and aligned.
#[derive(Clone, Copy)]
pub struct Certificates<const MOST: usize> {
    pub records: [Record; MOST],
    pub count: u8,
}

impl<const MOST: usize> Certificates<MOST> {
    // No certificates.
    pub fn new() -> Self
        ensures { result ≡ fresh_certificates MOST }
    {
        Certificates {
            records: [Record::new(); MOST],
            count: 0,
        }
    }

    // How many there are: the count, but no more than there is room for.
    #[tactic(auto, unfolding(crate::specs::Certificates::size_of))]
    pub fn size(self) -> u8
        ensures { result ≡ size_of MOST self.entry.count }
    {
        min(self.count as usize, MOST) as u8
    }

    // The record at a place; the one of nothing but zeros where there is no such place, and no Option: `record_of` says so, by which issuing
    // and policy speak.
    #[tactic(auto, unfolding(crate::specs::Certificates::record_of))]
    pub fn nth(&self, place: u8) -> Record
        ensures { result ≡ record_of self.now.count self.now.records place }
    {
        if self.count <= place || MOST <= place as usize {
            return Record::new();
        }
        self.records[place as usize]
    }
}

// Reads the certificates at a place into a list that is lent, so that no list is copied from answer to answer, and tells the place past
// them. With a fault the list is empty.
pub(crate) fn certificates_at<const MOST: usize>(
    file: &[u8],
    at: usize,
    least: usize,
    most: usize,
    list: &mut Certificates<MOST>,
) -> Result<usize, Fault>
    requires { most ≤ MOST }
    ensures list_value { held result list.new ≡ filled_certificates MOST (counted_p least most record_p file.now at) }
    ensures emptied { Emptied result list.new (fresh_certificates MOST) }
{
    let past = fill(file, at, least, most, list);
    if past.is_err() {
        *list = Certificates::new();
    }
    past
}

// The same, but that with a fault the list holds what was read before it.
#[tactic(auto, unfolding(fields::specs::Fields::counted_p))]
fn fill<const MOST: usize>(
    file: &[u8],
    at: usize,
    least: usize,
    most: usize,
    list: &mut Certificates<MOST>,
) -> Result<usize, Fault>
    requires { most ≤ MOST }
    ensures { held result list.new ≡ filled_certificates MOST (counted_p least most record_p file.now at) }
{
    let (count, first) = count_at(file, at, least, most)?;
    *list = Certificates::new();
    let mut next = first;
    for i in 0..count {
        (list.records[i], next) = record_at(file, next)?;
    }
    list.count = count as u8;
    Ok(next)
}

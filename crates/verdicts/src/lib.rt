// The verdicts of a card file: who signed whom, a row for each issuer and a column for each subject, by where the first stands.
// They are read where the bundle ends; what certificates stand at these places is left to the crates above.
#![tactic(auto)]

ghost use Rattle.std.specs.Prelude.{◌≡◌, ◌+◌, ◌*◌, ◌≤◌, length, take};
ghost use Rattle.fields.specs.Fields.{many};
ghost use Rattle.fields.specs.Answers.{read, passed, passing};
ghost use Rattle.verdicts.specs.Verdicts.{verdict_p};
ghost use Rattle.verdicts.specs.Grid.{grid_p, fresh-verdicts, signed_at, root_signed, bundle_signed};
ghost use Rattle.verdicts.specs.Parts.{any_above_yes};

use fields::{Fault, Reading, u16_at};
use places::{BundlePlace, RootPlace};

// Verdicts on so many roots and so large a bundle, from the first one on.
#[derive(Clone, Copy)]
pub struct Verdicts {
    pub roots: u8,
    pub bundle: u8,
    pub first: usize,
}

impl Verdicts {
    pub const YES: usize = 1;

    // No verdicts.
    pub fn new() -> Verdicts
        ensures { result ≡ fresh-verdicts }
    {
        Verdicts {
            roots: 0,
            bundle: 0,
            first: 0,
        }
    }

    // How many verdicts a file must have.
    #[tactic(auto, using(crate::proofs::Product::few))]
    pub fn asked(roots: u8, bundle: u8) -> usize
        ensures { result ≡ (roots + bundle) * bundle }
    {
        (roots as usize + bundle as usize) * (bundle as usize)
    }

    // A root signed a certificate of the bundle. False if either place doesn't exist. This and the next stay two, as the places of roots and
    // bundle are two kinds of number, and their rows begin elsewhere.
    #[tactic(auto, unfolding(crate::specs::Grid::root_signed))]
    pub fn root_signed(self, file: &[u8], issuer: RootPlace, subject: BundlePlace) -> bool
        ensures { result ≡ root_signed self file.now issuer.0 subject.0 }
    {
        issuer.0 < self.roots && signed_at(self, file, issuer.0 as usize, subject.0 as usize)
    }

    // A certificate of the bundle signed another, or itself. False if either place doesn't exist.
    #[tactic(auto, unfolding(crate::specs::Grid::bundle_signed))]
    pub fn bundle_signed(self, file: &[u8], issuer: BundlePlace, subject: BundlePlace) -> bool
        ensures { result ≡ bundle_signed self file.now issuer.0 subject.0 }
    {
        let row = self.roots as usize + issuer.0 as usize;
        issuer.0 < self.bundle && signed_at(self, file, row, subject.0 as usize)
    }
}

// A row's verdict in a column.
#[tactic(auto, using(crate::proofs::Product::few), unfolding(crate::specs::Grid::signed_at))]
fn signed_at(verdicts: Verdicts, file: &[u8], row: usize, column: usize) -> bool
    requires { row ≤ 510 }
    ensures { result ≡ signed_at verdicts file.now row column }
{
    let columns = verdicts.bundle as usize;
    let rows = file.get(verdicts.first..).unwrap_or(&[]);
    column < columns
        && rows
            .get(row * columns + column)
            .is_some_and(|verdict| *verdict as usize == Verdicts::YES)
}

// The verdicts on so many roots and so large a bundle.
#[tactic(auto, using(crate::proofs::Product::begins_within), unfolding(crate::specs::Grid::grid_p))]
pub fn verdicts_at(file: &[u8], at: usize, roots: u8, bundle: u8) -> Reading<Verdicts>
    ensures { read result ≡ grid_p roots bundle file.now at }
{
    let (count, first) = u16_at(file, at)?;
    let n = Verdicts::asked(roots, bundle);
    if count != n as u64 {
        return Err(Fault::BadCount);
    }
    let next = verdicts_past(file, first, n)?;
    let verdicts = Verdicts {
        roots,
        bundle,
        first,
    };
    Ok((verdicts, next))
}

// The place past n verdicts. Where the file ends too early, a bad value among those that are there is still the first fault.
fn verdicts_past(file: &[u8], first: usize, n: usize) -> Result<usize, Fault>
    requires { first ≤ length file.now }
    ensures { passed result ≡ passing (many verdict_p n file.now first) }
{
    let there = &file[first..];
    if any_above_yes(front(there, n)) {
        return Err(Fault::BadValue);
    }
    if there.len() < n {
        return Err(Fault::CutShort);
    }
    Ok(first + n)
}

// The first n bytes, or all of them where there are fewer.
fn front(bytes: &[u8], n: usize) -> &[u8]
    ensures { result.now ≡ take n bytes.now }
{
    bytes.get(..n).unwrap_or(bytes)
}

// Whether a byte is more than a yes. It does not stop at one, so that the compiler can judge many bytes at once.
fn any_above_yes(bytes: &[u8]) -> bool
    ensures { result ≡ any_above_yes bytes.now }
{
    bytes
        .iter()
        .fold(false, |bad, byte| bad | (Verdicts::YES < *byte as usize))
}

// Who issued whom, of records that were read: likely issued, and found signed. Filled once into rows of bits, each pair of places
// compared at most once; the search reads the rows.
#![tactic(auto)]

mod likely;
mod row;

ghost use Rattle.std.specs.Prelude.{◌≡◌};
ghost use Rattle.verdicts.specs.Grid.{bundle_signed, root_signed};
ghost use Rattle.issuing.specs.Records.{bundle_rows, root_rows, issuers_of, self_issued_at};

use card::{Bundle, BundlePlace, Card, RootPlace};
use likely::claim_of;
use record::Record;
use row::issuers_row;
use rows::either;
use same::same_names;

// Who issued whom: a row for each subject of the bundle. Two arrays, since each is promised by itself, and a search is lent each by itself.
#[derive(Clone, Copy)]
pub struct Issuing {
    pub bundle: [u64; BundlePlace::MOST],
    pub roots: [u64; BundlePlace::MOST],
}

// Who issued whom in a card, as rows. What a subject says of its issuer is read once for both of its rows.
pub fn who_issued(file: &[u8], card: Card) -> Issuing
    ensures bundle_value { result.bundle ≡ bundle_rows file.now card.bundle card.verdicts }
    ensures roots_value { result.roots ≡ root_rows file.now card.roots card.bundle card.verdicts }
{
    let verdicts = card.verdicts;
    let mut bundle = [0u64; BundlePlace::MOST];
    let mut roots = [0u64; BundlePlace::MOST];
    for j in 0..card.bundle.size() {
        let subject = BundlePlace(j);
        let claim = claim_of(file, card.bundle.record(subject));
        bundle[j as usize] = issuers_row(
            file,
            &card.bundle,
            subject,
            claim,
            |i, subject| -> bool
                ensures { result ≡ bundle_signed verdicts file.entry.now i subject.0 }
            { verdicts.bundle_signed(file, BundlePlace(i), subject) },
        );
        roots[j as usize] = issuers_row(
            file,
            &card.roots,
            subject,
            claim,
            |i, subject| -> bool
                ensures { result ≡ root_signed verdicts file.entry.now i subject.0 }
            { verdicts.root_signed(file, RootPlace(i), subject) },
        );
    }
    Issuing { bundle, roots }
}

// Those that issued any certificate: they stand in one of the rows.
pub fn issuers_of(rows: [u64; BundlePlace::MOST]) -> u64
    ensures { result ≡ issuers_of rows }
{
    let mut all: u64 = 0;
    for row in rows.iter() {
        all = either(all, *row);
    }
    all
}

// Whether a certificate is self-issued: its issuer name, which comes first, is the same as its subject name, normalised.
pub fn self_issued(file: &[u8], cert: Record) -> bool
    ensures { result ≡ self_issued_at file.now cert }
{
    let issuer = cert.issuer_name();
    let subject = cert.subject_name();
    same_names(file, issuer, subject, true)
}

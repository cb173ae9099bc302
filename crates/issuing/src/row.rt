// A row of bits for a certificate of the bundle, whose claim is at hand: which places issued it.
ghost use Rattle.std.specs.Prelude.{Bool, ◌&&◌, ◌≡◌, ℕ};
ghost use Rattle.certificates.specs.Certificates.{record_of, size_of};
ghost use Rattle.rows.specs.Rows.{row_of};
ghost use Rattle.issuing.specs.Records.{fits_at, Tells};

use crate::likely::{Claim, fits};
use card::BundlePlace;
use certificates::Certificates;
use rows::with;

// Which of the issuers issued the certificate at a place, by the verdicts on them. The verdict is looked up first: where it is no, nothing
// is compared.
pub(crate) fn issuers_row<const MOST: usize, F: Fn(u8, BundlePlace) -> bool>(
    file: &[u8],
    issuers: &Certificates<MOST>,
    subject: BundlePlace,
    claim: Claim,
    signed: F,
) -> u64
    requires { F.IsAlwaysCallable signed }
    ensures { (verdict : ℕ → Bool) → Tells verdict subject (F.post signed) → result ≡ row_of (λ i. verdict i && fits_at file.now (record_of issuers.now.count issuers.now.records i) claim) (size_of MOST issuers.now.count) }
{
    let mut row: u64 = 0;
    for i in 0..issuers.size() {
        if signed(i, subject) {
            if fits(file, issuers.nth(i), claim) {
                row = with(row, i);
            }
        }
    }
    row
}

// The bundle: its certificates, the leaf first.
ghost use Rattle.std.specs.Prelude.{◌≡◌};
ghost use Rattle.fields.specs.Answers.{held, Emptied};
ghost use Rattle.places.specs.Limits.{bundle_most};
ghost use Rattle.certificates.specs.Certificates.{fresh_certificates, bundle_p, record_of};

use crate::Certificates;
use crate::certificates::certificates_at;
use fields::Fault;
use places::BundlePlace;
use record::Record;

pub type Bundle = Certificates<{ BundlePlace::MOST }>;

impl Bundle {
    pub const LEAST: usize = 0;

    pub const MOST: usize = BundlePlace::MOST;

    // The record of a certificate; the one of nothing but zeros where there is no such place.
    pub fn record(self, place: BundlePlace) -> Record
        ensures { result ≡ record_of self.count self.records place.0 }
    {
        self.nth(place.0)
    }
}

// The bundle at a place, read into what is lent, and the place past; with a fault there are none.
#[tactic(auto, unfolding(crate::specs::Certificates::certificates_p))]
pub fn bundle_at(file: &[u8], at: usize, bundle: &mut Bundle) -> Result<usize, Fault>
    ensures bundle_value { held result bundle.new ≡ bundle_p file.now at }
    ensures emptied { Emptied result bundle.new (fresh_certificates bundle_most) }
{
    certificates_at(file, at, Bundle::LEAST, Bundle::MOST, bundle)
}

// The roots.
ghost use Rattle.std.specs.Prelude.{◌≡◌};
ghost use Rattle.fields.specs.Answers.{held, Emptied};
ghost use Rattle.places.specs.Limits.{roots_most};
ghost use Rattle.certificates.specs.Certificates.{fresh_certificates, roots_p, record_of};

use crate::Certificates;
use crate::certificates::certificates_at;
use fields::Fault;
use places::RootPlace;
use record::Record;

pub type Roots = Certificates<{ RootPlace::MOST }>;

impl Roots {
    pub const LEAST: usize = 0;

    pub const MOST: usize = RootPlace::MOST;

    // The record of a root; the one of nothing but zeros where there is no such root.
    pub fn record(self, place: RootPlace) -> Record
        ensures { result ≡ record_of self.count self.records place.0 }
    {
        self.nth(place.0)
    }
}

// The roots at a place, read into what is lent, and the place past; with a fault there are none.
#[tactic(auto, unfolding(crate::specs::Certificates::certificates_p))]
pub fn roots_at(file: &[u8], at: usize, roots: &mut Roots) -> Result<usize, Fault>
    ensures roots_value { held result roots.new ≡ roots_p file.now at }
    ensures emptied { Emptied result roots.new (fresh_certificates roots_most) }
{
    certificates_at(file, at, Roots::LEAST, Roots::MOST, roots)
}

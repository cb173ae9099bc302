// An RDN: a count, and so many attributes.
ghost use Rattle.std.specs.Prelude.{◌≡◌, List};
ghost use Rattle.fields.specs.Fields.{count_p};
ghost use Rattle.fields.specs.Answers.{begun};
ghost use Rattle.names.specs.Names.{Attr, rdn_p};

use crate::Attribute;
use fields::{Fault, Run, Thing, run_at};

#[derive(Clone, Copy)]
pub struct Rdn;

impl Rdn {
    pub const LEAST: usize = 1;

    pub const MOST: usize = 4;
}

impl Thing for Rdn {
    ghost Value = { List Attr };

    ghost thing_p = { rdn_p };

    #[tactic(auto, unfolding(crate::specs::Names::rdn_p, fields::specs::Fields::counted_p))]
    fn past(file: &[u8], at: usize) -> Result<usize, Fault> {
        rdn_begins(file, at)?.past::<Attribute>(file)
    }
}

// How many attributes the RDN at a place has, and where the first one stands.
pub fn rdn_begins(file: &[u8], at: usize) -> Result<Run, Fault>
    ensures { begun result ≡ count_p Rdn.LEAST Rdn.MOST file.now at }
{
    run_at(file, at, Rdn::LEAST, Rdn::MOST)
}

// A name: a count, and so many RDNs.
ghost use Rattle.std.specs.Prelude.{◌≡◌, List};
ghost use Rattle.fields.specs.Fields.{count_p};
ghost use Rattle.fields.specs.Answers.{begun};
ghost use Rattle.names.specs.Names.{Attr, name_p};

use crate::Rdn;
use fields::{Fault, Run, Thing, run_at};

#[derive(Clone, Copy)]
pub struct Name;

impl Name {
    pub const LEAST: usize = 0;

    pub const MOST: usize = 16;
}

impl Thing for Name {
    ghost Value = { List (List Attr) };

    ghost thing_p = { name_p };

    #[tactic(auto, unfolding(crate::specs::Names::name_p, fields::specs::Fields::counted_p))]
    fn past(file: &[u8], at: usize) -> Result<usize, Fault> {
        name_begins(file, at)?.past::<Rdn>(file)
    }
}

// How many RDNs the name at a place has, and where the first one stands.
pub fn name_begins(file: &[u8], at: usize) -> Result<Run, Fault>
    ensures { begun result ≡ count_p Name.LEAST Name.MOST file.now at }
{
    run_at(file, at, Name::LEAST, Name::MOST)
}

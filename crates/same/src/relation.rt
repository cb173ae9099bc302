// A relation of two things of a kind, so that one function judges and walks two arguments, and one loop two rows, for any relation.
ghost use Rattle.std.specs.Prelude.{◌≡◌, ℕ, Bool, List};
ghost use Rattle.fields.specs.Fields.{Parsed, whole};
ghost use Rattle.fields.specs.Answers.{passed, passing};
ghost use Rattle.names.specs.Names.{Attr, attr_p, rdn_p, name_p};
ghost use Rattle.same.specs.Same.{same_attr, same_rdn, same_dn};
ghost use Rattle.same.specs.Walks.{walk_at};

use crate::Pair;
use fields::{Fault, whole};
use names::{Attribute, Name, Rdn};

pub trait Relation {
    ghost Value: { Type 0 };

    ghost thing_p: { List ℕ → ℕ → Parsed Value };

    // By the flag that says whether values are compared in normal form.
    ghost related: { Bool → Value → Value → Bool };

    // The end of a thing that fills its bytes to the last.
    fn whole(s: &[u8]) -> Result<usize, Fault>
        ensures { passed result ≡ passing (whole thing_p s.now) };

    // Where the things at two places end, if they are related; nothing if they differ or can't be read.
    fn walk(pair: &Pair, at: usize, bt: usize) -> Option<(usize, usize)>
        ensures { result ≡ walk_at related thing_p pair.now at bt };
}

pub(crate) struct SameAttribute;

impl Relation for SameAttribute {
    ghost Value = { Attr };

    ghost thing_p = { attr_p };

    ghost related = { same_attr };

    fn whole(s: &[u8]) -> Result<usize, Fault> {
        whole::<Attribute>(s)
    }

    fn walk(pair: &Pair, at: usize, bt: usize) -> Option<(usize, usize)> {
        pair.attr_walk(at, bt)
    }
}

pub(crate) struct SameRdn;

impl Relation for SameRdn {
    ghost Value = { List Attr };

    ghost thing_p = { rdn_p };

    ghost related = { same_rdn };

    fn whole(s: &[u8]) -> Result<usize, Fault> {
        whole::<Rdn>(s)
    }

    // Inlined in the loop over two rows: called, it took some twenty instructions more for two RDNs of one attribute.
    #[inline]
    fn walk(pair: &Pair, at: usize, bt: usize) -> Option<(usize, usize)> {
        pair.rdn_walk(at, bt)
    }
}

pub(crate) struct SameName;

impl Relation for SameName {
    ghost Value = { List (List Attr) };

    ghost thing_p = { name_p };

    ghost related = { same_dn };

    fn whole(s: &[u8]) -> Result<usize, Fault> {
        whole::<Name>(s)
    }

    fn walk(pair: &Pair, at: usize, bt: usize) -> Option<(usize, usize)> {
        pair.dn_walk(at, bt)
    }
}

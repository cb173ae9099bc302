// The relations of two whole encoded arguments. The first argument is judged through, bytes left over included,
// before the second is looked at.
ghost use Rattle.std.specs.Prelude.{◌≡◌};
ghost use Rattle.fields.specs.Fields.{whole};
ghost use Rattle.names.specs.Names.{attr_p, rdn_p, name_p};
ghost use Rattle.same.specs.Matching.{rdn_has_name};
ghost use Rattle.same.specs.Answers.{said, asked};
ghost use Rattle.subtree.specs.Subtree.{is_subtree_rdn, is_subtree_of};

use crate::under::{SubtreeRdn, subtree};
use fields::{Fault, whole};
use names::{Attribute, Name, Rdn, rdn_begins};
use same::{Pair, ask};

// Whether some attribute of an RDN is the same as this one.
pub fn rdn_has_name(rdn: &[u8], name: &[u8], normalise: bool) -> Result<bool, Fault>
    ensures { said result ≡ asked (rdn_has_name normalise) (whole rdn_p rdn.now) (whole attr_p name.now) }
{
    whole::<Rdn>(rdn)?;
    whole::<Attribute>(name)?;
    let attributes = rdn_begins(rdn, 0)?;
    Ok(Pair::of(name, rdn, normalise).has_name(attributes, 0))
}

// No more attributes, and the second RDN has each of the first's.
pub fn is_subtree_rdn(a: &[u8], b: &[u8], normalise: bool) -> Result<bool, Fault>
    ensures { said result ≡ asked (is_subtree_rdn normalise) (whole rdn_p a.now) (whole rdn_p b.now) }
{
    ask::<SubtreeRdn>(a, b, normalise)
}

// No more RDNs, each a subtree of the one at its place. Not by `ask`: the walk ends before the second name does, which may have more RDNs.
pub fn is_subtree_of(a: &[u8], b: &[u8], normalise: bool) -> Result<bool, Fault>
    ensures { said result ≡ asked (is_subtree_of normalise) (whole name_p a.now) (whole name_p b.now) }
{
    whole::<Name>(a)?;
    whole::<Name>(b)?;
    Ok(subtree(Pair::of(a, b, normalise)))
}

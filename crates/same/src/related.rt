// The relations of two whole encoded arguments. The first argument is judged through, bytes left over included,
// before the second is looked at.
ghost use Rattle.std.specs.Prelude.{◌≡◌};
ghost use Rattle.fields.specs.Fields.{whole};
ghost use Rattle.names.specs.Names.{attr_p, rdn_p, name_p};
ghost use Rattle.same.specs.Same.{same_attr, same_rdn, same_dn};
ghost use Rattle.same.specs.Answers.{said, asked};

use crate::relation::{SameAttribute, SameName, SameRdn};
use crate::{Pair, Relation};
use fields::Fault;

// A relation's answer as a number: 0 is no, 1 is yes, else the fault's number. No `From`, since neither type is of this crate.
pub fn number(related: Result<bool, Fault>) -> u8
    ensures { result ≡ said related }
{
    match related {
        Ok(yes) => yes as u8,
        Err(fault) => u8::from(fault),
    }
}

// Whether two arguments are related: both are judged through, and then walked side by side from their starts.
pub fn ask<R: Relation>(a: &[u8], b: &[u8], normalise: bool) -> Result<bool, Fault>
    ensures { said result ≡ asked (R.related normalise) (whole R.thing_p a.now) (whole R.thing_p b.now) }
{
    R::whole(a)?;
    R::whole(b)?;
    Ok(R::walk(&Pair::of(a, b, normalise), 0, 0).is_some())
}

// Equal OID, and equal value, normalised when the flag says so.
pub fn same_attr(a: &[u8], b: &[u8], normalise: bool) -> Result<bool, Fault>
    ensures { said result ≡ asked (same_attr normalise) (whole attr_p a.now) (whole attr_p b.now) }
{
    ask::<SameAttribute>(a, b, normalise)
}

// As many attributes, and each of the first RDN has a match in the second. Which is first can decide: (a, a) is the same as (a, b), and
// (a, b) is not the same as (a, a).
pub fn same_rdn(a: &[u8], b: &[u8], normalise: bool) -> Result<bool, Fault>
    ensures { said result ≡ asked (same_rdn normalise) (whole rdn_p a.now) (whole rdn_p b.now) }
{
    ask::<SameRdn>(a, b, normalise)
}

// As many RDNs, each of the first name the same as the one at its place in the second, in that direction.
pub fn same_dn(a: &[u8], b: &[u8], normalise: bool) -> Result<bool, Fault>
    ensures { said result ≡ asked (same_dn normalise) (whole name_p a.now) (whole name_p b.now) }
{
    ask::<SameName>(a, b, normalise)
}

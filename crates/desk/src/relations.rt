// The relations of two encoded attributes, RDNs or names for C: 0 is no, 1 is yes, else the number of the first bad argument's fault.
ghost use Rattle.std.specs.Prelude.{◌≡◌};
ghost use Rattle.fields.specs.Fields.{whole};
ghost use Rattle.names.specs.Names.{attr_p, rdn_p, name_p};
ghost use Rattle.same.specs.Same.{same_attr, same_rdn, same_dn};
ghost use Rattle.same.specs.Matching.{rdn_has_name};
ghost use Rattle.same.specs.Answers.{asked};
ghost use Rattle.subtree.specs.Subtree.{is_subtree_rdn, is_subtree_of};
ghost use Rattle.desk.specs.Leaves.{flagged};

use same::number;

// Equal OID, and equal value, normalised when the flag says so.
#[unsafe(no_mangle)]
pub extern "C" fn savuneco_same_attr(a: &[u8], b: &[u8], normalise: u8) -> u8
    ensures { result ≡ asked (same_attr (flagged normalise)) (whole attr_p a.now) (whole attr_p b.now) }
{
    number(same::same_attr(a, b, normalise != 0))
}

// As many attributes, and each of the first RDN has a match in the second. Which is first can decide: (a, a) is the same as (a, b), and
// (a, b) is not the same as (a, a).
#[unsafe(no_mangle)]
pub extern "C" fn savuneco_same_rdn(a: &[u8], b: &[u8], normalise: u8) -> u8
    ensures { result ≡ asked (same_rdn (flagged normalise)) (whole rdn_p a.now) (whole rdn_p b.now) }
{
    number(same::same_rdn(a, b, normalise != 0))
}

// As many RDNs, each of the first name the same as the one at its place in the second, in that direction.
#[unsafe(no_mangle)]
pub extern "C" fn savuneco_same_dn(a: &[u8], b: &[u8], normalise: u8) -> u8
    ensures { result ≡ asked (same_dn (flagged normalise)) (whole name_p a.now) (whole name_p b.now) }
{
    number(same::same_dn(a, b, normalise != 0))
}

// Whether some attribute of an RDN, the first argument, is the same as the second.
#[unsafe(no_mangle)]
pub extern "C" fn savuneco_rdn_has_name(a: &[u8], b: &[u8], normalise: u8) -> u8
    ensures { result ≡ asked (rdn_has_name (flagged normalise)) (whole rdn_p a.now) (whole attr_p b.now) }
{
    number(subtree::rdn_has_name(a, b, normalise != 0))
}

// No more attributes, and the second RDN has each of the first's.
#[unsafe(no_mangle)]
pub extern "C" fn savuneco_is_subtree_rdn(a: &[u8], b: &[u8], normalise: u8) -> u8
    ensures { result ≡ asked (is_subtree_rdn (flagged normalise)) (whole rdn_p a.now) (whole rdn_p b.now) }
{
    number(subtree::is_subtree_rdn(a, b, normalise != 0))
}

// No more RDNs, each a subtree of the one at its place.
#[unsafe(no_mangle)]
pub extern "C" fn savuneco_is_subtree_of(a: &[u8], b: &[u8], normalise: u8) -> u8
    ensures { result ≡ asked (is_subtree_of (flagged normalise)) (whole name_p a.now) (whole name_p b.now) }
{
    number(subtree::is_subtree_of(a, b, normalise != 0))
}

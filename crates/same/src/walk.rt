// Two attributes, RDNs or names walked side by side: where both end if they are related, nothing if they differ or can't be read.
ghost use Rattle.std.specs.Prelude.{◌≡◌, List};
ghost use Rattle.fields.specs.Fields.{many};
ghost use Rattle.names.specs.Names.{Attr, attr_p, rdn_p, name_p};
ghost use Rattle.names.specs.Answers.{attr_of};
ghost use Rattle.same.specs.Same.{places, same_attr, same_rdn, same_dn};
ghost use Rattle.same.specs.Answers.{same_names};
ghost use Rattle.same.specs.Walks.{walk, walk_at};

use crate::relation::SameRdn;
use crate::values::same_normal;
use crate::{Pair, Relation};
use fields::{Span, part};
use names::{Attribute, attribute_at, name_begins, rdn_begins};
use text::equal;

// Whether the name at a span of a file is the same as the one at another, in that direction: the same bytes are, and where they differ both
// are walked once. It takes the file once and no `Pair`, which issuing would make for each question.
pub fn same_names(file: &[u8], a: Span, b: Span, normalise: bool) -> bool
    ensures { result ≡ same_names normalise a b file.now }
{
    if equal(part(file, a), part(file, b)) {
        return true;
    }
    Pair::of(file, file, normalise)
        .dn_walk(a.start, b.start)
        .is_some()
}

// n RDNs from each of two places of a pair's texts on, each of the first related to the one at its place in the second.
pub fn rdns_walk<R: Relation>(pair: &Pair, n: usize, at: usize, bt: usize) -> Option<(usize, usize)>
    ensures { result ≡ walk (places (R.related pair.now.normalise))
        (many R.thing_p n pair.now.left.now at)
        (many R.thing_p n pair.now.right.now bt) }
{
    let mut ends = (at, bt);
    for _ in 0..n {
        ends = R::walk(pair, ends.0, ends.1)?;
    }
    Some(ends)
}

impl Pair<'_> {
    // The names at two places: as many RDNs, each of the first the same as the one at its place in the second.
    pub(crate) fn dn_walk(self, at: usize, bt: usize) -> Option<(usize, usize)>
        ensures { result ≡ walk_at same_dn name_p self.entry at bt }
    {
        let left = name_begins(self.left, at).ok()?;
        let right = name_begins(self.right, bt).ok()?;
        if left.count != right.count {
            return None;
        }
        rdns_walk::<SameRdn>(&self, left.count, left.first, right.first)
    }

    // The RDNs at two places: as many attributes, and each of the first has a match in the second. Most have one, which needs no search.
    #[tactic(auto, using(crate::proofs::Single::one_walked))]
    pub(crate) fn rdn_walk(self, at: usize, bt: usize) -> Option<(usize, usize)>
        ensures { result ≡ walk_at same_rdn rdn_p self.entry at bt }
    {
        let a = rdn_begins(self.left, at).ok()?;
        let b = rdn_begins(self.right, bt).ok()?;
        if a.count != b.count {
            return None;
        }
        if a.count == 1 {
            return self.attr_walk(a.first, b.first);
        }
        self.matched_walk(at, bt)
    }

    // The attributes at two places.
    pub(crate) fn attr_walk(self, at: usize, bt: usize) -> Option<(usize, usize)>
        ensures { result ≡ walk_at same_attr attr_p self.entry at bt }
    {
        let a = attribute_at(self.left, at).ok()?;
        let b = attribute_at(self.right, bt).ok()?;
        if self.same_attribute(a, b) {
            return Some((a.value.end, b.value.end));
        }
        None
    }

    // Whether two attributes that were read are the same. Equal values need no walk, since their normal forms are equal too. Always
    // inlined: with a hint alone it was called, a twelfth of the instructions of two names that are respelt.
    #[inline(always)]
    pub(crate) fn same_attribute(self, a: Attribute, b: Attribute) -> bool
        ensures { result ≡ same_attr self.entry.normalise (attr_of a self.entry.left.now) (attr_of b self.entry.right.now) }
    {
        if !equal(part(self.left, a.oid), part(self.right, b.oid)) {
            return false;
        }
        let x = part(self.left, a.value);
        let y = part(self.right, b.value);
        equal(x, y) || self.normalise && same_normal(x, y)
    }
}

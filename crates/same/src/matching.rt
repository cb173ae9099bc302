// Whether an RDN has an attribute, or a match for each attribute of another RDN.
ghost use Rattle.std.specs.Prelude.{◌≡◌, ℕ, List};
ghost use Rattle.fields.specs.Fields.{got, after, many};
ghost use Rattle.fields.specs.Answers.{read};
ghost use Rattle.names.specs.Names.{Attr, attr_p, rdn_p};
ghost use Rattle.names.specs.Answers.{attr_of};
ghost use Rattle.same.specs.Matching.{matched, rdn_has_name, same_attr};
ghost use Rattle.same.specs.Rows.{standing, has_read};
ghost use Rattle.same.specs.Walks.{walk, walk_at};

use crate::Pair;
use fields::{Reading, Run, Test};
use names::{Attribute, attribute_at, rdn_begins};

impl Pair<'_> {
    // Where two RDNs end, if each attribute of the first has a match in the second. Which is first can decide.
    pub fn matched_walk(self, at: usize, bt: usize) -> Option<(usize, usize)>
        ensures { result ≡ walk_at matched rdn_p self.entry at bt }
    {
        let a = rdn_begins(self.left, at).ok()?;
        let b = rdn_begins(self.right, bt).ok()?;
        let right = b.past::<Attribute>(self.right).ok()?;
        self.matches_walk(a, b, right)
    }

    // Where the RDN a on the left ends, beside the end of the RDN b on the right, if each attribute of a has a match in b. No `rdns_walk`: one
    // row is walked and the other searched.
    fn matches_walk(self, a: Run, b: Run, right: usize) -> Option<(usize, usize)>
        ensures { result ≡ walk (matched self.entry.normalise)
            (many attr_p a.count self.entry.left.now a.first)
            (got (standing attr_p b.count self.entry.right.now b.first) right) }
    {
        let mut at = a.first;
        for _ in 0..a.count {
            let name = attribute_at(self.left, at).ok()?;
            if !self.has_attribute(b, name) {
                return None;
            }
            at = name.value.end;
        }
        Some((at, right))
    }

    // Whether some attribute of an RDN on the right is the same as the one at a place on the left.
    pub fn has_name(self, rdn: Run, at: usize) -> bool
        ensures { result ≡ has_read self.entry.normalise
            (standing attr_p rdn.count self.entry.right.now rdn.first)
            (attr_p self.entry.left.now at) }
    {
        let Ok(name) = attribute_at(self.left, at) else {
            return false;
        };
        self.has_attribute(rdn, name)
    }

    // Whether some attribute of an RDN on the right is the same as one that was read on the left.
    pub fn has_attribute(self, rdn: Run, name: Attribute) -> bool
        ensures { result ≡ rdn_has_name self.entry.normalise
            (standing attr_p rdn.count self.entry.right.now rdn.first)
            (attr_of name self.entry.left.now) }
    {
        rdn.any(self.right, &SameAs { pair: self, name })
    }

    // Whether the attribute at a place on the right is the same as one that was read on the left, and the place past it.
    fn same_at(self, name: Attribute, at: usize) -> Reading<bool>
        ensures { read result ≡ after (attr_p self.entry.right.now at) (λ a e.
            got (same_attr self.entry.normalise a (attr_of name self.entry.left.now)) e) }
    {
        let attribute = attribute_at(self.right, at)?;
        Ok((self.same_attribute(name, attribute), attribute.value.end))
    }
}

// The test whether an attribute is the same as one that was read on the left of a pair.
#[derive(Clone, Copy)]
struct SameAs<'a> {
    pair: Pair<'a>,
    name: Attribute,
}

impl Test for SameAs<'_> {
    ghost Value = { Attr };

    ghost thing_p = { attr_p };

    ghost passes = { λ test a. same_attr test.pair.normalise a (attr_of test.name test.pair.left.now) };

    fn ask(&self, file: &[u8], at: usize) -> Reading<bool> {
        let pair = Pair::of(self.pair.left, file, self.pair.normalise);
        pair.same_at(self.name, at)
    }
}

// Whether an RDN or a name lies under another.
ghost use Rattle.std.specs.Prelude.{◌≡◌, List};
ghost use Rattle.names.specs.Names.{Attr, rdn_p, name_p};
ghost use Rattle.same.specs.Answers.{both_read};
ghost use Rattle.same.specs.Walks.{walk_at};
ghost use Rattle.same.specs.Rows.{Fine};
ghost use Rattle.subtree.specs.Subtree.{is_subtree_rdn, is_subtree_of};

use fields::{Fault, whole};
use names::{Rdn, name_begins, rdn_begins};
use same::{Pair, Relation, rdns_walk};

// The relation of an RDN and one that it lies under.
pub(crate) struct SubtreeRdn;

impl Relation for SubtreeRdn {
    ghost Value = { List Attr };

    ghost thing_p = { rdn_p };

    ghost related = { is_subtree_rdn };

    fn whole(s: &[u8]) -> Result<usize, Fault> {
        whole::<Rdn>(s)
    }

    fn walk(pair: &Pair, at: usize, bt: usize) -> Option<(usize, usize)> {
        subtree_rdn_walk(*pair, at, bt)
    }
}

// Where two RDNs end, if the first is a subtree of the second. Not `rdn_walk` of same, which asks for as many and walks one attribute alone.
fn subtree_rdn_walk(pair: Pair, at: usize, bt: usize) -> Option<(usize, usize)>
    ensures { result ≡ walk_at is_subtree_rdn rdn_p pair.entry at bt }
{
    let a = rdn_begins(pair.left, at).ok()?;
    let b = rdn_begins(pair.right, bt).ok()?;
    if b.count < a.count {
        return None;
    }
    pair.matched_walk(at, bt)
}

// Whether the name on the left is a subtree of the one on the right; both were read through.
pub(crate) fn subtree(names: Pair) -> bool
    requires { Fine (name_p names.left.now 0) × Fine (name_p names.right.now 0) }
    ensures { result ≡ both_read (is_subtree_of names.entry.normalise) (name_p names.entry.left.now 0) (name_p names.entry.right.now 0) }
{
    let Ok(low) = name_begins(names.left, 0) else {
        return false;
    };
    let Ok(high) = name_begins(names.right, 0) else {
        return false;
    };
    if high.count < low.count {
        return false;
    }
    rdns_walk::<SubtreeRdn>(&names, low.count, low.first, high.first).is_some()
}

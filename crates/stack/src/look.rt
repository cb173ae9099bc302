// A path looked at: the first root that it reaches, and the places by which it goes on.
ghost use Rattle.std.specs.Prelude.{◌≡◌, ◌≤◌};
ghost use Rattle.order.specs.Paths.{Simple};
ghost use Rattle.order.specs.Walk.{kids};
ghost use Rattle.places.specs.Limits.{bundle_most};
ghost use Rattle.reply.specs.Answer.{path_shown};
ghost use Rattle.stack.specs.Looks.{places_on, reach_on, Looked, FirstRoot};
ghost use Rattle.stack.specs.Stacked.{places_in, children};

use places::RootPlace;
use policy::{Ground, Seats, Standing, added, begun, over};
use reply::Path;
use rows::{below, lowest, shared, with, without};

#[derive(Clone, Copy)]
pub(crate) struct Found {
    pub(crate) root: Option<RootPlace>,
    pub(crate) next: u64,
}

// Looks at a path among n certificates.
pub(crate) fn look(ground: Ground<'_>, n: u8, path: Path) -> Found
    requires few { n ≤ bundle_most }
    requires shown { path ≡ path_shown (places_in path) }
    requires simple { Simple (places_on ground n) (places_in path) }
    ensures root { FirstRoot (reach_on ground.entry) (places_in path) result.root }
    ensures next { children result.next (places_in path) ≡ kids (places_on ground.entry n) (places_in path) }
{
    let seen = look_through(path, n, ground.seats);
    let last = seen.last as usize;
    let tops = shared(over(ground.seats, seen.standing), ground.roots[last]);
    let next = shared(seen.free, ground.rows[last]);
    let root = (tops != 0).then_some(RootPlace(lowest(tops)));
    Found { root, next }
}

// The last place of a path, the places that it leaves free, and how it stands.
#[derive(Clone, Copy)]
struct Seen {
    last: u8,
    free: u64,
    standing: Standing,
}

// Looks through a path's places, the leaf first.
fn look_through(path: Path, n: u8, seats: &[u64; Seats::ROWS]) -> Seen
    requires few { n ≤ bundle_most }
    requires shown { path ≡ path_shown (places_in path) }
    ensures { Looked n seats.now (places_in path) result.last result.free result.standing }
{
    let mut last: u8 = 0;
    let mut free = below(n);
    let mut standing = begun();
    for place in &path.places[..path.length as usize] {
        last = place.0;
        free = without(free, with(0, last));
        standing = added(seats, standing, last);
    }
    Seen {
        last,
        free,
        standing,
    }
}

// A path's children: the paths that are longer than it by one place.
ghost use Rattle.std.specs.Prelude.{[], ◌≡◌, ◌≢◌, ◌+◌, ◌≤◌, ◌<◌, length};
ghost use Rattle.order.specs.Walk.{snoc};
ghost use Rattle.places.specs.Limits.{bundle_most};
ghost use Rattle.reply.specs.Answer.{path_shown};
ghost use Rattle.stack.specs.Stacked.{places_in, children, laid};

use crate::records::push;
use places::BundlePlace;
use reply::Path;
use rows::each;

// A path and then place i. That a path shows places is asked here and below, and is no invariant of `Path`: C lends records of any bytes.
pub(crate) fn child(path: Path, i: u8) -> Path
    requires shown { path ≡ path_shown (places_in path) }
    requires short { length (places_in path) < bundle_most }
    ensures { result ≡ path_shown (snoc (places_in path) i) }
{
    let mut longer = path;
    longer.places[path.length as usize] = BundlePlace(i);
    longer.length = path.length + 1;
    longer
}

// Puts a path's children by the places of a row in the records from `at` on, and returns the place after them.
pub(crate) fn spread(records: &mut [Path], at: usize, path: Path, row: u64) -> usize
    requires shown { path ≡ path_shown (places_in path) }
    requires short { children row (places_in path) ≢ [] → length (places_in path) < bundle_most }
    requires room { at + length (children row (places_in path)) ≤ length records.old }
    ensures top { result ≡ at + length (children row (places_in path)) }
    ensures laid { records.new ≡ laid at (children row (places_in path)) records.old }
{
    let mut top = at;
    for i in each(row) {
        push(records, top, child(path, i));
        top += 1;
    }
    top
}

// A path judged in a whole card file: the card is read, its facts are judged once, and the path's standing goes on place by place.
use card::{BundlePlace, read};
use fields::Fault;
use policy::{Judged, added, begun, judge, over, seats_of};
use rows::{Row, lowest, shared};
use rules::Time;

// lowest_root|PATH|CARD: the lowest root by which a path qualifies, where there is one.
pub(crate) fn lowest_root(path: &[u8], file: &[u8]) -> Result<Option<u8>, Fault> {
    let card = read(file)?;
    let judged = judge(file, Time::at(card.task.now), card);
    Ok(top_of(path, judged))
}

// An empty path has no root, nor has one with a byte that is no place.
fn top_of(path: &[u8], judged: Judged) -> Option<u8> {
    let last = path.last()?;
    let issuers = judged.issuing.roots.get(usize::from(*last))?;
    let rows = seats_of(judged, BundlePlace::MOST as u8).rows;
    let standing = path
        .iter()
        .fold(begun(), |standing, place| added(&rows, standing, *place));
    let root = lowest(shared(over(&rows, standing), *issuers));
    (root < Row::PLACES).then_some(root)
}

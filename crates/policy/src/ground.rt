// What a search goes by.
use crate::Seats;
use card::BundlePlace;

// Who issued whom, a row for each subject: among the bundle's certificates, and among the roots; and who may stand where.
#[derive(Clone, Copy)]
pub struct Ground<'a> {
    pub rows: &'a [u64; BundlePlace::MOST],
    pub roots: &'a [u64; BundlePlace::MOST],
    pub seats: &'a [u64; Seats::ROWS],
}

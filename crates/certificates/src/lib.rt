// The certificates of a card file: its two lists, roots and bundle, a count and so many records each. A list that was read is records,
// which are numbers and places in the file. The two are one type at two limits; each has its own reader and its own `record`, so that
// none is taken for the other. The other sections are left to the crates above.
#![tactic(auto)]

mod bundle;
mod certificates;
mod roots;

pub use bundle::{Bundle, bundle_at};
pub use certificates::Certificates;
pub use roots::{Roots, roots_at};

// When two attributes, RDNs or names are the same. The first of two is asked for its matches in the second, which can decide.
// The relations take whole encoded arguments and answer yes or no, or the fault of the first bad argument.
// Two names of one file are compared where they stand, by `same_names`; the walks of a `Pair` look an RDN through for the attributes
// of another. What lies under what is left to the crate above.
#![tactic(auto)]

mod matching;
mod pair;
mod related;
mod relation;
mod values;
mod walk;

pub use pair::Pair;
pub use related::{ask, number, same_attr, same_dn, same_rdn};
pub use relation::Relation;
pub use walk::{rdns_walk, same_names};

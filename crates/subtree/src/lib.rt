// Whether an RDN has an attribute, and whether an RDN or a name lies under another, as name constraints ask.
// The relations take whole encoded arguments and answer yes, no, or the fault of the first bad argument.
#![tactic(auto)]

mod related;
mod under;

pub use related::{is_subtree_of, is_subtree_rdn, rdn_has_name};

// What is asked of one certificate, a function for each of the policy's seven rules. Over records as they are, whether a reader made
// them or not. Head and record are no struct: four rules ask the head alone, which is read once for all. Which rules a certificate is asked, by where it stands in a chain, is left to others.
#![tactic(auto)]

mod leaf;
mod rules;

pub use leaf::{for_host, for_servers};
pub use rules::{Time, authority, handled, in_date, limit, well_formed};

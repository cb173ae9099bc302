// The lists of a certificate's record, usages and DNS names: how many there are and where the first stands, and the usage or DNS name
// at a place. What a record has beside its lists is left to the crates above.
#![tactic(auto)]

mod dns_names;
mod usages;

pub use dns_names::{DnsName, dns_name_at, dns_names_at};
pub use usages::{Usage, usage_at, usages_at};

// Key identifiers and address ranges: whether an issuer is the one that a subject names, and whether an address lies in a range.
#![tactic(auto)]

mod address;
mod auth_key_id;

pub use address::ip_addr_in_range;
pub use auth_key_id::check_auth_key_id;

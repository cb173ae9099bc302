// Text on bytes: a byte lowered, equality, a string's normal form, and a host name under a pattern.
// Nothing here folds more than A to Z, and only the byte 32 is a space.
#![tactic(auto)]

mod bytes;
mod normal;
mod wildcard;

pub use bytes::{equal, lower};
pub use normal::normalize_string;
pub use wildcard::{match_lowered, match_name};

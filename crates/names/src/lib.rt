// Names as a card file encodes them: attributes, RDNs and names, and their readers.
// When two of them are the same, and which names a certificate has, is left to the crates above.
#![tactic(auto)]

mod attribute;
mod name;
mod rdn;

pub use attribute::{Attribute, attribute_at};
pub use name::{Name, name_begins};
pub use rdn::{Rdn, rdn_begins};

// The published face: the questions that a terminal asks, each as a Rattle function under its own name and as `savuneco_..` for C, which
// desk_c exports. The crates below answer them; here their answers become plain numbers, and C's flags yes or no. What a file asks is told
// in plain numbers alone (`savuneco_task`).
#![tactic(auto)]

mod addresses;
mod identity;
mod plain;
mod relations;
mod searching;
mod tasks;
mod texts;

pub use addresses::savuneco_ip_addr_in_range;
pub use fields::Fault;
pub use identity::savuneco_check_auth_key_id;
pub use keys::{check_auth_key_id, ip_addr_in_range};
pub use order::slots;
pub use places::{BundlePlace, RootPlace};
pub use plain::Plain;
pub use relations::{
    savuneco_is_subtree_of, savuneco_is_subtree_rdn, savuneco_rdn_has_name, savuneco_same_attr,
    savuneco_same_dn, savuneco_same_rdn,
};
pub use reply::{Answer, Path, Reply};
pub use same::{number, same_attr, same_dn, same_rdn};
pub use search::{paused, search};
pub use searching::{
    savuneco_paused, savuneco_paused_records, savuneco_search, savuneco_search_records,
    savuneco_slots,
};
pub use stack::{paused_records, search_records};
pub use subtree::{is_subtree_of, is_subtree_rdn, rdn_has_name};
pub use tasks::{Asked, savuneco_task};
pub use text::{match_name, normalize_string};
pub use texts::{Form, savuneco_match_name, savuneco_normalize};

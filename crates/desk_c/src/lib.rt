// The face for C: each `savuneco_..` of the crate desk, exported under its own name by C's calling convention. Each export calls desk's
// function of that name, and promises what that one promises. include/savuneco.h declares them.
#![tactic(auto)]

ghost use Rattle.std.specs.Prelude.{◌≡◌, length};
ghost use Rattle.card.specs.Content.{content_p};
ghost use Rattle.desk.specs.Asked.{asked_by};
ghost use Rattle.desk.specs.Leaves.{flagged, formed, given, yes_no};
ghost use Rattle.desk.specs.Plain.{Says};
ghost use Rattle.fields.specs.Fields.{whole};
ghost use Rattle.keys.specs.Address.{ip_addr_in_range};
ghost use Rattle.keys.specs.AuthKeyId.{check_auth_key_id};
ghost use Rattle.names.specs.Names.{attr_p, rdn_p, name_p};
ghost use Rattle.order.specs.Slots.{slots_of};
ghost use Rattle.reply.specs.Records.{bytes_of};
ghost use Rattle.same.specs.Answers.{asked};
ghost use Rattle.same.specs.Matching.{rdn_has_name};
ghost use Rattle.same.specs.Same.{same_attr, same_rdn, same_dn};
ghost use Rattle.search.specs.Search.{Search, Pause};
ghost use Rattle.subtree.specs.Subtree.{is_subtree_rdn, is_subtree_of};
ghost use Rattle.text.specs.Normalize.{normalized, written};
ghost use Rattle.text.specs.Wildcard.{match_name};

use desk::{Asked, Form, Path, Plain};

// Searches with the file's own budget, and leaves zeros in the needed slots.
#[unsafe(no_mangle)]
pub extern "C" fn savuneco_search(file: &[u8], room: &mut [u8]) -> Plain
    ensures { Says (Search (content_p file.now) room.old room.new) result }
{
    desk::savuneco_search(file, room)
}

// Searches with budget k, and leaves the paths that wait then in the needed slots.
#[unsafe(no_mangle)]
pub extern "C" fn savuneco_paused(file: &[u8], k: u64, room: &mut [u8]) -> Plain
    ensures { Says (Pause (content_p file.now) k room.old room.new) result }
{
    desk::savuneco_paused(file, k, room)
}

// The search in records, with the file's own budget: it leaves zeros in the needed records.
#[unsafe(no_mangle)]
pub extern "C" fn savuneco_search_records(file: &[u8], records: &mut [Path]) -> Plain
    ensures { Says (Search (content_p file.now) (bytes_of records.old) (bytes_of records.new)) result }
{
    desk::savuneco_search_records(file, records)
}

// The paused run in records, with budget k: it leaves the paths that wait then in the needed records.
#[unsafe(no_mangle)]
pub extern "C" fn savuneco_paused_records(file: &[u8], k: u64, records: &mut [Path]) -> Plain
    ensures { Says (Pause (content_p file.now) k (bytes_of records.old) (bytes_of records.new)) result }
{
    desk::savuneco_paused_records(file, k, records)
}

// The slots that n certificates need; 0 past the table's end.
#[unsafe(no_mangle)]
pub extern "C" fn savuneco_slots(n: u8) -> u8
    ensures { result ≡ slots_of n }
{
    desk::savuneco_slots(n)
}

// Reads the file, and searches nothing.
#[unsafe(no_mangle)]
pub extern "C" fn savuneco_task(file: &[u8]) -> Asked
    ensures { result ≡ asked_by (length file.now) (content_p file.now) }
{
    desk::savuneco_task(file)
}

// Writes the normal form of s to the start of out; without room for s itself nothing is written.
#[unsafe(no_mangle)]
pub extern "C" fn savuneco_normalize(s: &[u8], out: &mut [u8]) -> Form
    ensures answer { result ≡ formed (normalized s.now out.old) }
    ensures room { out.new ≡ written s.now out.old }
{
    desk::savuneco_normalize(s, out)
}

// Whether a name fits a pattern.
#[unsafe(no_mangle)]
pub extern "C" fn savuneco_match_name(pattern: &[u8], name: &[u8]) -> u8
    ensures { result ≡ yes_no (match_name pattern.now name.now) }
{
    desk::savuneco_match_name(pattern, name)
}

// Whether an address lies in a range of its own kind.
#[unsafe(no_mangle)]
pub extern "C" fn savuneco_ip_addr_in_range(range: &[u8], addr: &[u8]) -> u8
    ensures { result ≡ yes_no (ip_addr_in_range range.now addr.now) }
{
    desk::savuneco_ip_addr_in_range(range, addr)
}

// Equal OID, and equal value, normalised when the flag says so.
#[unsafe(no_mangle)]
pub extern "C" fn savuneco_same_attr(a: &[u8], b: &[u8], normalise: u8) -> u8
    ensures { result ≡ asked (same_attr (flagged normalise)) (whole attr_p a.now) (whole attr_p b.now) }
{
    desk::savuneco_same_attr(a, b, normalise)
}

// As many attributes, and each of the first RDN has a match in the second.
#[unsafe(no_mangle)]
pub extern "C" fn savuneco_same_rdn(a: &[u8], b: &[u8], normalise: u8) -> u8
    ensures { result ≡ asked (same_rdn (flagged normalise)) (whole rdn_p a.now) (whole rdn_p b.now) }
{
    desk::savuneco_same_rdn(a, b, normalise)
}

// As many RDNs, each of the first name the same as the one at its place in the second, in that direction.
#[unsafe(no_mangle)]
pub extern "C" fn savuneco_same_dn(a: &[u8], b: &[u8], normalise: u8) -> u8
    ensures { result ≡ asked (same_dn (flagged normalise)) (whole name_p a.now) (whole name_p b.now) }
{
    desk::savuneco_same_dn(a, b, normalise)
}

// Whether some attribute of an RDN, the first argument, is the same as the second.
#[unsafe(no_mangle)]
pub extern "C" fn savuneco_rdn_has_name(a: &[u8], b: &[u8], normalise: u8) -> u8
    ensures { result ≡ asked (rdn_has_name (flagged normalise)) (whole rdn_p a.now) (whole attr_p b.now) }
{
    desk::savuneco_rdn_has_name(a, b, normalise)
}

// No more attributes, and the second RDN has each of the first's.
#[unsafe(no_mangle)]
pub extern "C" fn savuneco_is_subtree_rdn(a: &[u8], b: &[u8], normalise: u8) -> u8
    ensures { result ≡ asked (is_subtree_rdn (flagged normalise)) (whole rdn_p a.now) (whole rdn_p b.now) }
{
    desk::savuneco_is_subtree_rdn(a, b, normalise)
}

// No more RDNs, each a subtree of the one at its place.
#[unsafe(no_mangle)]
pub extern "C" fn savuneco_is_subtree_of(a: &[u8], b: &[u8], normalise: u8) -> u8
    ensures { result ≡ asked (is_subtree_of (flagged normalise)) (whole name_p a.now) (whole name_p b.now) }
{
    desk::savuneco_is_subtree_of(a, b, normalise)
}

// Whether what a subject says of its issuer's key fits the issuer. A part that is not present is not read.
#[unsafe(no_mangle)]
pub extern "C" fn savuneco_check_auth_key_id(
    has_akid: u8,
    akid: &[u8],
    has_aserial: u8,
    aserial: &[u8],
    has_skid: u8,
    skid: &[u8],
    serial: &[u8],
) -> u8
    ensures { result ≡ yes_no (check_auth_key_id
        (given (flagged has_akid) akid.now)
        (given (flagged has_aserial) aserial.now)
        (given (flagged has_skid) skid.now)
        serial.now) }
{
    desk::savuneco_check_auth_key_id(has_akid, akid, has_aserial, aserial, has_skid, skid, serial)
}

// A case answered by its reply (say.rt). How many fields it has tells its form, the second field its question.
use crate::believe::lowest_root;
use crate::bytes::unescape;
use crate::say;
use fields::Fault;
use keys::{check_auth_key_id, ip_addr_in_range};
use same::{same_attr, same_dn, same_rdn};
use std::io;
use subtree::{is_subtree_of, is_subtree_rdn, rdn_has_name};
use text::{match_name, normalize_string};

// Answers a line, with what stands behind its question.
pub(crate) fn answer(rt: &impl Print, line: &[u8]) -> io::Result<()> {
    let mut fields = line.split(|b| *b == b'|');
    rt.write_all(fields.next().unwrap_or(&[]))?;
    print!(rt; ": ")?;
    let question = fields.next().unwrap_or(&[]);
    let arguments = (fields.next(), fields.next(), fields.next(), fields.next());
    match (arguments, fields.next()) {
        ((Some(a), Some(b), None, None), None) => two(rt, question, a, b),
        ((Some(flag), Some(a), Some(b), None), None) => related(rt, question, flag, a, b),
        ((Some(akid), Some(aserial), Some(skid), Some(serial)), None) => {
            key_ids(rt, question, akid, aserial, skid, serial)
        }
        _ => say::unknown(rt),
    }
}

// normalize_string|ROOM|STRING, match_name|PATTERN|NAME, ip_addr_in_range|RANGE|ADDRESS and lowest_root|PATH|CARD
fn two(rt: &impl Print, question: &[u8], a: &[u8], b: &[u8]) -> io::Result<()> {
    let mut first = [0u8; 4096];
    let mut second = [0u8; 4096];
    let a = unescape(a, &mut first);
    let b = unescape(b, &mut second);
    match question {
        b"normalize_string" => normal_form(rt, a, b),
        b"match_name" => say::reply(rt, Ok(match_name(a, b))),
        b"ip_addr_in_range" => say::reply(rt, Ok(ip_addr_in_range(a, b))),
        b"lowest_root" => say::top(rt, lowest_root(a, b)),
        _ => say::unknown(rt),
    }
}

fn normal_form(rt: &impl Print, lent: &[u8], s: &[u8]) -> io::Result<()> {
    match lent {
        [digit @ b'0'..=b'8'] => {
            let mut room = [b'#'; 8];
            let answer = normalize_string(s, &mut room[..usize::from(digit - b'0')]);
            say::normalised(rt, answer, &room)
        }
        _ => say::unknown(rt),
    }
}

// RELATION|FLAG|ARGUMENT|ARGUMENT
fn related(rt: &impl Print, question: &[u8], flag: &[u8], a: &[u8], b: &[u8]) -> io::Result<()> {
    let mut first = [0u8; 4096];
    let mut second = [0u8; 4096];
    let mut third = [0u8; 4096];
    let a = unescape(a, &mut first);
    let b = unescape(b, &mut second);
    let normalise = match unescape(flag, &mut third) {
        b"as they stand" => false,
        b"normalised" => true,
        _ => return say::unknown(rt),
    };
    match relation(question, a, b, normalise) {
        Some(related) => say::reply(rt, related),
        None => say::unknown(rt),
    }
}

fn relation(question: &[u8], a: &[u8], b: &[u8], normalise: bool) -> Option<Result<bool, Fault>> {
    let related = match question {
        b"same_attr" => same_attr(a, b, normalise),
        b"same_rdn" => same_rdn(a, b, normalise),
        b"same_dn" => same_dn(a, b, normalise),
        b"rdn_has_name" => rdn_has_name(a, b, normalise),
        b"is_subtree_rdn" => is_subtree_rdn(a, b, normalise),
        b"is_subtree_of" => is_subtree_of(a, b, normalise),
        _ => return None,
    };
    Some(related)
}

// check_auth_key_id|AUTHORITY KEY ID|AUTHORITY SERIAL|SUBJECT KEY ID|SERIAL
fn key_ids(
    rt: &impl Print,
    question: &[u8],
    akid: &[u8],
    aserial: &[u8],
    skid: &[u8],
    serial: &[u8],
) -> io::Result<()> {
    let mut first = [0u8; 4096];
    let mut second = [0u8; 4096];
    let mut third = [0u8; 4096];
    let mut fourth = [0u8; 4096];
    let akid = given(unescape(akid, &mut first));
    let aserial = given(unescape(aserial, &mut second));
    let skid = given(unescape(skid, &mut third));
    let serial = unescape(serial, &mut fourth);
    match question {
        b"check_auth_key_id" => say::reply(rt, Ok(check_auth_key_id(akid, aserial, skid, serial))),
        _ => say::unknown(rt),
    }
}

// A part that is absent is written as `none`.
fn given(part: &[u8]) -> Option<&[u8]> {
    match part {
        b"none" => None,
        _ => Some(part),
    }
}

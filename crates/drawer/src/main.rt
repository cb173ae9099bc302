// Answers the cases of standard input, on the leaf questions and on paths in whole cards, a line each: the label, and the answer.
// What each line must be stands in the file stdout beside this folder, the cases in the file stdin.
//
// A line is a case and ends in a newline, its fields stand between bars:
//     LABEL|normalize_string|ROOM|STRING
//     LABEL|match_name|PATTERN|NAME
//     LABEL|ip_addr_in_range|RANGE|ADDRESS
//     LABEL|lowest_root|PATH|CARD
//     LABEL|RELATION|FLAG|ARGUMENT|ARGUMENT
//     LABEL|check_auth_key_id|AUTHORITY KEY ID|AUTHORITY SERIAL|SUBJECT KEY ID|SERIAL
// ROOM is how many of eight bytes ######## are lent. RELATION is same_attr, same_rdn, same_dn, rdn_has_name, is_subtree_rdn
// or is_subtree_of, FLAG is `as they stand` or `normalised`. A key id or an authority serial that is absent is `none`.
// PATH is the places of a simple path, a byte each, the leaf first; CARD is a whole card file.
// In an argument each byte stands for itself, except `\XX`, two of 0 to 9 and A to F, which is that byte.
// Empty lines and lines that begin with # are skipped; a line of no form above is answered `unknown question`.
// An argument has at most 4,096 bytes and the whole input 65,536: what is over is not read.
#![tactic(auto)]

mod ask;
mod believe;
mod bytes;
mod say;

use intake::fill;
use std::io::Result;

fn main(rt: HostRuntime) -> Result<()> {
    let mut buf = [0u8; 65536];
    let n = fill(&mut rt.reader(), &mut buf)?;
    answer_all(&rt, &buf[..n])
}

// What stands behind the last newline is no line.
fn answer_all(rt: &impl Print, file: &[u8]) -> Result<()> {
    let end = file.iter().rposition(|b| *b == b'\n').unwrap_or(0);
    for line in file[..end].split(|b| *b == b'\n') {
        match line {
            [] | [b'#', ..] => {}
            _ => ask::answer(rt, line)?,
        }
    }
    Ok(())
}

// Answers the cases of standard input on the search through whole card files, a line each.
// What each line must be stands in the file stdout beside this folder, written by hand from the paper; the cases stand in the file stdin.
//
// A line is a case and ends in a newline, its fields stand between bars:
//     LABEL|search|ROOM|CARD
//     LABEL|K|ROOM|CARD
// The first is a search with the card's own budget, the second a paused run with K in the budget's place, 9,999 at most.
// ROOM is how many bytes are lent, at most twice what a full bundle needs; each of them is #.
// CARD is a whole card file, in words: bytes as two digits each, 0 to 9 and A to F. A word 3*0102 stands for 010201020102.
// Empty lines and lines that begin with # are skipped. What is over 65,536 bytes of a card or of the input is not read.
//
// An answer is the label, the line that the terminal writes for such an answer, and the lent room as the search leaves it: the paths in its lowest slots,
// then how many bytes are zero, how many are # and how many are left.
#![tactic(auto)]

mod ask;
mod show;
mod words;

use intake::fill;
use std::io::Result;

fn main(rt: HostRuntime) -> Result<()> {
    let mut buf = [0u8; 65536];
    let n = fill(&mut rt.reader(), &mut buf)?;
    answer_all(&rt, &buf[..n])
}

fn answer_all(rt: &impl Print, file: &[u8]) -> Result<()> {
    for line in file.split(|b| *b == b'\n') {
        match line {
            [] | [b'#', ..] => {}
            _ => ask::answer(rt, line)?,
        }
    }
    Ok(())
}

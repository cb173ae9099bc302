// The paused run, and the paths that wait after it.
use reply::Slot;
use report::{Room, line_of};
use search::paused;
use std::io::Result;

// A number in decimal digits, of which those behind one over 999,999 are not read; another byte counts as 0. The tray's numbers have
// other digits and another limit, so that one function for both would take both as arguments and be no shorter.
pub(crate) fn number(digits: &[u8]) -> u64 {
    let mut n = 0;
    for b in digits {
        if n >= 1_000_000 {
            break;
        }
        n = n * 10 + u64::from(char::from(*b).to_digit(10).unwrap_or(0));
    }
    n
}

pub(crate) fn pause(rt: &impl Print, file: &[u8], k: u64) -> Result<()> {
    let mut room = [0u8; Room::BYTES];
    let answer = paused(file, k, &mut room);
    rt.write_all(line_of(answer).as_slice())?;
    paths(rt, &room)
}

// Writes the paths in the lowest slots.
fn paths(rt: &impl Print, room: &[u8]) -> Result<()> {
    for slot in room.chunks_exact(Slot::BYTES) {
        match slot {
            [] | [0, ..] => break,
            [length, places @ ..] => path(rt, *length, places)?,
        }
    }
    Ok(())
}

fn path(rt: &impl Print, length: u8, places: &[u8]) -> Result<()> {
    print!(rt; "WAITS")?;
    for place in places.iter().take(length.into()) {
        print!(rt; " {place}")?;
    }
    println!(rt)
}

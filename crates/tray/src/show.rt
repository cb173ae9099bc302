// What is written of a case: its label, the terminal's line, and the room as slots. A label is bytes that need not be text.
ghost use Rattle.std.specs.Prelude.{◌≤◌, ◌≡◌, ℕ, length, drop, IfOk};

use reply::{Answer, Slot};
use report::line_of;
use std::io::Result;

pub(crate) fn answer(rt: &impl Print, label: &[u8], answer: Answer, room: &[u8]) -> Result<()> {
    rt.write_all(label)?;
    print!(rt; ": ")?;
    rt.write_all(line_of(answer).as_slice().trim_ascii_end())?;
    print!(rt; ", room:")?;
    slots(rt, room)?;
    println!(rt)
}

// Writes the paths in the lowest slots; then how many bytes are zero, how many are as they were lent, and how many are left.
fn slots(rt: &impl Print, room: &[u8]) -> Result<()> {
    let rest = paths(rt, room)?;
    let (zeros, rest) = rest.split_at(run_end(rest, 0));
    let (lent, others) = rest.split_at(run_end(rest, b'#'));
    run(rt, zeros, "zeros")?;
    run(rt, lent, "#")?;
    run(rt, others, "others")
}

// How many bytes b the bytes begin with.
fn run_end(bytes: &[u8], b: u8) -> usize
    ensures { result ≤ length bytes.now }
{
    bytes.iter().position(|x| *x != b).unwrap_or(bytes.len())
}

fn run(rt: &impl Print, bytes: &[u8], name: &str) -> Result<()> {
    if bytes.is_empty() {
        return Ok(());
    }
    print!(rt; " {} {name}", bytes.len())
}

// Writes the paths in the lowest slots; the bytes behind them, which are the room from some place on.
fn paths<'a>(rt: &impl Print, room: &'a [u8]) -> Result<&'a [u8]>
    ensures { IfOk result (λ rest. (at : ℕ) × (at ≤ length room.now) × (rest.now ≡ drop at room.now)) }
{
    let mut rest = room;
    while let Some((slot, behind)) = rest.split_at_checked(Slot::BYTES) {
        let Some(places) = path_in(slot) else { break };
        path(rt, places)?;
        rest = behind;
    }
    Ok(rest)
}

// The places of the path in a slot, where it holds one: a length from 1 to as many places as a slot has, and zeros past so many places.
fn path_in(slot: &[u8]) -> Option<&[u8]> {
    let (length, places) = slot.split_first()?;
    let (path, rest) = places.split_at_checked(usize::from(*length))?;
    if path.is_empty() || rest.iter().any(|b| *b != 0) {
        return None;
    }
    Some(path)
}

fn path(rt: &impl Print, places: &[u8]) -> Result<()> {
    for (i, place) in places.iter().enumerate() {
        let before = if i == 0 { " [" } else { "," };
        print!(rt; "{before}{place}")?;
    }
    print!(rt; "]")
}

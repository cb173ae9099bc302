// Writes the paused runs of recorded card files. An argument K:NAME is answered by itself, the line of the paused run of that file with K
// in the budget's place, and a line WAITS P... for each path that then waits, the bottom one first. The files lie in the folder data, what
// is written must be as in the file stdout.
//
// The files are among those that `terminal` is run on. Their paused runs, for k = 0, 1, 2, one less than the number of simple paths and
// that number, are recorded from reference/, an ordinary Rust version (`reference waiting`); so are, of 0662 and 0676, those for the first k
// after which a path of 19 places waits (`reference paused`).
#![tactic(auto)]

mod waiting;

use intake::{fill, open};
use std::env::{Env, FillError};
use std::io::{Read, Result};
use std::rt::Files;
use waiting::{number, pause};

// Arguments go by number, since std's `args` allocates.
fn main(rt: HostRuntime) -> Result<()> {
    for i in 1..usize::MAX {
        if !replay(&rt, i)? {
            break;
        }
    }
    Ok(())
}

// Whether there is such an argument. One that is longer than the buffer counts as an empty one.
fn replay<R: Env + Files + Print>(rt: &R, i: usize) -> Result<bool> {
    let mut word = [0u8; 4096];
    let n = match rt.arg(i, &mut word) {
        Ok(n) => n,
        Err(FillError::TooLong) => 0,
        Err(FillError::NotPresent) => return Ok(false),
    };
    rt.write_all(&word[..n])?;
    answer(rt, &word[..n])?;
    Ok(true)
}

fn answer<R: Files + Print>(rt: &R, word: &[u8]) -> Result<()> {
    let Some(colon) = word.iter().position(|b| *b == b':') else {
        return rt.write_all(b" is not K:NAME\n");
    };
    match open(rt, &word[colon + 1..]) {
        Ok(mut file) => replay_file(rt, &mut file, number(&word[..colon])),
        Err(_) => rt.write_all(b" can't be opened\n"),
    }
}

fn replay_file<P: Print, F: Read>(rt: &P, reader: &mut F, k: u64) -> Result<()> {
    let mut file = [0u8; 65536];
    let n = fill(reader, &mut file)?;
    rt.write_all(b" ")?;
    pause(rt, &file[..n], k)
}

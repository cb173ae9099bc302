// What is written behind a case's label: the reply. The lent room is bytes that need not be text.
use fields::Fault;
use std::io;

pub(crate) fn unknown(rt: &impl Print) -> io::Result<()> {
    println!(rt; "unknown question")
}

// Yes or no, or the number of a fault.
pub(crate) fn reply(rt: &impl Print, answer: Result<bool, Fault>) -> io::Result<()> {
    match answer {
        Ok(true) => println!(rt; "yes"),
        Ok(false) => println!(rt; "no"),
        Err(fault) => println!(rt; "{}", u8::from(fault)),
    }
}

// The length, or the number of no room; after it the eight bytes of which the lent room is the start.
pub(crate) fn normalised(rt: &impl Print, length: Option<usize>, room: &[u8; 8]) -> io::Result<()> {
    match length {
        Some(n) => print!(rt; "length {n}")?,
        None => print!(rt; "10")?,
    }
    print!(rt; ", room: ")?;
    rt.write_all(room)?;
    println!(rt)
}

// The root above a path, or that there is none.
pub(crate) fn top(rt: &impl Print, root: Result<Option<u8>, Fault>) -> io::Result<()> {
    match root {
        Ok(Some(root)) => println!(rt; "root {root}"),
        Ok(None) => println!(rt; "no root"),
        Err(fault) => reply(rt, Err(fault)),
    }
}

// What programs take in: a file by its name, the bytes of a file or a stream, and the digits in them.
#![tactic(auto)]

mod digits;

ghost use Rattle.std.specs.Prelude.{IfOk, IfSome, OnOk, take, length, ◌≡◌};
ghost use Rattle.std.specs.Io.{ReadsAtMost};
ghost use Rattle.std.specs.Io.KnownBytes.{Consumes};
ghost use Rattle.std.specs.Str.{IsUtf8};

pub use digits::hex_digit;
use std::io::{ErrorKind, Read};
use std::rt::Files;
use std::{fs, io, str};

// Opens a file for reading. A name that is not UTF-8 opens nothing.
pub fn open<R: Files>(rt: &R, name: &[u8]) -> io::Result<R::File>
    ensures { OnOk result (IsUtf8 name.now) }
{
    let path = str::from_utf8(name).map_err(|_| ErrorKind::InvalidFilename)?;
    fs::open(rt, path)
}

// Reads into buf from its start, to the end of what there is or as far as there is room; how many bytes were read. Where the bytes to come
// are known, those read are the first of them, as many as there are or as there is room for. A `while`, since how far a turn gets is
// read's to say.
pub fn fill<R: Read>(reader: &mut R, buf: &mut [u8]) -> io::Result<usize>
    ensures count { ReadsAtMost result buf.new }
    ensures bytes { IfOk result (λ n. IfSome (R.remaining reader.old) (λ xs. take n buf.new ≡ take (length buf.new) xs)) }
    ensures rest { IfOk result (λ n. Consumes (R.remaining reader.old) (R.remaining reader.new) (take n buf.new)) }
{
    let mut done = 0;
    while done < buf.len() {
        let more = reader.read(&mut buf[done..])?;
        if more == 0 {
            return Ok(done);
        }
        done += more;
    }
    Ok(done)
}

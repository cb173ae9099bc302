// A number of several bytes, the highest first.
ghost use Rattle.std.specs.Prelude.{◌≡◌, ◌≤◌, length};
ghost use Rattle.fields.specs.Fields.{big_endian, big_p};
ghost use Rattle.fields.specs.Answers.{read};

use crate::{Fault, Reading};

pub fn u16_at(file: &[u8], at: usize) -> Reading<u64>
    ensures { read result ≡ big_p 2 file.now at }
{
    number_at::<2>(file, at)
}

pub fn u64_at(file: &[u8], at: usize) -> Reading<u64>
    ensures { read result ≡ big_p 8 file.now at }
{
    number_at::<8>(file, at)
}

// The number of so many bytes at a place, and the place past them.
#[tactic(auto, unfolding(crate::specs::Fields::big_p, crate::specs::Fields::bytes_p))]
fn number_at<const WIDTH: usize>(file: &[u8], at: usize) -> Reading<u64>
    requires { WIDTH ≤ 8 }
    ensures { read result ≡ big_p WIDTH file.now at }
{
    if file.len() < at || file.len() - at < WIDTH {
        return Err(Fault::CutShort);
    }
    let next = at + WIDTH;
    Ok((big_endian(&file[at..next]), next))
}

// Up to eight bytes as one number.
fn big_endian(bytes: &[u8]) -> u64
    requires { length bytes.now ≤ 8 }
    ensures { result ≡ big_endian 0 bytes.now }
{
    let mut value: u64 = 0;
    for byte in bytes {
        value = value * 256 + *byte as u64;
    }
    value
}

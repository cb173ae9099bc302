// The pieces that every part of a card file is made of: a count byte, a string, a big-endian number, so many of a thing in a row.
// A reader `X_at(file, at)` answers what stands at a place and the place past it, or why it can't be read. File and place are no struct: of
// the two a reader hands on the place alone, and a record that was read keeps places without the file. Limits are a reader's own two numbers.
// Which pieces make up a record or a name is left to the crates above.
#![tactic(auto)]

mod count;
mod fault;
mod number;
mod run;
mod string;
mod test;
mod thing;

pub use count::{byte_at, count_at};
pub use fault::Fault;
pub use number::{u16_at, u64_at};
pub use run::{Run, list_at, run_at};
pub use string::{Span, part, string_at};
pub use test::Test;
pub use thing::{Thing, whole};

// What stands at a place and the place past it, or why it can't be read.
pub type Reading<T> = Result<(T, usize), Fault>;

// Card files are handed in, and lines handed out. With no argument a card file is read from standard input and its line written. With
// arguments each file that one names is read, in their order, and its line begins with the name; `-` names standard input. A file that
// can't be read gets no line, but a message. What the line says is settled in `report`; here it is brought out.
#![tactic(auto)]

use intake::{fill, open};
use report::reply_to;
use std::env::{Env, FillError};
use std::io::{Input, Print, Read, Result};
use std::rt::Files;

// All that a terminal does; messages go to `errors`, which is its standard error. Arguments go by number, since std's `args` allocates.
pub fn serve<R: Env + Files + Input + Print, E: Print>(rt: &R, errors: &E) {
    let terminal = Terminal { rt, errors };
    if !terminal.answer_argument(1) {
        terminal.answer(&mut rt.reader(), None);
        return;
    }
    for i in 2..usize::MAX {
        if !terminal.answer_argument(i) {
            return;
        }
    }
}

// What a terminal reads from and writes lines to, and where its messages go.
#[derive(Clone, Copy)]
struct Terminal<'a, R, E> {
    rt: &'a R,
    errors: &'a E,
}

impl<'a, R: Env + Files + Input + Print, E: Print> Terminal<'a, R, E> {
    // Whether there is such an argument.
    fn answer_argument(&self, i: usize) -> bool {
        let mut word = [0u8; 4096];
        match self.rt.arg(i, &mut word) {
            Ok(0) | Err(FillError::TooLong) => self.complain(
                Some(b"a name"),
                b" is empty or has more than 4,096 bytes\n",
            ),
            Ok(n) => self.answer_named(&word[..n]),
            Err(FillError::NotPresent) => return false,
        }
        true
    }

    fn answer_named(&self, name: &[u8]) {
        if let b"-" = name {
            return self.answer(&mut self.rt.reader(), Some(name));
        }
        match open(self.rt, name) {
            Ok(mut file) => self.answer(&mut file, Some(name)),
            Err(_) => self.complain(Some(name), b" can't be opened\n"),
        }
    }
}

impl<'a, R: Print, E: Print> Terminal<'a, R, E> {
    // Reads a card file and writes its line, behind the name where there is one. The buffer holds one byte more than a card file can have, so
    // that a file that is too long is seen.
    fn answer<F: Read>(&self, reader: &mut F, name: Option<&[u8]>) {
        let mut file = [0u8; 65536];
        match fill(reader, &mut file) {
            Ok(n) => self.reply(name, &file[..n]),
            Err(_) => self.complain(name, b" can't be read\n"),
        }
    }

    fn reply(&self, name: Option<&[u8]>, file: &[u8]) {
        if self.say(name, reply_to(file).as_slice()).is_err() {
            self.complain(Some(b"the line"), b" can't be written\n");
        }
    }

    fn say(&self, name: Option<&[u8]>, line: &[u8]) -> Result<()> {
        if let Some(name) = name {
            self.rt.write_all(name)?;
            self.rt.write_all(b" ")?;
        }
        self.rt.write_all(line)
    }

    // Where there is no name, standard input is meant. A message that can't be written is lost.
    fn complain(&self, what: Option<&[u8]>, why: &[u8]) {
        let _ = self.errors.write_all(b"terminal: ");
        let _ = self.errors.write_all(what.unwrap_or(b"standard input"));
        let _ = self.errors.write_all(why);
    }
}

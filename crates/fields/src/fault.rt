// Why bytes can't be read: the reader's rows in the table of replies (docs/CARD-FILE.md, "Replies").
ghost use Rattle.fields.specs.Answers.{number};

// Each has the number of its row.
#[derive(Clone, Copy, Debug, PartialEq, Eq)]
pub enum Fault {
    UnknownEdition = 4,
    TooLong,
    CutShort,
    BadCount,
    BadValue,
    LeftOver,
}

impl From<Fault> for u8 {
    ghost use Rattle.std.specs.Prelude.{◌≡◌};

    ghost from_gives = { λ fault row. row ≡ number fault };

    fn from(fault: Fault) -> u8 {
        fault as u8
    }
}

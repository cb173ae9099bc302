// A record's two names, by their places.
ghost use Rattle.std.specs.Prelude.{◌≡◌};
ghost use Rattle.fields.specs.Answers.{read};
ghost use Rattle.record.specs.Record.{names_p};

use fields::{Reading, Thing};
use names::Name;

#[derive(Clone, Copy)]
pub struct Names {
    pub issuer: usize,
    pub subject: usize,
}

#[tactic(auto, unfolding(crate::specs::Record::names_p))]
pub(crate) fn names_at(file: &[u8], at: usize) -> Reading<Names>
    ensures { read result ≡ names_p file.now at }
{
    let subject = Name::past(file, at)?;
    let next = Name::past(file, subject)?;
    let names = Names {
        issuer: at,
        subject,
    };
    Ok((names, next))
}

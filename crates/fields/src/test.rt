// A test of things that stand in a file, so that one loop asks so many of any kind.
ghost use Rattle.std.specs.Prelude.{◌≡◌, ℕ, Bool, List};
ghost use Rattle.fields.specs.Fields.{Parsed, got, after};
ghost use Rattle.fields.specs.Answers.{read};

use crate::Reading;

pub trait Test {
    ghost Value: { Type 0 };

    ghost thing_p: { List ℕ → ℕ → Parsed Value };

    ghost passes: { Self → Value → Bool };

    // Whether the thing at a place passes, and the place past it, so that nothing is read twice.
    fn ask(&self, file: &[u8], at: usize) -> Reading<bool>
        ensures { read result ≡ after (thing_p file.now at) (λ a e. got (passes self.now a) e) };
}

// The run: a walk from the leaf alone, and the answer of what it came to.
ghost use Rattle.std.specs.Prelude.{[], ◌∷◌, ◌≡◌, ◌≤◌, take};
ghost use Rattle.places.specs.Limits.{bundle_most};
ghost use Rattle.reply.specs.Answer.{path_shown};
ghost use Rattle.reply.specs.Settles.{Settles};
ghost use Rattle.question.specs.Question.{places_by, roots_by};
ghost use Rattle.steps.specs.Parts.{Stopped};

use crate::walk::{End, first, walk};
use policy::{Ground, Judged, seats_of};
use reply::{Answer, Path};

// The search from the leaf alone.
pub(crate) fn run(n: u8, judged: Judged, budget: u64) -> End
    requires { (1 ≤ n) × (n ≤ bundle_most) }
    ensures { Stopped (places_by judged.issuing.bundle n) (Settles (places_by judged.issuing.bundle n) (roots_by judged) budget) ((0 ∷ []) ∷ []) result }
{
    let seats = seats_of(judged, n - 1);
    let ground = Ground {
        rows: &judged.issuing.bundle,
        roots: &judged.issuing.roots,
        seats: &seats.rows,
    };
    walk(first(n), n, ground, budget)
}

// What is answered: the reply, and the path of the first so many places.
pub(crate) fn answer_of(end: End) -> Answer
    ensures reply { result.reply ≡ end.reply }
    ensures path { result.path ≡ path_shown (take end.len end.place) }
{
    Answer {
        reply: end.reply,
        path: Path::of(end.place, end.len),
    }
}

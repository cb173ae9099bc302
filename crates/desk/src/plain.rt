// An answer in plain numbers.
ghost use Rattle.std.specs.Prelude.{◌≡◌};
ghost use Rattle.desk.specs.Plain.{numbers};

use places::BundlePlace;
use reply::{Answer, Reply};

// The reply's number, root and steps, and the path beside it: its length and its places, 0 past them, as C has them (`savuneco_answer`).
#[repr(C)]
#[derive(Clone, Copy)]
pub struct Plain {
    pub steps: u64,
    pub number: u8,
    pub root: u8,
    pub length: u8,
    pub path: [u8; BundlePlace::MOST],
}

// The same answer in plain numbers.
impl From<Answer> for Plain {
    ghost use Rattle.desk.specs.Plain.{plain};

    ghost from_gives = { λ answer r. r ≡ plain answer };

    fn from(answer: Answer) -> Plain {
        let (number, root, steps) = match answer.reply {
            Reply::Accepted { root, steps } => (0, root.0, steps),
            Reply::Refused { steps } => (1, 0, steps),
            Reply::Exhausted { steps } => (2, 0, steps),
            Reply::Error(number) => (number, 0, 0),
        };
        Plain {
            steps,
            number,
            root,
            length: answer.path.length,
            path: numbers_of(answer.path.places),
        }
    }
}

// A path's places as bytes. By a loop, as `Path::of` of reply.
fn numbers_of(places: [BundlePlace; BundlePlace::MOST]) -> [u8; BundlePlace::MOST]
    ensures { result ≡ numbers places }
{
    let mut bytes = [0u8; BundlePlace::MOST];
    for j in 0..BundlePlace::MOST {
        bytes[j] = places[j].0;
    }
    bytes
}

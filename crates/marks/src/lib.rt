// A place mark: the path that a search has taken last, so that it can be taken up again behind it. What must then be answered is in
// specs/; how it is found is left to the crates above.
#![tactic(auto)]

ghost use Rattle.std.specs.Prelude.{[], ◌≡◌};
ghost use Rattle.marks.specs.Marks.{mark_at};

use places::BundlePlace;
use reply::{Answer, Path};

// A length and as many places as a path has; a fresh one has length 0. Places past the length are not read. It is no `Path`: of
// that the places past the length are 0.
#[repr(C)]
#[derive(Clone, Copy)]
pub struct Mark {
    pub length: u8,
    pub places: [BundlePlace; BundlePlace::MOST],
}

impl Mark {
    // A mark behind which every path comes.
    pub fn fresh() -> Mark
        ensures { result ≡ mark_at [] }
    {
        Path::new().into()
    }
}

// The mark at a path.
impl From<Path> for Mark {
    ghost use Rattle.marks.specs.Marks.{marking};

    ghost from_gives = { λ path mark. mark ≡ marking path };

    fn from(path: Path) -> Mark {
        let Path { length, places } = path;
        Mark { length, places }
    }
}

// What a search that was taken up again answers, and the mark to set.
#[derive(Clone, Copy)]
pub struct Resumed {
    pub answer: Answer,
    pub mark: Mark,
}

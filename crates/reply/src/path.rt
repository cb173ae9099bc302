// The path that an answer shows.
ghost use Rattle.std.specs.Prelude.{[], ◌≡◌, take, min};
ghost use Rattle.places.specs.Limits.{bundle_most};
ghost use Rattle.reply.specs.Answer.{path_shown};

use places::BundlePlace;

// A path's places, the leaf first; places past its length are 0. An array with its length beside: it is what C has (`savuneco_path`).
#[repr(C)]
#[derive(Clone, Copy)]
pub struct Path {
    pub length: u8,
    pub places: [BundlePlace; BundlePlace::MOST],
}

impl Path {
    // No places.
    #[tactic(auto, unfolding(crate::specs::Answer::path_shown, crate::specs::Slots::padded))]
    pub fn new() -> Path
        ensures { result ≡ path_shown [] }
    {
        Path {
            length: 0,
            places: [BundlePlace(0); BundlePlace::MOST],
        }
    }

    // How many places a path of a length has: no more than there is room for.
    pub fn within(length: usize) -> usize
        ensures { result ≡ min length bundle_most }
    {
        length.min(BundlePlace::MOST)
    }

    // The first so many places, or all where there are no more. By a loop: `map` of an array calls for each place apart, and took eight times as
    // many instructions.
    pub fn of(numbers: [u8; BundlePlace::MOST], length: usize) -> Path
        ensures { result ≡ path_shown (take length numbers) }
    {
        let n = Path::within(length);
        let mut places = [BundlePlace(0); BundlePlace::MOST];
        for j in 0..n {
            places[j] = BundlePlace(numbers[j]);
        }
        Path {
            length: n as u8,
            places,
        }
    }
}

// What is believed: the policy on a chain, from the leaf to a root, made of the seven rules. What can be judged once per certificate is,
// and a path stands by its places, one after another.
#![tactic(auto)]

mod ground;
mod judged;
mod seating;
mod standing;

pub use ground::Ground;
pub use judged::{Above, Between, Judged, Sound, judge};
pub use seating::{Seats, seats_in, seats_of};
pub use standing::{Standing, added, begun, over};

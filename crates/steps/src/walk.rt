// The walk: step after step until a path reaches a root, none waits, or the budget is spent. What waits is kept by depths, as rows
// of places: the room is not touched.
ghost use Rattle.std.specs.Prelude.{List, [], ◌∷◌, ◌≡◌, ℕ, ◌+◌, ◌≤◌, ◌<◌};
ghost use Rattle.places.specs.Limits.{bundle_most};
ghost use Rattle.question.specs.Question.{places_by};
ghost use Rattle.policy.specs.Standing.{over, added};
ghost use Rattle.rows.specs.Rows.{joined, left, common, highest};
ghost use Rattle.steps.specs.Parts.{roots_seated, stack_of, Ready, onward, Ends, Stopped};

use places::{BundlePlace, RootPlace};
use policy::{Ground, Seats, Standing, added, begun, over};
use reply::Reply;
use rows::{below, highest, lowest, shared, with, without};

// What a walk keeps of a depth: the places that are still to be taken there, those that the path before leaves free, and how that path
// stands.
#[derive(Clone, Copy)]
pub(crate) struct Level {
    pub(crate) ahead: u64,
    pub(crate) free: u64,
    pub(crate) standing: Standing,
}

// Where a walk stands: its depth, the places taken before it, and a level for each depth up to it. The places are an array of their own,
// since a path is shown by it as it stands.
#[derive(Clone, Copy)]
pub(crate) struct Depths {
    pub(crate) place: [u8; BundlePlace::MOST],
    pub(crate) levels: [Level; BundlePlace::MOST],
    pub(crate) depth: usize,
}

// Where a walk stopped: its reply, the path beside it as the first so many places, and what waits at so many depths. Two lengths of one array,
// since the path may be shorter than what waits.
#[derive(Clone, Copy)]
pub(crate) struct End {
    pub(crate) reply: Reply,
    pub(crate) len: usize,
    pub(crate) place: [u8; BundlePlace::MOST],
    pub(crate) levels: [Level; BundlePlace::MOST],
    pub(crate) depths: usize,
}

// Where a search begins: the leaf alone waits.
pub(crate) fn first(n: u8) -> Depths
    requires { (1 ≤ n) × (n ≤ bundle_most) }
    ensures ready { (rows seats : List ℕ) → Ready (places_by rows n) seats result }
    ensures leaf { stack_of n result ≡ (0 ∷ []) ∷ [] }
{
    let level = Level {
        ahead: with(0, 0),
        free: below(n),
        standing: begun(),
    };
    Depths {
        place: [0u8; BundlePlace::MOST],
        levels: [level; BundlePlace::MOST],
        depth: 0,
    }
}

// The place that is taken next: the highest of those ahead, as the order of paths has it.
fn next_place(row: u64) -> u8
    ensures { result ≡ highest row }
{
    highest(row)
}

// The places by which a path goes on from place i, which these places issued.
fn children(level: Level, i: u8, issuers: u64) -> u64
    ensures { result ≡ common (left level.free (joined 0 i)) issuers }
{
    shared(without(level.free, with(0, i)), issuers)
}

// How a path stands that goes on by place i.
fn standing_by(level: Level, i: u8, seats: &[u64; Seats::ROWS]) -> Standing
    ensures { result ≡ added seats.now level.standing i }
{
    added(seats, level.standing, i)
}

// The roots by which a path qualifies that stands so, and whose last place these roots issued.
fn roots_over(standing: Standing, issuers: u64, seats: &[u64; Seats::ROWS]) -> u64
    ensures { result ≡ common (over seats.now standing) issuers }
{
    shared(over(seats, standing), issuers)
}

// The level after one, where the path goes on by place i, then stands so, and may go on by the next places.
#[tactic(auto, unfolding(crate::specs::Parts::onward))]
fn onward(level: Level, i: u8, standing: Standing, next: u64) -> Level
    ensures { (seats : List ℕ) → standing ≡ added seats level.standing i → result ≡ onward seats level i next }
{
    Level {
        ahead: next,
        free: without(level.free, with(0, i)),
        standing,
    }
}

// The walk from where it stands on. Its depth and its level stand apart from the arrays, so that a step finds them in registers. The loop counts
// nothing: each turn goes a depth down or up, or stays.
pub(crate) fn walk(from: Depths, n: u8, ground: Ground, budget: u64) -> End
    requires { (n ≤ bundle_most) × Ready (places_by ground.rows.now n) ground.seats.now from }
    ensures { Stopped (places_by ground.entry.rows.now n) (Ends (places_by ground.entry.rows.now n) (roots_seated ground.entry.roots.now ground.entry.seats.now) budget (stack_of n from)) (stack_of n from) result }
{
    let mut levels = from.levels;
    let mut place = from.place;
    let mut d = from.depth;
    let mut here = levels[d];
    let mut steps = 0;
    loop {
        if here.ahead == 0 {
            if d == 0 {
                levels[d] = here;
                return stopped(Reply::Refused { steps }, 0, place, levels, d);
            }
            d -= 1;
            here = levels[d];
            continue;
        }
        if budget <= steps {
            levels[d] = here;
            return stopped(Reply::Exhausted { steps }, 0, place, levels, d);
        }
        steps += 1;
        let i = next_place(here.ahead);
        place[d] = i;
        here.ahead = without(here.ahead, with(0, i));
        let next = children(here, i, ground.rows[i as usize]);
        let standing = standing_by(here, i, ground.seats);
        let tops = roots_over(standing, ground.roots[i as usize], ground.seats);
        let len = d + 1;
        if next != 0 {
            levels[d] = here;
            here = onward(here, i, standing, next);
            d = len;
        }
        if tops != 0 {
            let root = RootPlace(lowest(tops));
            levels[d] = here;
            return stopped(Reply::Accepted { root, steps }, len, place, levels, d);
        }
    }
}

// Stopped at a depth, whose level was put back among the others.
fn stopped(
    reply: Reply,
    len: usize,
    place: [u8; BundlePlace::MOST],
    levels: [Level; BundlePlace::MOST],
    depth: usize,
) -> End
    requires { depth < bundle_most }
    ensures { result ≡ record { reply = reply; len = len; place = place; levels = levels; depths = depth + 1 } }
{
    End {
        reply,
        len,
        place,
        levels,
        depths: depth + 1,
    }
}

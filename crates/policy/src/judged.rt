// What can be judged once per certificate is judged here, once, so that a path costs a few operations a place.
ghost use Rattle.std.specs.Prelude.{List, ◌≡◌, ℕ, ◌<◌, ◌&&◌, cond, replicate, set};
ghost use Rattle.rows.specs.Rows.{joined, common, left};
ghost use Rattle.record.specs.Parts.{certificate_by};
ghost use Rattle.record.specs.declared.Record.{Record};
ghost use Rattle.rules.specs.Records.{for_servers_at, for_host_at};
ghost use Rattle.policy.specs.Sound.{leaf_sound_at, between_sound, top_sound, sound_places, place_limits, sound_roots, root_limits, sound_leaves, counted_places, judged_of};

use card::{Bundle, BundlePlace, Card, RootPlace, Roots};
use extensions::Extensions;
use fields::part;
use issuing::{Issuing, issuers_of, self_issued, who_issued};
use record::{Head, Record};
use rows::{has, shared, with, without};
use rules::{Time, authority, for_host, for_servers, handled, in_date, limit, well_formed};

// The places that may stand somewhere in a chain, and for each how many certificates that count its path length lets stand below it. The
// places are a row, beside an array of the limits, since rows are joined and parted whole.
#[derive(Clone, Copy)]
pub struct Sound<const MOST: usize> {
    pub sound: u64,
    pub limits: [u8; MOST],
}

// Those of the bundle, between leaf and root.
pub type Between = Sound<{ BundlePlace::MOST }>;

// Those of the roots that were asked for, above.
pub type Above = Sound<{ RootPlace::MOST }>;

impl<const MOST: usize> Sound<MOST> {
    // None may stand.
    fn none() -> Self
        ensures { (result.sound ≡ 0) × (result.limits ≡ replicate MOST 0) }
    {
        Sound {
            sound: 0,
            limits: [0u8; MOST],
        }
    }

    // Puts the limit of place i, and the place where it may stand.
    fn put(&mut self, i: u8, limit: u8, stands: bool)
        requires { i < MOST }
        ensures sound { self.new.sound ≡ cond stands (joined self.old.sound i) self.old.sound }
        ensures limits { self.new.limits ≡ set self.old.limits i limit }
    {
        self.limits[i as usize] = limit;
        if stands {
            self.sound = with(self.sound, i);
        }
    }

    // Of these the ones that stand in a row too.
    pub(crate) fn among(self, row: u64) -> Self
        ensures { result ≡ record { sound = common self.entry.sound row; limits = self.entry.limits } }
    {
        let mut some = self;
        some.sound = shared(self.sound, row);
        some
    }

    // Of these the ones that don't stand in a row.
    pub(crate) fn outside(self, row: u64) -> Self
        ensures { result ≡ record { sound = left self.entry.sound row; limits = self.entry.limits } }
    {
        let mut some = self;
        some.sound = without(self.sound, row);
        some
    }
}

// All the facts of a card that a search asks; at last the places that are sound as the leaf, and of those between the ones that path
// lengths count.
#[derive(Clone, Copy)]
pub struct Judged {
    pub issuing: Issuing,
    pub between: Between,
    pub above: Above,
    pub leaves: u64,
    pub counted: u64,
}

// A card's certificates, each compared and judged once, at a time; of the roots only those that issued any, since no path reaches another.
pub fn judge(file: &[u8], time: Time, card: Card) -> Judged
    ensures { result ≡ judged_of file.now time card }
{
    let issuing = who_issued(file, card);
    let above = roots_above(file, time, issuers_of(issuing.roots), card.roots);
    let places = places_judged(file, time, part(file, card.task.host.name), card.bundle);
    Judged {
        issuing,
        between: places.between,
        above,
        leaves: places.leaves,
        counted: places.counted,
    }
}

// What is judged of the bundle.
#[derive(Clone, Copy)]
struct Places {
    between: Between,
    leaves: u64,
    counted: u64,
}

// Each certificate of the bundle, fetched once and judged for every place that it may have in a path. Path lengths count those between that
// are not self-issued; the others' names are not compared.
fn places_judged(file: &[u8], time: Time, host: &[u8], bundle: Bundle) -> Places
    ensures sound_value { (result.between.sound ≡ sound_places file.now time bundle) × (result.between.limits ≡ place_limits file.now bundle) }
    ensures leaves_value { result.leaves ≡ sound_leaves file.now time host.now bundle }
    ensures counted_value { result.counted ≡ counted_places file.now result.between.sound bundle }
{
    let mut between = Between::none();
    let mut leaves: u64 = 0;
    let mut counted: u64 = 0;
    for i in 0..bundle.size() {
        let record = bundle.records[i as usize];
        let head = record.head(file);
        let stands = between_sound(file, time, head, record);
        between.put(i, limit(file, head, record), stands);
        if stands && !self_issued(file, record) {
            counted = with(counted, i);
        }
        if leaf_sound(file, time, host, record) {
            leaves = with(leaves, i);
        }
    }
    Places {
        between,
        leaves,
        counted,
    }
}

// All that is asked of the leaf.
#[tactic(auto, using(crate::proofs::Once::own), unfolding(crate::specs::Sound::leaf_sound_at))]
fn leaf_sound(file: &[u8], time: Time, host: &[u8], leaf: Record) -> bool
    ensures { result ≡ leaf_sound_at file.now time host.now leaf }
{
    let head = leaf.head(file);
    in_date(time, head)
        && well_formed(file, head, leaf)
        && handled(head)
        && leaf_serves(file, host, leaf.extensions(file, head.flags))
}

// What is asked of the leaf's lists.
fn leaf_serves(file: &[u8], host: &[u8], extensions: Extensions) -> bool
    ensures { result ≡ (for_servers_at file.now extensions.usages && for_host_at file.now host.now extensions.dns_names) }
{
    for_servers(file, extensions.usages) && for_host(file, host, extensions.dns_names)
}

// What is asked of a certificate between leaf and root, its path length aside. Its strings are compared last, since most that fail are
// no authorities, as the leaf.
#[tactic(auto, unfolding(crate::specs::Sound::between_sound))]
fn between_sound(file: &[u8], time: Time, head: Head, cert: Record) -> bool
    ensures { result ≡ between_sound time (certificate_by head cert file.now) }
{
    in_date(time, head) && handled(head) && authority(head) && well_formed(file, head, cert)
}

// What is asked of a root, its path length aside.
#[tactic(auto, unfolding(crate::specs::Sound::top_sound))]
fn top_sound(time: Time, head: Head) -> bool
    ensures { (cert : Record) (s : List ℕ) → result ≡ top_sound time (certificate_by head cert s) }
{
    in_date(time, head) && handled(head) && authority(head)
}

// Those of the roots that are asked for.
fn roots_above(file: &[u8], time: Time, asked: u64, roots: Roots) -> Above
    ensures { (result.sound ≡ sound_roots file.now time asked roots) × (result.limits ≡ root_limits file.now asked roots) }
{
    let mut above = Above::none();
    for i in 0..roots.size() {
        if has(asked, i) {
            let record = roots.record(RootPlace(i));
            let head = record.head(file);
            above.put(i, limit(file, head, record), top_sound(time, head));
        }
    }
    above
}

// The records: a path put in one, a path taken from one, and zeros put in more.
ghost use Rattle.std.specs.Prelude.{◌++◌, ◌≡◌, ◌-◌, ◌≤◌, ◌<◌, length, take, drop, replicate, set, get_or};
ghost use Rattle.places.specs.Limits.{bundle_most};
ghost use Rattle.stack.specs.Stacked.{blank, Whole};

use reply::Path;

pub(crate) fn push(records: &mut [Path], at: usize, path: Path)
    requires { at < length records.old }
    ensures { records.new ≡ set records.old at path }
{
    records[at] = path;
}

pub(crate) fn take(records: &[Path], from: usize) -> Path
    requires { from < length records.now }
    ensures { result ≡ get_or records.now from blank }
{
    records[from]
}

// Zeros from record a to record e.
pub(crate) fn clear(records: &mut [Path], a: usize, e: usize)
    requires { (a ≤ e) × (e ≤ length records.old) }
    ensures { records.new ≡ take a records.old ++ (replicate (e - a) blank ++ drop e records.old) }
{
    for record in &mut records[a..e] {
        *record = Path::new();
    }
}

// Each record has as many places as a path has. That is what its type says; here it is told of records that are lent, and nothing is done,
// since no proof could read it off the type of a slice of structs.
pub(crate) fn whole(records: &[Path])
    ensures { Whole records.now }
{
    for record in records {
        full(*record);
    }
}

fn full(path: Path)
    ensures { length path.places ≡ bundle_most }
{}

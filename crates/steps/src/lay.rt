// What waits, left in the room: the rows of a walk as paths in slots.
ghost use Rattle.std.specs.Prelude.{◌++◌, ◌≡◌, ◌+◌, ◌*◌, ◌≤◌, ◌<◌, length, take, drop, get_or, set};
ghost use Rattle.std.proofs.Math.Seq.{paste};
ghost use Rattle.order.specs.Slots.{slots_of};
ghost use Rattle.places.specs.Limits.{bundle_most};
ghost use Rattle.reply.specs.Laid.{flat, holding};
ghost use Rattle.reply.specs.Slots.{slot_bytes, slot_of};
ghost use Rattle.steps.specs.Parts.{path_of, offered, waiting};

use crate::room::{write_slot, zero_bytes};
use crate::walk::End;
use order::slots;
use reply::Slot;
use rows::has;

// Puts in slot t the child of s's path by place i.
fn put_child(room: &mut [u8], t: usize, s: [u8; Slot::BYTES], i: u8)
    requires { (slot_bytes * t + slot_bytes ≤ length room.old) × (get_or s 0 0 < bundle_most) }
    ensures { room.new ≡ paste room.old (slot_bytes * t) (set (set s (get_or s 0 0 + 1) i) 0 (get_or s 0 0 + 1)) slot_bytes }
{
    let len = s[0] as usize;
    write_slot(room, t, s);
    room[Slot::BYTES * t + (len + 1)] = i;
    room[Slot::BYTES * t] = s[0] + 1;
}

// Lays the children of s's path by the places of a row in the slots from m on, and returns how many slots are then in use. By number, since
// those are laid that are below n, and the row may have more.
fn lay_row(room: &mut [u8], m: usize, s: [u8; Slot::BYTES], row: u64, n: u8) -> usize
    requires s_value { (s ≡ slot_of (path_of s)) × (length (path_of s) < bundle_most) }
    requires s_in_bounds { slot_bytes * (m + length (offered n row (path_of s))) ≤ length room.old }
    ensures count { result ≡ m + length (offered n row (path_of s)) }
    ensures room { room.new ≡ take (slot_bytes * m) room.old ++ (flat (offered n row (path_of s)) ++ drop (slot_bytes * result) room.old) }
{
    let mut top = m;
    for i in 0..n {
        if has(row, i) {
            put_child(room, top, s, i);
            top += 1;
        }
    }
    top
}

// Lays what waits at the end of a walk in the slots from the first on, and returns how many paths wait.
fn lay(room: &mut [u8], n: u8, end: End) -> usize
    requires depths_le_bundle_most { end.depths ≤ bundle_most }
    requires depths_in_bounds { slot_bytes * length (waiting n end.levels end.place end.depths) ≤ length room.old }
    ensures count { result ≡ length (waiting n end.levels end.place end.depths) }
    ensures room { room.new ≡ flat (waiting n end.levels end.place end.depths) ++ drop (slot_bytes * result) room.old }
{
    let mut s = [0u8; Slot::BYTES];
    let mut m = 0;
    for k in 0..end.depths {
        m = lay_row(room, m, s, end.levels[k].ahead, n);
        s[k + 1] = end.place[k];
        s[0] = (k + 1) as u8;
    }
    m
}

// Leaves what waits at the end of a walk in the needed slots, and zeros above it.
pub(crate) fn leave(room: &mut [u8], n: u8, end: End)
    requires n_le_bundle_most { (n ≤ bundle_most) × (end.depths ≤ bundle_most) }
    requires depths_len_bound { (length (waiting n end.levels end.place end.depths) ≤ slots_of n) × (slot_bytes * slots_of n ≤ length room.old) }
    ensures { room.new ≡ holding n (waiting n end.levels end.place end.depths) room.old }
{
    let waiting = lay(room, n, end);
    zero_bytes(
        room,
        Slot::BYTES * waiting,
        Slot::BYTES * (slots(n) as usize),
    );
}

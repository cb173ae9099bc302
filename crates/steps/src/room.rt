// Writing to the lent room.
ghost use Rattle.std.specs.Prelude.{◌++◌, ◌≡◌, ◌+◌, ◌-◌, ◌*◌, ◌≤◌, length, take, drop, replicate};
ghost use Rattle.std.proofs.Math.Seq.{paste};
ghost use Rattle.reply.specs.Slots.{slot_bytes};

use reply::Slot;

// Puts s in slot t.
pub(crate) fn write_slot(room: &mut [u8], t: usize, s: [u8; Slot::BYTES])
    requires { slot_bytes * t + slot_bytes ≤ length room.old }
    ensures { room.new ≡ paste room.old (slot_bytes * t) s slot_bytes }
{
    let at = Slot::BYTES * t;
    room[at..at + Slot::BYTES].copy_from_slice(&s);
}

// Zeros from byte a to byte e.
pub(crate) fn zero_bytes(room: &mut [u8], a: usize, e: usize)
    requires { (a ≤ e) × (e ≤ length room.old) }
    ensures { room.new ≡ take a room.old ++ (replicate (e - a) 0 ++ drop e room.old) }
{
    room[a..e].fill(0);
}

// Runs of lent slots: they shift by one, are filled, copied, compared, added up and cleared. No law stands here: those of `slots` are cited.
// Slots, head, from and to come one by one, in the other files too: the calls above have them apart, and a struct of them would be made for one call.
#![tactic(auto)]

pub mod copy; // copy.rt: numbers laid into positions, from a lent part or another ring
pub mod compare; // compare.rt: whether two lent parts, or the entries of two rings, are equal
pub mod bring; // bring.rt: numbers laid into slots and added up in one pass
pub mod total; // total.rt: what entries add up to, and the total that a state keeps
pub mod clear; // clear.rt: what freed entries added up to, and 0 in their slots
mod halves; // halves.rt: a sum by halves
mod parted; // parted.rt: the two runs of slots that a ring's positions stand in

ghost use Rattle.std.specs.Prelude.{◌≡◌, ◌+◌, ◌-◌, ◌<◌, ◌≤◌, length};
ghost use Rattle.slots.specs.Layout.{slot_of, itself};
ghost use Rattle.slots.specs.Shift.{MovedDown, MovedUp, Filled, Span, Reach};
ghost use Rattle.runs.specs.Width.{entry_of};

use crate::parted::parted;

// A count as an entry: its low 32 bits. Those that come here, lengths of a container and of its text, are smaller.
// `u32::try_from` would want an answer for a larger one, and there is none to give.
pub fn word(n: usize) -> u32
    ensures { result ≡ entry_of n }
{
    (n % 4294967296) as u32
}

// Slots from .. to take what the next slot holds.
pub fn run_down(slots: &mut [u32], from: usize, to: usize)
    requires { (from ≤ to) × (to < length slots.old) }
    ensures { MovedDown itself from to slots.old slots.new }
{
    slots[from..to + 1].copy_within(1.., 0);
}

// Slots past from, up to and with to, take what the one before holds.
pub fn run_up(slots: &mut [u32], from: usize, to: usize)
    requires { (from ≤ to) × (to < length slots.old) }
    ensures { MovedUp itself from to slots.old slots.new }
{
    slots[from..to + 1].copy_within(..to - from, 1);
}

// Slots from .. to hold x. By a loop: the library's `fill` stores the last slot by itself, and of 16 LLVM then stores eight at once and seven one by one.
pub fn run_fill(slots: &mut [u32], from: usize, to: usize, x: u32)
    requires { (from ≤ to) × (to ≤ length slots.old) }
    ensures { Filled itself from to x slots.old slots.new }
{
    let part = &mut slots[from..to];
    for slot in part.iter_mut() {
        *slot = x;
    }
}

// A ring's positions from .. to take what the next position holds, the lowest first.
pub fn shift_down(slots: &mut [u32], head: usize, from: usize, to: usize)
    requires { Span (length slots.old) head from to }
    ensures { MovedDown (slot_of (length slots.old) head) from to slots.old slots.new }
{
    let runs = parted(slots.len(), head, from, to + 1);
    run_down(slots, runs.start, runs.end - 1);
    if runs.rest == 0 {
        return;
    }
    slots[runs.end - 1] = slots[0];
    run_down(slots, 0, runs.rest - 1);
}

// A ring's positions past from, up to and with to, take what the one before holds, the highest first.
pub fn shift_up(slots: &mut [u32], head: usize, from: usize, to: usize)
    requires { Span (length slots.old) head from to }
    ensures { MovedUp (slot_of (length slots.old) head) from to slots.old slots.new }
{
    let runs = parted(slots.len(), head, from, to + 1);
    if 0 < runs.rest {
        run_up(slots, 0, runs.rest - 1);
        slots[0] = slots[runs.end - 1];
    }
    run_up(slots, runs.start, runs.end - 1);
}

// A ring's positions from .. to hold x.
pub fn fill(slots: &mut [u32], head: usize, from: usize, to: usize, x: u32)
    requires { Reach (length slots.old) head from to }
    ensures { Filled (slot_of (length slots.old) head) from to x slots.old slots.new }
{
    let runs = parted(slots.len(), head, from, to);
    run_fill(slots, runs.start, runs.end, x);
    if runs.rest == 0 {
        return;
    }
    run_fill(slots, 0, runs.rest, x);
}

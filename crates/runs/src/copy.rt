// Runs of numbers that are laid into a container's positions, from a lent part or from another ring.
ghost use Rattle.std.specs.Prelude.{◌+◌, ◌<◌, ◌≤◌, length};
ghost use Rattle.slots.specs.Layout.{most, slot_of, itself, entries};
ghost use Rattle.slots.specs.Shift.{Reach};
ghost use Rattle.slots.specs.Copy.{Laid};

use crate::parted::parted;

// Slots from at on take the first count numbers of the part.
pub fn run_copy(slots: &mut [u32], at: usize, part: &[u32], count: usize)
    requires { (at + count ≤ length slots.old) × (count ≤ length part.now) × (count ≤ most) }
    ensures { Laid itself at count part.now slots.old slots.new }
{
    slots[at..at + count].copy_from_slice(&part[..count]);
}

// A ring's positions from at on take the first count numbers of the part.
fn lay(slots: &mut [u32], head: usize, at: usize, part: &[u32], count: usize)
    requires { Reach (length slots.old) head at (at + count) × (count ≤ length part.now) }
    ensures { Laid (slot_of (length slots.old) head) at count part.now slots.old slots.new }
{
    let runs = parted(slots.len(), head, at, at + count);
    let near = runs.end - runs.start;
    run_copy(slots, runs.start, part, near);
    if runs.rest == 0 {
        return;
    }
    run_copy(slots, 0, &part[near..], runs.rest);
}

// A ring's positions from at on take the first count entries of another ring, whose slots they leave as they are.
pub fn carry(slots: &mut [u32], head: usize, at: usize, theirs: &[u32], first: usize, count: usize)
    requires { Reach (length slots.old) head at (at + count) × (first < length theirs.now) × (count ≤ length theirs.now) }
    ensures { Laid (slot_of (length slots.old) head) at count (entries (slot_of (length theirs.now) first) count theirs.now) slots.old slots.new }
{
    let gap = theirs.len() - first;
    if count <= gap {
        lay(slots, head, at, &theirs[first..], count);
        return;
    }
    lay(slots, head, at, &theirs[first..], gap);
    lay(slots, head, at + gap, theirs, count - gap);
}

// Entries that are freed: what they added up to, and 0 in their slots, by one pass.
ghost use Rattle.std.specs.Prelude.{◌≡◌, ◌^◌, ◌≤◌, length, drop};
ghost use Rattle.slots.specs.Layout.{most, slot_of, itself, entries};
ghost use Rattle.slots.specs.Shift.{Reach, Filled};
ghost use Rattle.slots.specs.Total.{total};

use crate::halves::Halves;
use crate::parted::parted;
use crate::total::Total;

// What the numbers of a part added up to, and all of it holds 0.
fn clean(part: &mut [u32]) -> u64
    requires { length part.old ≤ most }
    ensures { (result ≡ total part.old) × Filled itself 0 (length part.old) 0 part.old part.new × (result ≤ 2 ^ 45) }
{
    let mut halves = Halves::none();
    for slot in part.iter_mut() {
        halves = halves.with(*slot);
        *slot = 0;
    }
    halves.whole()
}

// What slots from .. to added up to, and they hold 0. That two such sums don't wrap, `ring_clear` needs to know.
pub fn run_clear(slots: &mut [u32], from: usize, to: usize) -> Total
    requires { (length slots.old ≤ most) × (from ≤ to) × (to ≤ length slots.old) }
    ensures { (result.sum ≡ total (drop from (entries itself to slots.old))) × Filled itself from to 0 slots.old slots.new × (result.sum ≤ 2 ^ 45) }
{
    let sum = clean(&mut slots[from..to]);
    Total { sum }
}

// The same of a ring's positions from .. to.
pub fn ring_clear(slots: &mut [u32], head: usize, from: usize, to: usize) -> Total
    requires { Reach (length slots.old) head from to }
    ensures { (result.sum ≡ total (drop from (entries (slot_of (length slots.old) head) to slots.old))) × Filled (slot_of (length slots.old) head) from to 0 slots.old slots.new }
{
    let runs = parted(slots.len(), head, from, to);
    let far = run_clear(slots, runs.start, runs.end);
    if runs.rest == 0 {
        return far;
    }
    let near = run_clear(slots, 0, runs.rest);
    Total {
        sum: far.sum + near.sum,
    }
}

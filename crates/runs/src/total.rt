// What a container's entries add up to, as its state keeps it. Nothing else changes a total, so a width whose entries are not added up can leave it, and these bodies,
// empty. A container has at most 4,096 entries of 32 bits: what they add up to is exact, and only the total that was given can wrap.
// They are functions of the module, since most make a total out of numbers or slots and have none before.
#![tactic(auto, using(slots::proofs::Totals::sum_run, slots::proofs::Parted::sum_parted), unfolding(slots::specs::Total::changed))]

ghost use Rattle.std.specs.Prelude.{◌≡◌, ◌*◌, ◌^◌, ◌≤◌, length, drop};
ghost use Rattle.slots.specs.Layout.{most, slot_of, itself, entries};
ghost use Rattle.slots.specs.Shift.{Reach};
ghost use Rattle.slots.specs.Total.{total, changed};

use crate::parted::parted;

#[derive(Clone, Copy)]
pub struct Total {
    pub sum: u64,
}

// The total of no entries.
pub fn none() -> Total
    ensures { result.sum ≡ 0 }
{
    Total { sum: 0 }
}

// One entry was put in, or taken out, or one for another.
pub fn put(total: Total, x: u32) -> Total
    ensures { result.sum ≡ changed total.sum x 0 }
{
    Total {
        sum: total.sum.wrapping_add(u64::from(x)),
    }
}

pub fn took(total: Total, x: u32) -> Total
    ensures { result.sum ≡ changed total.sum 0 x }
{
    Total {
        sum: total.sum.wrapping_sub(u64::from(x)),
    }
}

pub fn traded(total: Total, x: u32, old: u32) -> Total
    ensures { result.sum ≡ changed total.sum x old }
{
    Total {
        sum: total
            .sum
            .wrapping_add(u64::from(x))
            .wrapping_sub(u64::from(old)),
    }
}

// Several were, and add up to `by`.
pub fn more(total: Total, by: Total) -> Total
    ensures { result.sum ≡ changed total.sum by.sum 0 }
{
    Total {
        sum: total.sum.wrapping_add(by.sum),
    }
}

pub fn less(total: Total, by: Total) -> Total
    ensures { result.sum ≡ changed total.sum 0 by.sum }
{
    Total {
        sum: total.sum.wrapping_sub(by.sum),
    }
}

// What `count` entries x add up to.
pub fn times(count: usize, x: u32) -> Total
    requires { count ≤ most }
    ensures { result.sum ≡ count * x }
{
    Total {
        sum: count as u64 * u64::from(x),
    }
}

// What the numbers of a part add up to. Of this chain LLVM makes additions of several numbers at once.
fn added(part: &[u32]) -> u64
    requires { length part.now ≤ most }
    ensures { (result ≡ total part.now) × (result ≤ 2 ^ 44) }
{
    part.iter().map(|x| u64::from(*x)).sum()
}

pub fn part(part: &[u32]) -> Total
    requires { length part.now ≤ most }
    ensures { result.sum ≡ total part.now }
{
    let sum = added(part);
    Total { sum }
}

// What slots from .. to add up to.
pub fn run(slots: &[u32], from: usize, to: usize) -> Total
    requires { (length slots.now ≤ most) × (from ≤ to) × (to ≤ length slots.now) }
    ensures { result.sum ≡ total (drop from (entries itself to slots.now)) }
{
    let sum = added(&slots[from..to]);
    Total { sum }
}

// What a ring's positions from .. to add up to.
pub fn ring(slots: &[u32], head: usize, from: usize, to: usize) -> Total
    requires { Reach (length slots.now) head from to }
    ensures { result.sum ≡ total (drop from (entries (slot_of (length slots.now) head) to slots.now)) }
{
    let runs = parted(slots.len(), head, from, to);
    Total {
        sum: added(&slots[runs.start..runs.end]) + added(&slots[..runs.rest]),
    }
}

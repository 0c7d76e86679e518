// Numbers that are laid into slots and added up on the way, in one pass: a call that copies entries reads each of them once.
ghost use Rattle.std.specs.Prelude.{◌≡◌, ◌+◌, ◌-◌, ◌^◌, ◌≤◌, length, drop};
ghost use Rattle.slots.specs.Layout.{most, slot_of, itself, entries};
ghost use Rattle.slots.specs.Shift.{Reach};
ghost use Rattle.slots.specs.Copy.{Laid};
ghost use Rattle.slots.specs.Total.{total};

use crate::halves::Halves;
use crate::parted::parted;
use crate::total::Total;

// Slots from at on take the numbers of a part. A few are added up plainly: by halves an extend of so few is slower, by 5.4 ns to 3.8 at 16 (bench/TRIED.md).
fn few(slots: &mut [u32], at: usize, part: &[u32]) -> u64
    requires { (at + length part.now ≤ length slots.old) × (length part.now ≤ most) }
    ensures { Laid itself at (length part.now) part.now slots.old slots.new × (result ≡ total part.now) × (result ≤ 2 ^ 45) }
{
    let mut sum: u64 = 0;
    for (k, x) in part.iter().enumerate() {
        slots[at + k] = *x;
        sum += u64::from(*x);
    }
    sum
}

// The same by halves, and for many that is quicker.
fn many(slots: &mut [u32], at: usize, part: &[u32]) -> u64
    requires { (at + length part.now ≤ length slots.old) × (length part.now ≤ most) }
    ensures { Laid itself at (length part.now) part.now slots.old slots.new × (result ≡ total part.now) × (result ≤ 2 ^ 45) }
{
    let mut halves = Halves::none();
    for (k, x) in part.iter().enumerate() {
        slots[at + k] = *x;
        halves = halves.with(*x);
    }
    halves.whole()
}

// Within its callers, and so `bring_run`: by calls of their own, from_iter of a vector takes up to 24 bytes of stack more.
#[inline(always)]
fn laid(slots: &mut [u32], at: usize, part: &[u32]) -> u64
    requires { (at + length part.now ≤ length slots.old) × (length part.now ≤ most) }
    ensures { Laid itself at (length part.now) part.now slots.old slots.new × (result ≡ total part.now) × (result ≤ 2 ^ 45) }
{
    if part.len() < 32 {
        return few(slots, at, part);
    }
    many(slots, at, part)
}

// Slots from at on take the numbers of a part, which add up to the total that is told.
pub fn bring_part(slots: &mut [u32], at: usize, part: &[u32]) -> Total
    requires { (at + length part.now ≤ length slots.old) × (length part.now ≤ most) }
    ensures { Laid itself at (length part.now) part.now slots.old slots.new × (result.sum ≡ total part.now) }
{
    let sum = laid(slots, at, part);
    Total { sum }
}

// The same of slots from .. to of another run.
#[inline(always)]
pub fn bring_run(slots: &mut [u32], at: usize, theirs: &[u32], from: usize, to: usize) -> Total
    requires { (at + (to - from) ≤ length slots.old) × (length theirs.now ≤ most) × (from ≤ to) × (to ≤ length theirs.now) }
    ensures { Laid itself at (to - from) (drop from (entries itself to theirs.now)) slots.old slots.new × (result.sum ≡ total (drop from (entries itself to theirs.now))) }
{
    let sum = laid(slots, at, &theirs[from..to]);
    Total { sum }
}

// Slots from 0 on take what stands at a ring's positions from .. to.
pub fn bring_ring(slots: &mut [u32], theirs: &[u32], head: usize, from: usize, to: usize) -> Total
    requires { Reach (length theirs.now) head from to × (to - from ≤ length slots.old) }
    ensures { Laid itself 0 (to - from) (drop from (entries (slot_of (length theirs.now) head) to theirs.now)) slots.old slots.new × (result.sum ≡ total (drop from (entries (slot_of (length theirs.now) head) to theirs.now))) }
{
    let runs = parted(theirs.len(), head, from, to);
    let far = laid(slots, 0, &theirs[runs.start..runs.end]);
    let near = laid(slots, runs.end - runs.start, &theirs[..runs.rest]);
    Total { sum: far + near }
}

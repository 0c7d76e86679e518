// Whether the first numbers of two lent parts, or the first entries of a ring and of a part or another ring, are the same in the same order: run by run.
// A count beside two parts: cut to it, both would have to be of one length, which each function would ask in its place.
ghost use Rattle.std.specs.Prelude.{◌+◌, ◌-◌, ◌≤◌, length, take, drop};
ghost use Rattle.slots.specs.Layout.{most, slot_of, itself, entries};
ghost use Rattle.slots.specs.Compare.{Tells};

use slots::slot;

// A few numbers, one by one: it ends at the first difference.
fn few(ours: &[u32], theirs: &[u32], count: usize) -> bool
    requires { (count ≤ length ours.now) × (count ≤ length theirs.now) }
    ensures { Tells result (take count ours.now) (take count theirs.now) }
{
    for k in 0..count {
        if ours[k] != theirs[k] {
            return false;
        }
    }
    true
}

// N numbers from at on, of which LLVM compares all at once: there is no exit inside. The library's `==`, sixteen at a time in a function of its own, was tried for all of this:
// faster at 256 and 4,096, but sameness with a vector at 16 went from 0.89 to 1.28 of the time by hand, where 1.00 is to be reached.
fn block<const N: usize>(ours: &[u32], theirs: &[u32], at: usize) -> bool
    requires { (at + N ≤ length ours.now) × (at + N ≤ length theirs.now) }
    ensures { Tells result (take N (drop at ours.now)) (take N (drop at theirs.now)) }
{
    let mut alike = true;
    for j in 0..N {
        alike = alike & (ours[at + j] == theirs[at + j]);
    }
    alike
}

// Up to eight numbers: the first four and the last four, whatever these share.
fn short(ours: &[u32], theirs: &[u32], count: usize) -> bool
    requires { (count ≤ length ours.now) × (count ≤ length theirs.now) × (count ≤ 8) }
    ensures { Tells result (take count ours.now) (take count theirs.now) }
{
    if count < 4 {
        return few(ours, theirs, count);
    }
    block::<4>(ours, theirs, 0) & block::<4>(ours, theirs, count - 4)
}

// The first count numbers of two parts: eight by eight, and at the end the last eight, whatever these share with those before.
// Counted by hand: of `for k in (0..last).step_by(8)` LLVM makes a loop with two tests a turn besides the comparison, where this has one.
pub fn firsts(ours: &[u32], theirs: &[u32], count: usize) -> bool
    requires { (count ≤ length ours.now) × (count ≤ length theirs.now) }
    ensures { Tells result (entries itself count ours.now) (entries itself count theirs.now) }
{
    if count < 8 {
        return short(ours, theirs, count);
    }
    let last = count - 8;
    let mut k = 0;
    while k < last {
        if !block::<8>(ours, theirs, k) {
            return false;
        }
        k += 8;
    }
    block::<8>(ours, theirs, last)
}

// The first count entries of a ring, and the first count numbers of a part: a run of slots, or one to the last slot and one from slot 0.
// It and `rings` within their callers: where a head is 0 there are fewer pairs of runs, and for 16 entries a call of its own is a sixth more instructions.
#[inline(always)]
pub fn ring_with(slots: &[u32], head: usize, part: &[u32], count: usize) -> bool
    requires { (head ≤ length slots.now) × (count ≤ length slots.now) × (count ≤ length part.now) }
    ensures { Tells result (entries (slot_of (length slots.now) head) count slots.now) (entries itself count part.now) }
{
    let gap = slots.len() - head;
    if count <= gap {
        return firsts(&slots[head..], part, count);
    }
    firsts(&slots[head..], part, gap) && firsts(slots, &part[gap..], count - gap)
}

// The first count entries of two rings, each with a head of its own: up to three pairs of runs.
#[inline(always)]
pub fn rings(slots: &[u32], head: usize, theirs: &[u32], first: usize, count: usize) -> bool
    requires { (length slots.now ≤ most) × (head ≤ length slots.now - 1) × (first ≤ length theirs.now) × (count ≤ length slots.now) × (count ≤ length theirs.now) }
    ensures { Tells result (entries (slot_of (length slots.now) head) count slots.now) (entries (slot_of (length theirs.now) first) count theirs.now) }
{
    let gap = theirs.len() - first;
    if count <= gap {
        return ring_with(slots, head, &theirs[first..], count);
    }
    ring_with(slots, head, &theirs[first..], gap)
        && ring_with(slots, slot(slots.len(), head, gap), theirs, count - gap)
}

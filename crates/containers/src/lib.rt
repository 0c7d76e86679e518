// What a ring and a vector have in common, as a trait: a call that is the same for both is written, and proved, once.
// A state and its slots come one by one, as C passes them: the state goes by value, the slots are lent for one call.
#![tactic(auto)]

ghost use Rattle.std.specs.Prelude.{refl, ◌≡◌, ◌+◌, ◌-◌, ◌^◌, ◌<◌, ◌≤◌, ◌&&◌, ltb, leb, length, drop};
ghost use Rattle.slots.specs.Layout.{ring, vector, most, place, itself, entries};
ghost use Rattle.slots.specs.Shift.{Reach, Filled};
ghost use Rattle.slots.specs.Copy.{Laid};
ghost use Rattle.slots.specs.Total.{total};
ghost use Rattle.table.specs.Tested.{gate, Tested, Stopped};
ghost use Rattle.containers.specs.Reading.{Reading, head_of, Left};

use ring::Ring;
use runs::total::Total;
use vector::Vector;

pub trait Container: Copy {
    // How its state is read: which kind it is of, its head, which is 0 of a vector, how many entries it has, and their total.
    ghost reads: { Reading Self };

    fn len(self) -> usize
        ensures { result ≡ reads.size self };

    fn head(self) -> usize
        ensures { result ≡ reads.head self };

    // That it has 64 bits is said here, since a proof would have to look far for it.
    fn total(self) -> Total
        ensures { (result.sum ≡ reads.sum self) × (reads.sum self < 2 ^ 64) };

    // Whether the state is none of a container on so many slots.
    fn is_invalid(self, cap: usize) -> bool
        ensures { Tested reads.kind cap (reads.head self) (reads.size self) result };

    // Whether that, or a cursor over it has no step: it is astray or has ended.
    fn has_no_step(self, cap: usize, front: usize, back: usize) -> bool
        ensures { Stopped reads.kind cap (reads.head self) (reads.size self) (ltb front back && leb back (reads.size self)) result × (front < back + gate result) × (back ≤ reads.size self + gate result) };

    // The state with so many entries left, which add up to this: a ring that is left with none starts at slot 0.
    fn left(self, len: usize, total: Total) -> Self
        ensures { Left reads self len total.sum result };

    // The slot of a position.
    fn slot(self, cap: usize, at: usize) -> usize
        requires { (cap ≤ most) × (reads.head self < cap) × (at < cap) }
        ensures { (result ≡ place reads.kind cap (reads.head self) at) × (result < cap) };

    // Slots from 0 on take the entries at positions from .. to, and what these add up to is told.
    fn bring(self, slots: &[u32], from: usize, to: usize, theirs: &mut [u32]) -> Total
        requires { Reach (length slots.now) (reads.head self) from to × (to - from ≤ length theirs.old) }
        ensures { Laid itself 0 (to - from) (drop from (entries (place reads.kind (length slots.now) (reads.head self)) to slots.now)) theirs.old theirs.new × (result.sum ≡ total (drop from (entries (place reads.kind (length slots.now) (reads.head self)) to slots.now))) };

    // Positions from `at` on take the entries at positions from .. to of another container, whose slots are emptied there. What goes over adds up to what is told.
    fn take_over(
        self,
        slots: &mut [u32],
        at: usize,
        other: Self,
        theirs: &mut [u32],
        from: usize,
        to: usize,
    ) -> Total
        requires { Reach (length slots.old) (reads.head self) at (at + (to - from)) × Reach (length theirs.old) (reads.head other) from to }
        ensures { Laid (place reads.kind (length slots.old) (reads.head self)) at (to - from) (drop from (entries (place reads.kind (length theirs.old) (reads.head other)) to theirs.old)) slots.old slots.new × Filled (place reads.kind (length theirs.old) (reads.head other)) from to 0 theirs.old theirs.new × (result.sum ≡ total (drop from (entries (place reads.kind (length theirs.old) (reads.head other)) to theirs.old))) };

    // A vector has no head.
    ghost headed: { (c : Self) → head_of reads.kind (reads.head c) ≡ reads.head c };
}

impl Container for Ring {
    ghost reads = { record { kind = ring; head = λ r. r.head; size = λ r. r.len; sum = λ r. r.total.sum } };

    ghost headed = { λ c. refl };

    fn len(self) -> usize {
        self.len
    }

    fn head(self) -> usize {
        self.head
    }

    fn total(self) -> Total {
        self.total
    }

    fn is_invalid(self, cap: usize) -> bool {
        table::invalid_ring(cap, self.head, self.len)
    }

    fn has_no_step(self, cap: usize, front: usize, back: usize) -> bool {
        table::invalid_ring_or_no_step(cap, self.head, self.len, front, back)
    }

    fn left(self, len: usize, total: Total) -> Ring {
        ring::left(self.head, len, total)
    }

    fn slot(self, cap: usize, at: usize) -> usize {
        slots::slot(cap, self.head, at)
    }

    fn bring(self, slots: &[u32], from: usize, to: usize, theirs: &mut [u32]) -> Total {
        runs::bring::bring_ring(theirs, slots, self.head, from, to)
    }

    fn take_over(
        self,
        slots: &mut [u32],
        at: usize,
        other: Ring,
        theirs: &mut [u32],
        from: usize,
        to: usize,
    ) -> Total {
        let start = slots::slot(theirs.len(), other.head, from);
        runs::copy::carry(slots, self.head, at, theirs, start, to - from);
        runs::clear::ring_clear(theirs, other.head, from, to)
    }
}

impl Container for Vector {
    ghost reads = { record { kind = vector; head = λ v. 0; size = λ v. v.len; sum = λ v. v.total.sum } };

    ghost headed = { λ c. refl };

    fn len(self) -> usize {
        self.len
    }

    fn head(self) -> usize {
        0
    }

    fn total(self) -> Total {
        self.total
    }

    fn is_invalid(self, cap: usize) -> bool {
        table::invalid_vector(cap, self.len)
    }

    fn has_no_step(self, cap: usize, front: usize, back: usize) -> bool {
        table::invalid_vector_or_no_step(cap, self.len, front, back)
    }

    fn left(self, len: usize, total: Total) -> Vector {
        vector::state(len, total)
    }

    fn slot(self, _cap: usize, at: usize) -> usize {
        at
    }

    // It and `take_over` within their callers: by calls of their own, from_iter and split_off of 16 entries take a fifteenth and a sixth more instructions, and 16 bytes of stack more.
    #[inline(always)]
    fn bring(self, slots: &[u32], from: usize, to: usize, theirs: &mut [u32]) -> Total {
        runs::bring::bring_run(theirs, 0, slots, from, to)
    }

    #[inline(always)]
    fn take_over(
        self,
        slots: &mut [u32],
        at: usize,
        other: Vector,
        theirs: &mut [u32],
        from: usize,
        to: usize,
    ) -> Total {
        runs::copy::run_copy(slots, at, &theirs[from..], to - from);
        runs::clear::run_clear(theirs, from, to)
    }
}

// The comparisons: of two rings, of two vectors, of a ring with a vector. They only look, so neither states nor slots are written.
ghost use Rattle.slots.specs.Layout.{ring, vector};
ghost use Rattle.table.specs.Calls.{same};
ghost use Rattle.tumbrelice.specs.Heard.{Hears2, ring_of, vector_of};

use super::{ring_in, vector_in, word};
use table::answers::{Both, in_numbers};

pub fn tum_ring_same(slots: &[u32], state: &[u64; 3], theirs: &[u32], other: &[u64; 3]) -> u64
    ensures { Hears2 ring ring same (ring_of state.now slots.now) (ring_of other.now theirs.now) result (ring_of state.now slots.now) (ring_of other.now theirs.now) }
{
    let r = ring_in(state);
    let t = ring_in(other);
    let a = in_numbers(
        Both {
            first: r,
            second: t,
        },
        pairs::same(r, slots, t, theirs),
    );
    word(a)
}

pub fn tum_vector_equal(slots: &[u32], state: &[u64; 2], theirs: &[u32], other: &[u64; 2]) -> u64
    ensures { Hears2 vector vector same (vector_of state.now slots.now) (vector_of other.now theirs.now) result (vector_of state.now slots.now) (vector_of other.now theirs.now) }
{
    let v = vector_in(state);
    let t = vector_in(other);
    let a = in_numbers(
        Both {
            first: v,
            second: t,
        },
        pairs::same(v, slots, t, theirs),
    );
    word(a)
}

pub fn tum_ring_same_as_vector(
    slots: &[u32],
    state: &[u64; 3],
    theirs: &[u32],
    other: &[u64; 2],
) -> u64
    ensures { Hears2 ring vector same (ring_of state.now slots.now) (vector_of other.now theirs.now) result (ring_of state.now slots.now) (vector_of other.now theirs.now) }
{
    let r = ring_in(state);
    let v = vector_in(other);
    let a = in_numbers(
        Both {
            first: r,
            second: v,
        },
        pairs::same(r, slots, v, theirs),
    );
    word(a)
}

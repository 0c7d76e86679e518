// The calls that change two containers of one kind, the one named first and T. A refused call stores no state.
ghost use Rattle.slots.specs.Layout.{ring, vector};
ghost use Rattle.table.specs.Calls.{append, split_off, clone};
ghost use Rattle.tumbrelice.specs.Heard.{Hears2, ring_of, vector_of};

use super::{ring_in, ring_out, vector_in, vector_out, word};
use table::answers::{Both, in_numbers};

pub fn tum_ring_append(
    slots: &mut [u32],
    state: &mut [u64; 3],
    theirs: &mut [u32],
    other: &mut [u64; 3],
) -> u64
    ensures { Hears2 ring ring append (ring_of state.old slots.old) (ring_of other.old theirs.old) result (ring_of state.new slots.new) (ring_of other.new theirs.new) }
{
    let r = ring_in(state);
    let t = ring_in(other);
    let a = in_numbers(
        Both {
            first: r,
            second: t,
        },
        pairs::append(r, slots, t, theirs),
    );
    ring_out(state, a.number, a.state.first);
    ring_out(other, a.number, a.state.second);
    word(a)
}

pub fn tum_ring_split_off(
    slots: &mut [u32],
    state: &mut [u64; 3],
    i: usize,
    theirs: &mut [u32],
    other: &mut [u64; 3],
) -> u64
    ensures { Hears2 ring ring (split_off i) (ring_of state.old slots.old) (ring_of other.old theirs.old) result (ring_of state.new slots.new) (ring_of other.new theirs.new) }
{
    let r = ring_in(state);
    let t = ring_in(other);
    let a = in_numbers(
        Both {
            first: r,
            second: t,
        },
        pairs::split_off(r, slots, i, t, theirs),
    );
    ring_out(state, a.number, a.state.first);
    ring_out(other, a.number, a.state.second);
    word(a)
}

pub fn tum_ring_clone(
    slots: &[u32],
    state: &[u64; 3],
    theirs: &mut [u32],
    other: &mut [u64; 3],
) -> u64
    ensures { Hears2 ring ring clone (ring_of state.now slots.now) (ring_of other.old theirs.old) result (ring_of state.now slots.now) (ring_of other.new theirs.new) }
{
    let r = ring_in(state);
    let t = ring_in(other);
    let a = in_numbers(
        Both {
            first: r,
            second: t,
        },
        pairs::clone(r, slots, t, theirs),
    );
    ring_out(other, a.number, a.state.second);
    word(a)
}

pub fn tum_vector_append(
    slots: &mut [u32],
    state: &mut [u64; 2],
    theirs: &mut [u32],
    other: &mut [u64; 2],
) -> u64
    ensures { Hears2 vector vector append (vector_of state.old slots.old) (vector_of other.old theirs.old) result (vector_of state.new slots.new) (vector_of other.new theirs.new) }
{
    let v = vector_in(state);
    let t = vector_in(other);
    let a = in_numbers(
        Both {
            first: v,
            second: t,
        },
        pairs::append(v, slots, t, theirs),
    );
    vector_out(state, a.number, a.state.first);
    vector_out(other, a.number, a.state.second);
    word(a)
}

pub fn tum_vector_split_off(
    slots: &mut [u32],
    state: &mut [u64; 2],
    i: usize,
    theirs: &mut [u32],
    other: &mut [u64; 2],
) -> u64
    ensures { Hears2 vector vector (split_off i) (vector_of state.old slots.old) (vector_of other.old theirs.old) result (vector_of state.new slots.new) (vector_of other.new theirs.new) }
{
    let v = vector_in(state);
    let t = vector_in(other);
    let a = in_numbers(
        Both {
            first: v,
            second: t,
        },
        pairs::split_off(v, slots, i, t, theirs),
    );
    vector_out(state, a.number, a.state.first);
    vector_out(other, a.number, a.state.second);
    word(a)
}

pub fn tum_vector_clone(
    slots: &[u32],
    state: &[u64; 2],
    theirs: &mut [u32],
    other: &mut [u64; 2],
) -> u64
    ensures { Hears2 vector vector clone (vector_of state.now slots.now) (vector_of other.old theirs.old) result (vector_of state.now slots.now) (vector_of other.new theirs.new) }
{
    let v = vector_in(state);
    let t = vector_in(other);
    let a = in_numbers(
        Both {
            first: v,
            second: t,
        },
        pairs::clone(v, slots, t, theirs),
    );
    vector_out(other, a.number, a.state.second);
    word(a)
}

// The makings: they write the state and read nothing of it. A refused one writes 0 everywhere.
ghost use Rattle.slots.specs.Layout.{ring, vector};
ghost use Rattle.table.specs.Calls.{new, with_capacity, from_elem};
ghost use Rattle.std.specs.Prelude.{◌≡◌};
ghost use Rattle.ring.specs.Seen.{bare_ring};
ghost use Rattle.vector.specs.Seen.{none};
ghost use Rattle.tumbrelice.specs.Heard.{HearsMade, ring_of, vector_of};

use super::{ring_made, vector_made, word};
use ring::Ring;
use runs::total;
use table::answers::in_numbers;
use vector::Vector;

pub fn tum_ring_new(slots: &[u32], state: &mut [u64; 3]) -> u64
    ensures { HearsMade ring new slots.now result (ring_of state.new slots.now) }
{
    let a = in_numbers(no_ring(), Ring::new(slots));
    *state = ring_made(a.state);
    word(a)
}

pub fn tum_ring_with_capacity(slots: &[u32], state: &mut [u64; 3], k: usize) -> u64
    ensures { HearsMade ring (with_capacity k) slots.now result (ring_of state.new slots.now) }
{
    let a = in_numbers(no_ring(), Ring::with_capacity(slots, k));
    *state = ring_made(a.state);
    word(a)
}

pub fn tum_vector_new(slots: &[u32], state: &mut [u64; 2]) -> u64
    ensures { HearsMade vector new slots.now result (vector_of state.new slots.now) }
{
    let a = in_numbers(no_vector(), Vector::new(slots));
    *state = vector_made(a.state);
    word(a)
}

pub fn tum_vector_with_capacity(slots: &[u32], state: &mut [u64; 2], k: usize) -> u64
    ensures { HearsMade vector (with_capacity k) slots.now result (vector_of state.new slots.now) }
{
    let a = in_numbers(no_vector(), Vector::with_capacity(slots, k));
    *state = vector_made(a.state);
    word(a)
}

pub fn tum_vector_from_elem(slots: &mut [u32], state: &mut [u64; 2], k: usize, x: u32) -> u64
    ensures { HearsMade vector (from_elem k x) slots.old result (vector_of state.new slots.new) }
{
    let a = in_numbers(no_vector(), Vector::from_elem(slots, k, x));
    *state = vector_made(a.state);
    word(a)
}

// What a refused making leaves: the state of no entries.
pub(crate) fn no_ring() -> Ring
    ensures { result ≡ bare_ring }
{
    ring::state(0, 0, total::none())
}

pub(crate) fn no_vector() -> Vector
    ensures { result ≡ none }
{
    vector::state(0, total::none())
}

// The comparisons: of two rings, of two vectors, of a ring with a vector. They only look, so neither states nor slots are written.
ghost use Rattle.slots.specs.Layout.{ring, vector};
ghost use Rattle.table.specs.Calls.{same};
ghost use Rattle.tumbrelice.specs.Heard.{Hears2, ring_of, vector_of};

#[unsafe(no_mangle)]
pub extern "C" fn tum_ring_same(
    slots: &[u32],
    state: &[u64; 3],
    theirs: &[u32],
    other: &[u64; 3],
) -> u64
    ensures { Hears2 ring ring same (ring_of state.now slots.now) (ring_of other.now theirs.now) result (ring_of state.now slots.now) (ring_of other.now theirs.now) }
{
    tumbrelice::compare::tum_ring_same(slots, state, theirs, other)
}

#[unsafe(no_mangle)]
pub extern "C" fn tum_vector_equal(
    slots: &[u32],
    state: &[u64; 2],
    theirs: &[u32],
    other: &[u64; 2],
) -> u64
    ensures { Hears2 vector vector same (vector_of state.now slots.now) (vector_of other.now theirs.now) result (vector_of state.now slots.now) (vector_of other.now theirs.now) }
{
    tumbrelice::compare::tum_vector_equal(slots, state, theirs, other)
}

#[unsafe(no_mangle)]
pub extern "C" fn tum_ring_same_as_vector(
    slots: &[u32],
    state: &[u64; 3],
    theirs: &[u32],
    other: &[u64; 2],
) -> u64
    ensures { Hears2 ring vector same (ring_of state.now slots.now) (vector_of other.now theirs.now) result (ring_of state.now slots.now) (vector_of other.now theirs.now) }
{
    tumbrelice::compare::tum_ring_same_as_vector(slots, state, theirs, other)
}

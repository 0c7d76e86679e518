// The makings: they write the state and read nothing of it. A refused one writes 0 everywhere.
ghost use Rattle.slots.specs.Layout.{ring, vector};
ghost use Rattle.table.specs.Calls.{new, with_capacity, from_elem};
ghost use Rattle.tumbrelice.specs.Heard.{HearsMade, ring_of, vector_of};

#[unsafe(no_mangle)]
pub extern "C" fn tum_ring_new(slots: &[u32], state: &mut [u64; 3]) -> u64
    ensures { HearsMade ring new slots.now result (ring_of state.new slots.now) }
{
    tumbrelice::makings::tum_ring_new(slots, state)
}

#[unsafe(no_mangle)]
pub extern "C" fn tum_ring_with_capacity(slots: &[u32], state: &mut [u64; 3], k: usize) -> u64
    ensures { HearsMade ring (with_capacity k) slots.now result (ring_of state.new slots.now) }
{
    tumbrelice::makings::tum_ring_with_capacity(slots, state, k)
}

#[unsafe(no_mangle)]
pub extern "C" fn tum_vector_new(slots: &[u32], state: &mut [u64; 2]) -> u64
    ensures { HearsMade vector new slots.now result (vector_of state.new slots.now) }
{
    tumbrelice::makings::tum_vector_new(slots, state)
}

#[unsafe(no_mangle)]
pub extern "C" fn tum_vector_with_capacity(slots: &[u32], state: &mut [u64; 2], k: usize) -> u64
    ensures { HearsMade vector (with_capacity k) slots.now result (vector_of state.new slots.now) }
{
    tumbrelice::makings::tum_vector_with_capacity(slots, state, k)
}

#[unsafe(no_mangle)]
pub extern "C" fn tum_vector_from_elem(
    slots: &mut [u32],
    state: &mut [u64; 2],
    k: usize,
    x: u32,
) -> u64
    ensures { HearsMade vector (from_elem k x) slots.old result (vector_of state.new slots.new) }
{
    tumbrelice::makings::tum_vector_from_elem(slots, state, k, x)
}

// The parts that a vector lends, as a first slot and a count, in a word of their own: the first slot in the low 32 bits, the count in the high 32. A caller in C
// has the slots, so nothing more is lent.
ghost use Rattle.std.specs.Prelude.{◌≡◌, ◌<◌};
ghost use Rattle.table.specs.Parts.{lends, lends_all};
ghost use Rattle.tumbrelice.specs.Heard.{vector_tray};
ghost use Rattle.tumbrelice.specs.HeardPart.{part_in, part_of};

// The part of that many slots from first on.
fn part(first: usize, count: usize) -> u64
    requires { (first < 4294967296) × (count < 4294967296) }
    ensures { part_in result ≡ part_of first count }
{
    count as u64 * 4294967296 + first as u64
}

pub fn tum_vector_range(slots: &[u32], state: &[u64; 2], a: usize, b: usize) -> u64
    ensures { part_in result ≡ lends a b (vector_tray state.now slots.now) }
{
    let cap = slots.len();
    let len = state[0] as usize;
    if table::invalid_vector(cap, len) {
        return part(0, 0);
    }
    if table::astray(a, b, len) {
        return part(0, 0);
    }
    part(a, b - a)
}

pub fn tum_vector_as_slice(slots: &[u32], state: &[u64; 2]) -> u64
    ensures { part_in result ≡ lends_all (vector_tray state.now slots.now) }
{
    tum_vector_range(slots, state, 0, state[0] as usize)
}

pub fn tum_vector_as_ref(slots: &[u32], state: &[u64; 2]) -> u64
    ensures { part_in result ≡ lends_all (vector_tray state.now slots.now) }
{
    tum_vector_as_slice(slots, state) // upstream's AsRef
}

pub fn tum_vector_deref(slots: &[u32], state: &[u64; 2]) -> u64
    ensures { part_in result ≡ lends_all (vector_tray state.now slots.now) }
{
    tum_vector_as_slice(slots, state) // upstream's Deref
}

pub fn tum_vector_as_mut_slice(slots: &[u32], state: &[u64; 2]) -> u64
    ensures { part_in result ≡ lends_all (vector_tray state.now slots.now) }
{
    tum_vector_as_slice(slots, state) // for writing, which is the caller's
}

pub fn tum_vector_deref_mut(slots: &[u32], state: &[u64; 2]) -> u64
    ensures { part_in result ≡ lends_all (vector_tray state.now slots.now) }
{
    tum_vector_as_mut_slice(slots, state)
}

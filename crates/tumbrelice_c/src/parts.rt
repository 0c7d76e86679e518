// The parts that a vector lends, as a first slot and a count, in a word of their own: the first slot in the low 32 bits, the count in the high 32. A caller in C
ghost use Rattle.std.specs.Prelude.{◌≡◌, ◌<◌};
ghost use Rattle.table.specs.Parts.{lends, lends_all};
ghost use Rattle.tumbrelice.specs.Heard.{vector_tray};
ghost use Rattle.tumbrelice.specs.HeardPart.{part_in, part_of};

#[unsafe(no_mangle)]
pub extern "C" fn tum_vector_range(slots: &[u32], state: &[u64; 2], a: usize, b: usize) -> u64
    ensures { part_in result ≡ lends a b (vector_tray state.now slots.now) }
{
    tumbrelice::parts::tum_vector_range(slots, state, a, b)
}

#[unsafe(no_mangle)]
pub extern "C" fn tum_vector_as_slice(slots: &[u32], state: &[u64; 2]) -> u64
    ensures { part_in result ≡ lends_all (vector_tray state.now slots.now) }
{
    tumbrelice::parts::tum_vector_as_slice(slots, state)
}

#[unsafe(no_mangle)]
pub extern "C" fn tum_vector_as_ref(slots: &[u32], state: &[u64; 2]) -> u64
    ensures { part_in result ≡ lends_all (vector_tray state.now slots.now) }
{
    tumbrelice::parts::tum_vector_as_ref(slots, state)
}

#[unsafe(no_mangle)]
pub extern "C" fn tum_vector_deref(slots: &[u32], state: &[u64; 2]) -> u64
    ensures { part_in result ≡ lends_all (vector_tray state.now slots.now) }
{
    tumbrelice::parts::tum_vector_deref(slots, state)
}

#[unsafe(no_mangle)]
pub extern "C" fn tum_vector_as_mut_slice(slots: &[u32], state: &[u64; 2]) -> u64
    ensures { part_in result ≡ lends_all (vector_tray state.now slots.now) }
{
    tumbrelice::parts::tum_vector_as_mut_slice(slots, state)
}

#[unsafe(no_mangle)]
pub extern "C" fn tum_vector_deref_mut(slots: &[u32], state: &[u64; 2]) -> u64
    ensures { part_in result ≡ lends_all (vector_tray state.now slots.now) }
{
    tumbrelice::parts::tum_vector_deref_mut(slots, state)
}

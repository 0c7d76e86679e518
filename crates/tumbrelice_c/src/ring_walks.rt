// A cursor's calls over a ring, which they leave as it is. from_iter fills a vector.
ghost use Rattle.slots.specs.Layout.{ring};
ghost use Rattle.table.specs.Calls.{iter, into_iter, step_front, step_back, peek_front, peek_back};
ghost use Rattle.tumbrelice.specs.Heard.{HearsAt, HearsInto, ring_of, vector_of, cursor_of};

#[unsafe(no_mangle)]
pub extern "C" fn tum_ring_iter(slots: &[u32], state: &[u64; 3], cursor: &mut [usize; 2]) -> u64
    ensures { HearsAt ring iter (ring_of state.now slots.now) result (cursor_of cursor.new) }
{
    tumbrelice::ring_walks::tum_ring_iter(slots, state, cursor)
}

#[unsafe(no_mangle)]
pub extern "C" fn tum_ring_into_iter(
    slots: &[u32],
    state: &[u64; 3],
    cursor: &mut [usize; 2],
) -> u64
    ensures { HearsAt ring into_iter (ring_of state.now slots.now) result (cursor_of cursor.new) }
{
    tumbrelice::ring_walks::tum_ring_into_iter(slots, state, cursor)
}

#[unsafe(no_mangle)]
pub extern "C" fn tum_ring_step_front(
    slots: &[u32],
    state: &[u64; 3],
    cursor: &mut [usize; 2],
) -> u64
    ensures { HearsAt ring (step_front (cursor_of cursor.old)) (ring_of state.now slots.now) result (cursor_of cursor.new) }
{
    tumbrelice::ring_walks::tum_ring_step_front(slots, state, cursor)
}

#[unsafe(no_mangle)]
pub extern "C" fn tum_ring_step_back(
    slots: &[u32],
    state: &[u64; 3],
    cursor: &mut [usize; 2],
) -> u64
    ensures { HearsAt ring (step_back (cursor_of cursor.old)) (ring_of state.now slots.now) result (cursor_of cursor.new) }
{
    tumbrelice::ring_walks::tum_ring_step_back(slots, state, cursor)
}

#[unsafe(no_mangle)]
pub extern "C" fn tum_ring_peek_front(
    slots: &[u32],
    state: &[u64; 3],
    cursor: &[usize; 2],
    k: usize,
) -> u64
    ensures { HearsAt ring (peek_front (cursor_of cursor.now) k) (ring_of state.now slots.now) result (cursor_of cursor.now) }
{
    tumbrelice::ring_walks::tum_ring_peek_front(slots, state, cursor, k)
}

#[unsafe(no_mangle)]
pub extern "C" fn tum_ring_peek_back(
    slots: &[u32],
    state: &[u64; 3],
    cursor: &[usize; 2],
    k: usize,
) -> u64
    ensures { HearsAt ring (peek_back (cursor_of cursor.now) k) (ring_of state.now slots.now) result (cursor_of cursor.now) }
{
    tumbrelice::ring_walks::tum_ring_peek_back(slots, state, cursor, k)
}

#[unsafe(no_mangle)]
pub extern "C" fn tum_ring_from_iter(
    slots: &[u32],
    state: &[u64; 3],
    cursor: &mut [usize; 2],
    theirs: &mut [u32],
    other: &mut [u64; 2],
) -> u64
    ensures { HearsInto ring (cursor_of cursor.old) (ring_of state.now slots.now) (vector_of other.old theirs.old) result (cursor_of cursor.new) (vector_of other.new theirs.new) }
{
    tumbrelice::ring_walks::tum_ring_from_iter(slots, state, cursor, theirs, other)
}

// The calls on a ring. Its state is its head, its length, its total. A refused call stores none of them, and a call that never moves the head or the length does not store it.
ghost use Rattle.slots.specs.Layout.{ring};
ghost use Rattle.table.specs.Calls.{write, push, push_front, pop, pop_front, insert, remove, truncate, resize, clear, look, len, read, reserve};
ghost use Rattle.tumbrelice.specs.Heard.{Hears, HearsWithin, ring_of};

#[unsafe(no_mangle)]
pub extern "C" fn tum_ring_len(slots: &[u32], state: &[u64; 3]) -> u64
    ensures { Hears ring (look len) (ring_of state.now slots.now) result (ring_of state.now slots.now) }
{
    tumbrelice::rings::tum_ring_len(slots, state)
}

#[unsafe(no_mangle)]
pub extern "C" fn tum_ring_read(slots: &[u32], state: &[u64; 3], i: usize) -> u64
    ensures { Hears ring (look (read i)) (ring_of state.now slots.now) result (ring_of state.now slots.now) }
{
    tumbrelice::rings::tum_ring_read(slots, state, i)
}

#[unsafe(no_mangle)]
pub extern "C" fn tum_ring_reserve(slots: &[u32], state: &[u64; 3], k: usize) -> u64
    ensures { Hears ring (look (reserve k)) (ring_of state.now slots.now) result (ring_of state.now slots.now) }
{
    tumbrelice::rings::tum_ring_reserve(slots, state, k)
}

#[unsafe(no_mangle)]
pub extern "C" fn tum_ring_write(slots: &mut [u32], state: &mut [u64; 3], i: usize, x: u32) -> u64
    ensures { Hears ring (write i x) (ring_of state.old slots.old) result (ring_of state.new slots.new) }
{
    tumbrelice::rings::tum_ring_write(slots, state, i, x)
}

#[unsafe(no_mangle)]
pub extern "C" fn tum_ring_push_back(slots: &mut [u32], state: &mut [u64; 3], x: u32) -> u64
    ensures { Hears ring (push x) (ring_of state.old slots.old) result (ring_of state.new slots.new) }
{
    tumbrelice::rings::tum_ring_push_back(slots, state, x)
}

#[unsafe(no_mangle)]
pub extern "C" fn tum_ring_push_front(slots: &mut [u32], state: &mut [u64; 3], x: u32) -> u64
    ensures { Hears ring (push_front x) (ring_of state.old slots.old) result (ring_of state.new slots.new) }
{
    tumbrelice::rings::tum_ring_push_front(slots, state, x)
}

#[unsafe(no_mangle)]
pub extern "C" fn tum_ring_pop_back(slots: &mut [u32], state: &mut [u64; 3]) -> u64
    ensures { Hears ring pop (ring_of state.old slots.old) result (ring_of state.new slots.new) }
{
    tumbrelice::rings::tum_ring_pop_back(slots, state)
}

#[unsafe(no_mangle)]
pub extern "C" fn tum_ring_pop_front(slots: &mut [u32], state: &mut [u64; 3]) -> u64
    ensures { Hears ring pop_front (ring_of state.old slots.old) result (ring_of state.new slots.new) }
{
    tumbrelice::rings::tum_ring_pop_front(slots, state)
}

#[unsafe(no_mangle)]
pub extern "C" fn tum_ring_insert(slots: &mut [u32], state: &mut [u64; 3], i: usize, x: u32) -> u64
    ensures { Hears ring (insert i x) (ring_of state.old slots.old) result (ring_of state.new slots.new) }
{
    tumbrelice::rings::tum_ring_insert(slots, state, i, x)
}

#[unsafe(no_mangle)]
pub extern "C" fn tum_ring_remove(slots: &mut [u32], state: &mut [u64; 3], i: usize) -> u64
    ensures { Hears ring (remove i) (ring_of state.old slots.old) result (ring_of state.new slots.new) }
{
    tumbrelice::rings::tum_ring_remove(slots, state, i)
}

#[unsafe(no_mangle)]
pub extern "C" fn tum_ring_insert_within(
    slots: &mut [u32],
    state: &mut [u64; 3],
    i: usize,
    x: u32,
    allowance: usize,
) -> u64
    ensures { HearsWithin allowance ring (insert i x) (ring_of state.old slots.old) result (ring_of state.new slots.new) }
{
    tumbrelice::rings::tum_ring_insert_within(slots, state, i, x, allowance)
}

#[unsafe(no_mangle)]
pub extern "C" fn tum_ring_remove_within(
    slots: &mut [u32],
    state: &mut [u64; 3],
    i: usize,
    allowance: usize,
) -> u64
    ensures { HearsWithin allowance ring (remove i) (ring_of state.old slots.old) result (ring_of state.new slots.new) }
{
    tumbrelice::rings::tum_ring_remove_within(slots, state, i, allowance)
}

#[unsafe(no_mangle)]
pub extern "C" fn tum_ring_truncate(slots: &mut [u32], state: &mut [u64; 3], k: usize) -> u64
    ensures { Hears ring (truncate k) (ring_of state.old slots.old) result (ring_of state.new slots.new) }
{
    tumbrelice::rings::tum_ring_truncate(slots, state, k)
}

#[unsafe(no_mangle)]
pub extern "C" fn tum_ring_resize(slots: &mut [u32], state: &mut [u64; 3], k: usize, x: u32) -> u64
    ensures { Hears ring (resize k x) (ring_of state.old slots.old) result (ring_of state.new slots.new) }
{
    tumbrelice::rings::tum_ring_resize(slots, state, k, x)
}

#[unsafe(no_mangle)]
pub extern "C" fn tum_ring_clear(slots: &mut [u32], state: &mut [u64; 3]) -> u64
    ensures { Hears ring clear (ring_of state.old slots.old) result (ring_of state.new slots.new) }
{
    tumbrelice::rings::tum_ring_clear(slots, state)
}

// The calls on a ring. Its state is its head, its length, its total. A refused call stores none of them, and a call that never moves the head or the length does not store it.
ghost use Rattle.slots.specs.Layout.{ring};
ghost use Rattle.table.specs.Calls.{write, push, push_front, pop, pop_front, insert, remove, truncate, resize, clear, look, len, read, reserve};
ghost use Rattle.tumbrelice.specs.Heard.{Hears, HearsWithin, ring_of};

use super::{ring_in, ring_out, ring_stays, ring_weighs, word};
use table::answers::in_numbers;

pub fn tum_ring_len(slots: &[u32], state: &[u64; 3]) -> u64
    ensures { Hears ring (look len) (ring_of state.now slots.now) result (ring_of state.now slots.now) }
{
    let r = ring_in(state);
    let a = in_numbers(r, r.len(slots));
    word(a)
}

pub fn tum_ring_read(slots: &[u32], state: &[u64; 3], i: usize) -> u64
    ensures { Hears ring (look (read i)) (ring_of state.now slots.now) result (ring_of state.now slots.now) }
{
    let r = ring_in(state);
    let a = in_numbers(r, r.read(slots, i));
    word(a)
}

pub fn tum_ring_reserve(slots: &[u32], state: &[u64; 3], k: usize) -> u64
    ensures { Hears ring (look (reserve k)) (ring_of state.now slots.now) result (ring_of state.now slots.now) }
{
    let r = ring_in(state);
    let a = in_numbers(r, r.reserve(slots, k));
    word(a)
}

pub fn tum_ring_write(slots: &mut [u32], state: &mut [u64; 3], i: usize, x: u32) -> u64
    ensures { Hears ring (write i x) (ring_of state.old slots.old) result (ring_of state.new slots.new) }
{
    let r = ring_in(state);
    let a = in_numbers(r, r.write(slots, i, x));
    ring_weighs(state, a.number, a.state);
    word(a)
}

pub fn tum_ring_push_back(slots: &mut [u32], state: &mut [u64; 3], x: u32) -> u64
    ensures { Hears ring (push x) (ring_of state.old slots.old) result (ring_of state.new slots.new) }
{
    let r = ring_in(state);
    let a = in_numbers(r, r.push_back(slots, x));
    ring_stays(state, a.number, a.state);
    word(a)
}

pub fn tum_ring_push_front(slots: &mut [u32], state: &mut [u64; 3], x: u32) -> u64
    ensures { Hears ring (push_front x) (ring_of state.old slots.old) result (ring_of state.new slots.new) }
{
    let r = ring_in(state);
    let a = in_numbers(r, r.push_front(slots, x));
    ring_out(state, a.number, a.state);
    word(a)
}

pub fn tum_ring_pop_back(slots: &mut [u32], state: &mut [u64; 3]) -> u64
    ensures { Hears ring pop (ring_of state.old slots.old) result (ring_of state.new slots.new) }
{
    let r = ring_in(state);
    let a = in_numbers(r, r.pop_back(slots));
    ring_stays(state, a.number, a.state);
    word(a)
}

pub fn tum_ring_pop_front(slots: &mut [u32], state: &mut [u64; 3]) -> u64
    ensures { Hears ring pop_front (ring_of state.old slots.old) result (ring_of state.new slots.new) }
{
    let r = ring_in(state);
    let a = in_numbers(r, r.pop_front(slots));
    ring_out(state, a.number, a.state);
    word(a)
}

pub fn tum_ring_insert(slots: &mut [u32], state: &mut [u64; 3], i: usize, x: u32) -> u64
    ensures { Hears ring (insert i x) (ring_of state.old slots.old) result (ring_of state.new slots.new) }
{
    let r = ring_in(state);
    let a = in_numbers(r, r.insert(slots, i, x));
    ring_out(state, a.number, a.state);
    word(a)
}

pub fn tum_ring_remove(slots: &mut [u32], state: &mut [u64; 3], i: usize) -> u64
    ensures { Hears ring (remove i) (ring_of state.old slots.old) result (ring_of state.new slots.new) }
{
    let r = ring_in(state);
    let a = in_numbers(r, r.remove(slots, i));
    ring_out(state, a.number, a.state);
    word(a)
}

pub fn tum_ring_insert_within(
    slots: &mut [u32],
    state: &mut [u64; 3],
    i: usize,
    x: u32,
    allowance: usize,
) -> u64
    ensures { HearsWithin allowance ring (insert i x) (ring_of state.old slots.old) result (ring_of state.new slots.new) }
{
    let r = ring_in(state);
    let a = in_numbers(r, r.insert_within(slots, i, x, allowance));
    ring_out(state, a.number, a.state);
    word(a)
}

pub fn tum_ring_remove_within(
    slots: &mut [u32],
    state: &mut [u64; 3],
    i: usize,
    allowance: usize,
) -> u64
    ensures { HearsWithin allowance ring (remove i) (ring_of state.old slots.old) result (ring_of state.new slots.new) }
{
    let r = ring_in(state);
    let a = in_numbers(r, r.remove_within(slots, i, allowance));
    ring_out(state, a.number, a.state);
    word(a)
}

pub fn tum_ring_truncate(slots: &mut [u32], state: &mut [u64; 3], k: usize) -> u64
    ensures { Hears ring (truncate k) (ring_of state.old slots.old) result (ring_of state.new slots.new) }
{
    let r = ring_in(state);
    let a = in_numbers(r, r.truncate(slots, k));
    ring_stays(state, a.number, a.state);
    word(a)
}

pub fn tum_ring_resize(slots: &mut [u32], state: &mut [u64; 3], k: usize, x: u32) -> u64
    ensures { Hears ring (resize k x) (ring_of state.old slots.old) result (ring_of state.new slots.new) }
{
    let r = ring_in(state);
    let a = in_numbers(r, r.resize(slots, k, x));
    ring_stays(state, a.number, a.state);
    word(a)
}

pub fn tum_ring_clear(slots: &mut [u32], state: &mut [u64; 3]) -> u64
    ensures { Hears ring clear (ring_of state.old slots.old) result (ring_of state.new slots.new) }
{
    let r = ring_in(state);
    let a = in_numbers(r, r.clear(slots));
    ring_out(state, a.number, a.state);
    word(a)
}

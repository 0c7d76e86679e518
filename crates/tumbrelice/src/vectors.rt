// The calls on a vector. Its state is its length, its total; a refused call stores neither.
ghost use Rattle.slots.specs.Layout.{vector};
ghost use Rattle.table.specs.Calls.{write, push, pop, insert, remove, swap_remove, truncate, resize, clear, extend};
ghost use Rattle.table.specs.Calls.{look, len, is_empty, read, reserve, try_reserve, try_reserve_exact, range};
ghost use Rattle.tumbrelice.specs.Heard.{Hears, vector_of};

use super::{vector_in, vector_out, vector_weighs, word};
use table::answers::in_numbers;

pub fn tum_vector_len(slots: &[u32], state: &[u64; 2]) -> u64
    ensures { Hears vector (look len) (vector_of state.now slots.now) result (vector_of state.now slots.now) }
{
    let v = vector_in(state);
    let a = in_numbers(v, v.len(slots));
    word(a)
}

pub fn tum_vector_is_empty(slots: &[u32], state: &[u64; 2]) -> u64
    ensures { Hears vector (look is_empty) (vector_of state.now slots.now) result (vector_of state.now slots.now) }
{
    let v = vector_in(state);
    let a = in_numbers(v, v.is_empty(slots));
    word(a)
}

pub fn tum_vector_read(slots: &[u32], state: &[u64; 2], i: usize) -> u64
    ensures { Hears vector (look (read i)) (vector_of state.now slots.now) result (vector_of state.now slots.now) }
{
    let v = vector_in(state);
    let a = in_numbers(v, v.read(slots, i));
    word(a)
}

pub fn tum_vector_reserve(slots: &[u32], state: &[u64; 2], k: usize) -> u64
    ensures { Hears vector (look (reserve k)) (vector_of state.now slots.now) result (vector_of state.now slots.now) }
{
    let v = vector_in(state);
    let a = in_numbers(v, v.reserve(slots, k));
    word(a)
}

pub fn tum_vector_try_reserve(slots: &[u32], state: &[u64; 2], k: usize) -> u64
    ensures { Hears vector (look (try_reserve k)) (vector_of state.now slots.now) result (vector_of state.now slots.now) }
{
    let v = vector_in(state);
    let a = in_numbers(v, v.try_reserve(slots, k));
    word(a)
}

pub fn tum_vector_try_reserve_exact(slots: &[u32], state: &[u64; 2], k: usize) -> u64
    ensures { Hears vector (look (try_reserve_exact k)) (vector_of state.now slots.now) result (vector_of state.now slots.now) }
{
    let v = vector_in(state);
    let a = in_numbers(v, v.try_reserve_exact(slots, k));
    word(a)
}

pub fn tum_vector_ask_range(slots: &[u32], state: &[u64; 2], a: usize, b: usize) -> u64
    ensures { Hears vector (look (range a b)) (vector_of state.now slots.now) result (vector_of state.now slots.now) }
{
    let v = vector_in(state);
    let a = in_numbers(v, v.ask_range(slots, a, b));
    word(a)
}

pub fn tum_vector_write(slots: &mut [u32], state: &mut [u64; 2], i: usize, x: u32) -> u64
    ensures { Hears vector (write i x) (vector_of state.old slots.old) result (vector_of state.new slots.new) }
{
    let v = vector_in(state);
    let a = in_numbers(v, v.write(slots, i, x));
    vector_weighs(state, a.number, a.state);
    word(a)
}

pub fn tum_vector_push(slots: &mut [u32], state: &mut [u64; 2], x: u32) -> u64
    ensures { Hears vector (push x) (vector_of state.old slots.old) result (vector_of state.new slots.new) }
{
    let v = vector_in(state);
    let a = in_numbers(v, v.push(slots, x));
    vector_out(state, a.number, a.state);
    word(a)
}

pub fn tum_vector_pop(slots: &mut [u32], state: &mut [u64; 2]) -> u64
    ensures { Hears vector pop (vector_of state.old slots.old) result (vector_of state.new slots.new) }
{
    let v = vector_in(state);
    let a = in_numbers(v, v.pop(slots));
    vector_out(state, a.number, a.state);
    word(a)
}

pub fn tum_vector_insert(slots: &mut [u32], state: &mut [u64; 2], i: usize, x: u32) -> u64
    ensures { Hears vector (insert i x) (vector_of state.old slots.old) result (vector_of state.new slots.new) }
{
    let v = vector_in(state);
    let a = in_numbers(v, v.insert(slots, i, x));
    vector_out(state, a.number, a.state);
    word(a)
}

pub fn tum_vector_remove(slots: &mut [u32], state: &mut [u64; 2], i: usize) -> u64
    ensures { Hears vector (remove i) (vector_of state.old slots.old) result (vector_of state.new slots.new) }
{
    let v = vector_in(state);
    let a = in_numbers(v, v.remove(slots, i));
    vector_out(state, a.number, a.state);
    word(a)
}

pub fn tum_vector_swap_remove(slots: &mut [u32], state: &mut [u64; 2], i: usize) -> u64
    ensures { Hears vector (swap_remove i) (vector_of state.old slots.old) result (vector_of state.new slots.new) }
{
    let v = vector_in(state);
    let a = in_numbers(v, v.swap_remove(slots, i));
    vector_out(state, a.number, a.state);
    word(a)
}

pub fn tum_vector_truncate(slots: &mut [u32], state: &mut [u64; 2], k: usize) -> u64
    ensures { Hears vector (truncate k) (vector_of state.old slots.old) result (vector_of state.new slots.new) }
{
    let v = vector_in(state);
    let a = in_numbers(v, v.truncate(slots, k));
    vector_out(state, a.number, a.state);
    word(a)
}

pub fn tum_vector_resize(slots: &mut [u32], state: &mut [u64; 2], k: usize, x: u32) -> u64
    ensures { Hears vector (resize k x) (vector_of state.old slots.old) result (vector_of state.new slots.new) }
{
    let v = vector_in(state);
    let a = in_numbers(v, v.resize(slots, k, x));
    vector_out(state, a.number, a.state);
    word(a)
}

pub fn tum_vector_clear(slots: &mut [u32], state: &mut [u64; 2]) -> u64
    ensures { Hears vector clear (vector_of state.old slots.old) result (vector_of state.new slots.new) }
{
    let v = vector_in(state);
    let a = in_numbers(v, v.clear(slots));
    vector_out(state, a.number, a.state);
    word(a)
}

pub fn tum_vector_extend_from_slice(slots: &mut [u32], state: &mut [u64; 2], s: &[u32]) -> u64
    ensures { Hears vector (extend s.now) (vector_of state.old slots.old) result (vector_of state.new slots.new) }
{
    let v = vector_in(state);
    let a = in_numbers(v, v.extend_from_slice(slots, s));
    vector_out(state, a.number, a.state);
    word(a)
}

// The calls as C or Rust may link them. A container's state is passed by a pointer to its numbers, 64 bits each: a ring's are head, length and total, a vector's
// length and total. Slots go in as a pointer and their number. The answer is one word, packed by what can occur: the value in the low 32 bits, the slot in the next
// 16, the moves in the next 12, the number in the high 4.
#![tactic(auto)]

pub mod makings; // makings.rt: a ring or a vector on lent slots
pub mod rings; // rings.rt: the calls on a ring
pub mod vectors; // vectors.rt: the calls on a vector
pub mod parts; // parts.rt: the parts that a vector lends
pub mod two; // two.rt: the calls that change two containers
pub mod compare; // compare.rt: whether two containers hold the same list
pub mod ring_walks; // ring_walks.rt: a cursor over a ring
pub mod vector_walks; // vector_walks.rt: a cursor over a vector
pub mod forms; // forms.rt: the stored form
pub mod records; // records.rt: a record of comma-separated text
mod walks; // walks.rt: a cursor's numbers, in and out

ghost use Rattle.std.specs.Prelude.{◌≡◌, ◌^◌, ◌<◌, get_or};
ghost use Rattle.slots.specs.Layout.{ring};
ghost use Rattle.table.specs.Does.{head_after};
ghost use Rattle.tumbrelice.specs.Heard.{Worded, ring_in, ring_out, vector_in, vector_out, unless_refused};

use ring::Ring;
use runs::total::Total;
use table::answers::Numbered;
use vector::Vector;

// A ring's state goes in and comes out here, and a vector's below. They stay two sets of functions, over refusals by number: the C interface has three numbers for
// the one and two for the other, and tells a refusal by its number. That a total has 64 bits is said too, since a proof would have to look far for it.
fn ring_in(state: &[u64; 3]) -> Ring
    ensures { (result ≡ ring_in state.now) × (result.total.sum < 2 ^ 64) }
{
    let sum = state[2];
    ring::state(state[0] as usize, state[1] as usize, Total { sum })
}

// The numbers of a state.
fn ring_made(r: Ring) -> [u64; 3]
    ensures { result ≡ ring_out r }
{
    let total = r.total;
    [r.head as u64, r.len as u64, total.sum]
}

// A call that is refused stores nothing.
fn ring_out(state: &mut [u64; 3], number: u8, r: Ring)
    ensures { state.new ≡ unless_refused number (ring_out r) state.old }
{
    if number != 0 {
        return;
    }
    *state = ring_made(r);
}

// The same of a call that leaves the head, or an empty ring: a head that stays is not stored, so that the next call need not wait for it.
fn ring_stays(state: &mut [u64; 3], number: u8, r: Ring)
    requires { number ≡ 0 → r.head ≡ head_after ring r.len (get_or state.old 0 0) }
    ensures { state.new ≡ unless_refused number (ring_out r) state.old }
{
    if number != 0 {
        return;
    }
    let total = r.total;
    if r.len == 0 {
        *state = [0, 0, total.sum];
        return;
    }
    *state = [state[0], r.len as u64, total.sum];
}

// The same of a call that leaves the head and the length.
fn ring_weighs(state: &mut [u64; 3], number: u8, r: Ring)
    requires { number ≡ 0 → (r.head ≡ get_or state.old 0 0) × (r.len ≡ get_or state.old 1 0) }
    ensures { state.new ≡ unless_refused number (ring_out r) state.old }
{
    if number != 0 {
        return;
    }
    let total = r.total;
    *state = [state[0], state[1], total.sum];
}

fn vector_in(state: &[u64; 2]) -> Vector
    ensures { (result ≡ vector_in state.now) × (result.total.sum < 2 ^ 64) }
{
    let sum = state[1];
    vector::state(state[0] as usize, Total { sum })
}

fn vector_made(v: Vector) -> [u64; 2]
    ensures { result ≡ vector_out v }
{
    let total = v.total;
    [v.len as u64, total.sum]
}

fn vector_out(state: &mut [u64; 2], number: u8, v: Vector)
    ensures { state.new ≡ unless_refused number (vector_out v) state.old }
{
    if number != 0 {
        return;
    }
    *state = vector_made(v);
}

fn vector_weighs(state: &mut [u64; 2], number: u8, v: Vector)
    requires { number ≡ 0 → v.len ≡ get_or state.old 0 0 }
    ensures { state.new ≡ unless_refused number (vector_out v) state.old }
{
    if number != 0 {
        return;
    }
    let total = v.total;
    *state = [state[0], total.sum];
}

// Every answer is put together here. One that is done goes a way of its own, so that a call's end is not shared with its refusals.
fn word_of(number: u8, value: u32, moves: usize, slot: usize) -> u64
    requires { (number < 16) × (moves < 4096) × (slot < 65536) }
    ensures { Worded number value moves slot result }
{
    if number == 0 {
        return (moves as u64 * 65536 + slot as u64) * 4294967296 + value as u64;
    }
    ((number as u64 * 4096 + moves as u64) * 65536 + slot as u64) * 4294967296 + value as u64
}

// The word of an answer as the papers number it, whatever the state beside it.
fn word<S: Copy>(a: Numbered<S>) -> u64
    requires { (a.number < 16) × (a.moves < 4096) × (a.slot < 65536) }
    ensures { Worded a.number a.value a.moves a.slot result }
{
    word_of(a.number, a.value, a.moves, a.slot)
}

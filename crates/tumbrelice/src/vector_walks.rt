// A cursor's calls over a vector, which they leave as it is. from_iter fills a vector.
ghost use Rattle.slots.specs.Layout.{vector};
ghost use Rattle.table.specs.Calls.{iter, into_iter, step_front, step_back, peek_front, peek_back};
ghost use Rattle.tumbrelice.specs.Heard.{HearsAt, HearsInto, vector_of, cursor_of};

use super::walks::{cursor_in, cursor_made, cursor_out, none};
use super::{vector_in, vector_out, word};
use cursors::Cursor;
use table::answers::{Both, in_numbers};

pub fn tum_vector_iter(slots: &[u32], state: &[u64; 2], cursor: &mut [usize; 2]) -> u64
    ensures { HearsAt vector iter (vector_of state.now slots.now) result (cursor_of cursor.new) }
{
    let v = vector_in(state);
    let a = in_numbers(none(), Cursor::iter(v, slots));
    *cursor = cursor_made(a.state);
    word(a)
}

pub fn tum_vector_into_iter(slots: &[u32], state: &[u64; 2], cursor: &mut [usize; 2]) -> u64
    ensures { HearsAt vector into_iter (vector_of state.now slots.now) result (cursor_of cursor.new) }
{
    tum_vector_iter(slots, state, cursor)
}

pub fn tum_vector_step_front(slots: &[u32], state: &[u64; 2], cursor: &mut [usize; 2]) -> u64
    ensures { HearsAt vector (step_front (cursor_of cursor.old)) (vector_of state.now slots.now) result (cursor_of cursor.new) }
{
    let v = vector_in(state);
    let u = cursor_in(cursor);
    let a = in_numbers(u, u.step_front(v, slots));
    cursor_out(cursor, a.number, a.state);
    word(a)
}

pub fn tum_vector_step_back(slots: &[u32], state: &[u64; 2], cursor: &mut [usize; 2]) -> u64
    ensures { HearsAt vector (step_back (cursor_of cursor.old)) (vector_of state.now slots.now) result (cursor_of cursor.new) }
{
    let v = vector_in(state);
    let u = cursor_in(cursor);
    let a = in_numbers(u, u.step_back(v, slots));
    cursor_out(cursor, a.number, a.state);
    word(a)
}

pub fn tum_vector_peek_front(slots: &[u32], state: &[u64; 2], cursor: &[usize; 2], k: usize) -> u64
    ensures { HearsAt vector (peek_front (cursor_of cursor.now) k) (vector_of state.now slots.now) result (cursor_of cursor.now) }
{
    let v = vector_in(state);
    let u = cursor_in(cursor);
    let a = in_numbers(u, u.peek_front(v, slots, k));
    word(a)
}

pub fn tum_vector_peek_back(slots: &[u32], state: &[u64; 2], cursor: &[usize; 2], k: usize) -> u64
    ensures { HearsAt vector (peek_back (cursor_of cursor.now) k) (vector_of state.now slots.now) result (cursor_of cursor.now) }
{
    let v = vector_in(state);
    let u = cursor_in(cursor);
    let a = in_numbers(u, u.peek_back(v, slots, k));
    word(a)
}

pub fn tum_vector_from_iter(
    slots: &[u32],
    state: &[u64; 2],
    cursor: &mut [usize; 2],
    theirs: &mut [u32],
    other: &mut [u64; 2],
) -> u64
    ensures { HearsInto vector (cursor_of cursor.old) (vector_of state.now slots.now) (vector_of other.old theirs.old) result (cursor_of cursor.new) (vector_of other.new theirs.new) }
{
    let v = vector_in(state);
    let u = cursor_in(cursor);
    let t = vector_in(other);
    let a = in_numbers(
        Both {
            first: u,
            second: t,
        },
        u.from_iter(v, slots, t, theirs),
    );
    cursor_out(cursor, a.number, a.state.first);
    vector_out(other, a.number, a.state.second);
    word(a)
}

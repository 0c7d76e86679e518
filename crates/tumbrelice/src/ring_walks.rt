// A cursor's calls over a ring, which they leave as it is. from_iter fills a vector.
ghost use Rattle.slots.specs.Layout.{ring};
ghost use Rattle.table.specs.Calls.{iter, into_iter, step_front, step_back, peek_front, peek_back};
ghost use Rattle.tumbrelice.specs.Heard.{HearsAt, HearsInto, ring_of, vector_of, cursor_of};

use super::walks::{cursor_in, cursor_made, cursor_out, none};
use super::{ring_in, vector_in, vector_out, word};
use cursors::Cursor;
use table::answers::{Both, in_numbers};

pub fn tum_ring_iter(slots: &[u32], state: &[u64; 3], cursor: &mut [usize; 2]) -> u64
    ensures { HearsAt ring iter (ring_of state.now slots.now) result (cursor_of cursor.new) }
{
    let r = ring_in(state);
    let a = in_numbers(none(), Cursor::iter(r, slots));
    *cursor = cursor_made(a.state);
    word(a)
}

pub fn tum_ring_into_iter(slots: &[u32], state: &[u64; 3], cursor: &mut [usize; 2]) -> u64
    ensures { HearsAt ring into_iter (ring_of state.now slots.now) result (cursor_of cursor.new) }
{
    tum_ring_iter(slots, state, cursor)
}

pub fn tum_ring_step_front(slots: &[u32], state: &[u64; 3], cursor: &mut [usize; 2]) -> u64
    ensures { HearsAt ring (step_front (cursor_of cursor.old)) (ring_of state.now slots.now) result (cursor_of cursor.new) }
{
    let r = ring_in(state);
    let u = cursor_in(cursor);
    let a = in_numbers(u, u.step_front(r, slots));
    cursor_out(cursor, a.number, a.state);
    word(a)
}

pub fn tum_ring_step_back(slots: &[u32], state: &[u64; 3], cursor: &mut [usize; 2]) -> u64
    ensures { HearsAt ring (step_back (cursor_of cursor.old)) (ring_of state.now slots.now) result (cursor_of cursor.new) }
{
    let r = ring_in(state);
    let u = cursor_in(cursor);
    let a = in_numbers(u, u.step_back(r, slots));
    cursor_out(cursor, a.number, a.state);
    word(a)
}

pub fn tum_ring_peek_front(slots: &[u32], state: &[u64; 3], cursor: &[usize; 2], k: usize) -> u64
    ensures { HearsAt ring (peek_front (cursor_of cursor.now) k) (ring_of state.now slots.now) result (cursor_of cursor.now) }
{
    let r = ring_in(state);
    let u = cursor_in(cursor);
    let a = in_numbers(u, u.peek_front(r, slots, k));
    word(a)
}

pub fn tum_ring_peek_back(slots: &[u32], state: &[u64; 3], cursor: &[usize; 2], k: usize) -> u64
    ensures { HearsAt ring (peek_back (cursor_of cursor.now) k) (ring_of state.now slots.now) result (cursor_of cursor.now) }
{
    let r = ring_in(state);
    let u = cursor_in(cursor);
    let a = in_numbers(u, u.peek_back(r, slots, k));
    word(a)
}

pub fn tum_ring_from_iter(
    slots: &[u32],
    state: &[u64; 3],
    cursor: &mut [usize; 2],
    theirs: &mut [u32],
    other: &mut [u64; 2],
) -> u64
    ensures { HearsInto ring (cursor_of cursor.old) (ring_of state.now slots.now) (vector_of other.old theirs.old) result (cursor_of cursor.new) (vector_of other.new theirs.new) }
{
    let r = ring_in(state);
    let u = cursor_in(cursor);
    let t = vector_in(other);
    let a = in_numbers(
        Both {
            first: u,
            second: t,
        },
        u.from_iter(r, slots, t, theirs),
    );
    cursor_out(cursor, a.number, a.state.first);
    vector_out(other, a.number, a.state.second);
    word(a)
}

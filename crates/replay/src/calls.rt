// The calls, by the numbers that docs/REPLAY.md gives them. asked.rt lets no number through that stands for none, so the last call of a family
// needs no test of its own.
// Why they stay numbers is said at `Asked`.
use crate::answers::{Did, Left};
use crate::asked::Asked;
use crate::desks::{Desk, State};
use crate::prints::Page;
use containers::Container;
use cursors::Cursor;
use ring::Ring;
use table::answers::{Answer, Both, Refusal};
use vector::Vector;

// A making and a reading start from no entries, and leave none where they are refused.
fn starts_anew(op: u8) -> bool {
    matches!(op, 0x10 | 0x11 | 0x20 | 0x21 | 0x28 | 0x82 | 0x83)
}

// A call, and what it shows.
pub(crate) fn call(q: Asked, desk: &mut Desk, shown: &mut Page) -> Did {
    if starts_anew(q.op) {
        desk.first.state = State::none();
    }
    match q.op {
        0x10..=0x1e => on_ring(q, desk),
        0x20..=0x33 => on_vector(q, desk),
        0x38..=0x3d => crate::shows::part(q, desk, shown),
        0x40..=0x43 => on_both::<Ring>(q, desk),
        0x44 => on_mixed(desk),
        0x50..=0x53 => on_both::<Vector>(q, desk),
        0x60..=0x66 => over::<Ring>(q, desk),
        0x70..=0x76 => over::<Vector>(q, desk),
        0x80..=0x84 => crate::texts::call(q, desk, shown),
        _ => within(q, desk), // 90 and 91
    }
}

// A ring's calls and a vector's stay apart: they are others by other numbers, and one of a vector's reads the second's slots.
fn on_ring(q: Asked, desk: &mut Desk) -> Did {
    let over = Ring::from(desk.first.state);
    let told = ring_told(q, over, desk.first.lent());
    desk.after(over, told)
}

fn ring_told(q: Asked, over: Ring, slots: &mut [u32]) -> Result<Answer<Ring>, Refusal> {
    let Asked { op, a, x, .. } = q;
    match op {
        0x10 => Ring::new(slots),
        0x11 => Ring::with_capacity(slots, a),
        0x12 => over.len(slots),
        0x13 => over.read(slots, a),
        0x14 => over.reserve(slots, a),
        0x15 => over.write(slots, a, x),
        0x16 => over.push_back(slots, x),
        0x17 => over.push_front(slots, x),
        0x18 => over.pop_back(slots),
        0x19 => over.pop_front(slots),
        0x1a => over.insert(slots, a, x),
        0x1b => over.remove(slots, a),
        0x1c => over.truncate(slots, a),
        0x1d => over.resize(slots, a, x),
        _ => over.clear(slots), // 1e
    }
}

// With an allowance, which is the cursor's front: a line has no third number. The cursor stays.
fn within(q: Asked, desk: &mut Desk) -> Did {
    let over = Ring::from(desk.first.state);
    let allowance = desk.cursor.front;
    let slots = desk.first.lent();
    let told = match q.op {
        0x90 => over.insert_within(slots, q.a, q.x, allowance),
        _ => over.remove_within(slots, q.a, allowance), // 91
    };
    desk.after(over, told)
}

fn on_vector(q: Asked, desk: &mut Desk) -> Did {
    let over = Vector::from(desk.first.state);
    let told = vector_told(q, over, desk.first.lent(), desk.second.lent());
    desk.after(over, told)
}

fn vector_told(
    q: Asked,
    over: Vector,
    slots: &mut [u32],
    theirs: &[u32],
) -> Result<Answer<Vector>, Refusal> {
    let Asked { op, a, b, x } = q;
    match op {
        0x20 => Vector::new(slots),
        0x21 => Vector::with_capacity(slots, a),
        0x22 => over.len(slots),
        0x23 => over.read(slots, a),
        0x24 => over.reserve(slots, a),
        0x25 => over.write(slots, a, x),
        0x26 => over.push(slots, x),
        0x27 => over.pop(slots),
        0x28 => Vector::from_elem(slots, a, x),
        0x29 => over.swap_remove(slots, a),
        0x2a => over.insert(slots, a, x),
        0x2b => over.remove(slots, a),
        0x2c => over.truncate(slots, a),
        0x2d => over.resize(slots, a, x),
        0x2e => over.clear(slots),
        0x2f => over.extend_from_slice(slots, &theirs[..a.min(theirs.len())]),
        0x30 => over.is_empty(slots),
        0x31 => over.try_reserve(slots, a),
        0x32 => over.try_reserve_exact(slots, a),
        _ => over.ask_range(slots, a, b), // 33
    }
}

// Both as rings, or both as vectors: the last digit says the call.
fn on_both<C: Container + From<State> + Left>(q: Asked, desk: &mut Desk) -> Did {
    let first = C::from(desk.first.state);
    let second = C::from(desk.second.state);
    let slots = desk.first.lent();
    let theirs = desk.second.lent();
    let told = match q.op % 16 {
        0 => pairs::append(first, slots, second, theirs),
        1 => pairs::split_off(first, slots, q.a, second, theirs),
        2 => pairs::clone(first, slots, second, theirs),
        _ => pairs::same(first, slots, second, theirs),
    };
    desk.after(Both { first, second }, told)
}

// The first as a ring, the second as a vector.
fn on_mixed(desk: &mut Desk) -> Did {
    let first = Ring::from(desk.first.state);
    let second = Vector::from(desk.second.state);
    let told = pairs::same(first, desk.first.lent(), second, desk.second.lent());
    desk.after(Both { first, second }, told)
}

// The cursor's calls over the first, as a ring or as a vector: the last digit says the call. Where iter is refused the cursor is 0, 0.
fn over<C: Container + From<State> + Left>(q: Asked, desk: &mut Desk) -> Did {
    let over = C::from(desk.first.state);
    over.lay(desk);
    let call = q.op % 16;
    if call == 6 {
        return filled(over, desk);
    }
    if call < 2 {
        desk.cursor = Cursor { front: 0, back: 0 };
    }
    let by = desk.cursor;
    let slots = desk.first.lent();
    let told = match call {
        0 => Cursor::iter(over, slots),
        1 => Cursor::into_iter(over, slots),
        2 => by.step_front(over, slots),
        3 => by.step_back(over, slots),
        4 => by.peek_front(over, slots, q.a),
        _ => by.peek_back(over, slots, q.a), // 5
    };
    desk.after(by, told)
}

// from_iter fills the second, a vector.
fn filled<C: Container>(over: C, desk: &mut Desk) -> Did {
    let by = desk.cursor;
    let to = Vector::from(desk.second.state);
    let told = by.from_iter(over, desk.first.lent(), to, desk.second.lent());
    desk.after(
        Both {
            first: by,
            second: to,
        },
        told,
    )
}

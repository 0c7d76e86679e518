// What stands on the desk, two containers, a cursor and a text, and what is placed there.
ghost use Rattle.std.specs.Prelude.{◌≡◌, ◌≤◌};

use crate::asked::{Asked, Counts};
use crate::texts::Text;
use containers::Container;
use cursors::Cursor;
use ring::Ring;
use runs::total;
use runs::total::Total;
use vector::Vector;

// The most slots of a container.
const MOST: usize = 4200;

// A container's state. Whether it is a ring or a vector is said by the call that is made on it: a call on a vector looks at no head, and leaves 0.
// So it is no Ring, though it has a ring's fields.
#[derive(Clone, Copy)]
pub(crate) struct State {
    pub(crate) head: usize,
    pub(crate) len: usize,
    pub(crate) total: Total,
}

impl State {
    // Without entries.
    pub(crate) fn none() -> State {
        State::of(ring::state(0, 0, total::none()))
    }

    pub(crate) fn of<C: Container>(container: C) -> State {
        State {
            head: container.head(),
            len: container.len(),
            total: container.total(),
        }
    }
}

impl From<State> for Ring {
    fn from(s: State) -> Ring {
        ring::state(s.head, s.len, s.total)
    }
}

impl From<State> for Vector {
    fn from(s: State) -> Vector {
        vector::state(s.len, s.total)
    }
}

// A container: its slots, of which it has so many, and its state.
// No ghost field bounds cap, so that `count` does: tried, and `lent`, which makes a slice of a field, then gets no proof.
// An array and a count, as in texts.rt: a Vec may fail to be had, and there is no answer for that.
#[derive(Drop)]
pub(crate) struct Tray {
    slots: [u32; MOST],
    pub(crate) cap: usize,
    pub(crate) state: State,
}

impl Tray {
    fn new() -> Tray {
        Tray {
            slots: [0; MOST],
            cap: 0,
            state: State::none(),
        }
    }

    // So many slots, all 0, and no entry.
    fn clear(&mut self, cap: usize) {
        self.slots.fill(0);
        self.cap = cap.min(MOST);
        self.state = State::none();
    }

    // Another head and length: the total stays.
    fn set(&mut self, head: usize, len: usize) {
        self.state = State {
            head,
            len,
            ..self.state
        };
    }

    // How many slots it has.
    fn count(&self) -> usize
        ensures { result ≤ 4200 }
    {
        self.cap.min(MOST)
    }

    // Its slots.
    pub(crate) fn held(&self) -> &[u32] {
        &self.slots[..self.count()]
    }

    // The slots that a call is lent.
    pub(crate) fn lent(&mut self) -> &mut [u32] {
        let count = self.count();
        &mut self.slots[..count]
    }
}

// Two containers, a cursor and a text.
#[derive(Drop)]
pub(crate) struct Desk {
    pub(crate) first: Tray,
    pub(crate) second: Tray,
    pub(crate) cursor: Cursor,
    pub(crate) text: Text,
}

// A slot that isn't there is passed over.
pub(crate) fn lay(slots: &mut [u32], at: usize, x: u32) {
    if let Some(slot) = slots.get_mut(at) {
        *slot = x;
    }
}

impl Desk {
    // The desk at the start.
    pub(crate) fn new() -> Desk {
        Desk {
            first: Tray::new(),
            second: Tray::new(),
            cursor: Cursor { front: 0, back: 0 },
            text: Text::new(),
        }
    }

    // What a line can reach.
    pub(crate) fn counts(&self) -> Counts
        ensures { (result.cap ≡ self.now.first.cap) × (result.cap2 ≡ self.now.second.cap) × (result.size ≡ self.now.text.size) }
    {
        Counts {
            cap: self.first.cap,
            cap2: self.second.cap,
            size: self.text.size,
        }
    }

    // How many bytes the answer to a call takes: its line, and a line for each slot.
    pub(crate) fn room(&self) -> usize {
        170 + 9 * self.first.count() + 9 * self.second.count()
    }

    // Operations 01 to 0b: asked.rt lets no other through.
    // By number, as `Asked` has it.
    pub(crate) fn place(&mut self, q: Asked) {
        let Asked { op, a, b, x } = q;
        match op {
            0x01 => self.first.clear(a),
            0x02 => self.first.set(a, b),
            0x03 => lay(&mut self.first.slots, a, x),
            0x04 => self.second.clear(a),
            0x05 => self.second.set(a, b),
            0x06 => lay(&mut self.second.slots, a, x),
            0x07 => self.cursor = Cursor { front: a, back: b },
            0x08 => self.first.state.total.sum = a as u64,
            0x09 => self.second.state.total.sum = a as u64,
            0x0a => self.text.resize(a),
            _ => self.text.lay(a, x), // 0b
        }
    }
}

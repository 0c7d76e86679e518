// What an answer leaves on the desk: what the call names is changed, and the rest stays. A call on a vector leaves head 0.
use crate::desks::{Desk, State};
use containers::Container;
use cursors::Cursor;
use ring::Ring;
use table::answers;
use table::answers::{Answer, Both, Refusal};
use vector::Vector;

// What is printed of an answer beside the desk, and the slot that it reports.
// The number is the papers', since it is printed. `Numbered` without its state, field by field: `..a` copies nothing where the state's type differs.
#[derive(Clone, Copy)]
pub(crate) struct Did {
    pub(crate) number: u8,
    pub(crate) value: u32,
    pub(crate) moves: usize,
    pub(crate) slot: usize,
}

impl Did {
    // A part and a check bear no number and report no slot: the part's length, or yes or no, stands as the value.
    pub(crate) fn shows(value: u32) -> Did {
        Did {
            number: 0,
            value,
            moves: 0,
            slot: slots::NO_SLOT,
        }
    }
}

// What a call leaves, and where it stands on the desk.
pub(crate) trait Left: Copy {
    fn lay(self, desk: &mut Desk);
}

// A ring's and a vector's are alike: an impl for every Container would stand beside Cursor's and Both's, and impls may not overlap.
impl Left for Ring {
    fn lay(self, desk: &mut Desk) {
        desk.first.state = State::of(self);
    }
}

impl Left for Vector {
    fn lay(self, desk: &mut Desk) {
        desk.first.state = State::of(self);
    }
}

impl Left for Cursor {
    fn lay(self, desk: &mut Desk) {
        desk.cursor = self;
    }
}

impl<A: Left, B: Container> Left for Both<A, B> {
    fn lay(self, desk: &mut Desk) {
        self.first.lay(desk);
        desk.second.state = State::of(self.second);
    }
}

impl Desk {
    // What a call answered that was given this, as the papers number it. A refused call leaves what it was given.
    pub(crate) fn after<S: Left>(&mut self, given: S, told: Result<Answer<S>, Refusal>) -> Did {
        let a = answers::in_numbers(given, told);
        a.state.lay(self);
        Did {
            number: a.number,
            value: a.value,
            moves: a.moves,
            slot: a.slot,
        }
    }
}

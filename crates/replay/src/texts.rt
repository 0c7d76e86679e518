// The text on the desk: what is placed there, what a writer of the stored form leaves there, and what the readers and the check make of it.
ghost use Rattle.std.specs.Prelude.{◌≤◌};

use crate::answers::Did;
use crate::asked::Asked;
use crate::desks::Desk;
use crate::prints::Page;
use ring::Ring;
use vector::Vector;

// The most bytes of a text.
const ROOM: usize = 40000;

// A text: bytes, of which it has so many.
// An array and a count: a Vec may fail to be had, and there is no answer for that.
#[derive(Drop)]
pub(crate) struct Text {
    bytes: [u8; ROOM],
    pub(crate) size: usize,
    ghost within: { size ≤ 40000 },
}

impl Text {
    pub(crate) fn new() -> Text {
        Text {
            bytes: [0; ROOM],
            size: 0,
        }
    }

    // Its bytes.
    pub(crate) fn held(&self) -> &[u8] {
        &self.bytes[..self.size]
    }

    // The text has so many bytes from now on: those that were there stay, and new ones are -.
    pub(crate) fn resize(&mut self, size: usize) {
        let n = size.min(ROOM);
        if self.size < n {
            self.bytes[self.size..n].fill(b'-');
        }
        self.size = n;
    }

    // A byte that isn't there is passed over, and so is a number that is no byte.
    pub(crate) fn lay(&mut self, at: usize, x: u32) {
        if let (Some(byte), Ok(b)) = (self.bytes.get_mut(at), u8::try_from(x)) {
            *byte = b;
        }
    }
}

// Operations 80 to 84.
// By number, as `Asked` has it.
pub(crate) fn call(q: Asked, desk: &mut Desk, shown: &mut Page) -> Did {
    let text = desk.text.held();
    match q.op {
        0x80..=0x81 => written(q, desk, shown),
        0x82 => {
            let told = stored::readers::ring_read(text, desk.first.lent());
            desk.after(Ring::from(desk.first.state), told)
        }
        0x83 => {
            let told = stored::readers::vector_read(text, desk.first.lent());
            desk.after(Vector::from(desk.first.state), told)
        }
        _ => Did::shows(u32::from(stored::judges::check(text, q.a as u64))), // 84
    }
}

// The text is lent a bytes, each - before the call; they stay on the desk, and are shown.
fn written(q: Asked, desk: &mut Desk, shown: &mut Page) -> Did {
    desk.text.resize(0);
    desk.text.resize(q.a);
    let did = stored_into(q.op, desk);
    shown.put(desk.text.held());
    shown.put(b"\n");
    did
}

fn stored_into(op: u8, desk: &mut Desk) -> Did {
    let state = desk.first.state;
    let slots = desk.first.lent();
    let bytes = &mut desk.text.bytes[..];
    let text = &mut bytes[..desk.text.size];
    if op == 0x80 {
        let over = Ring::from(state);
        let told = stored::ring_text(over, slots, text);
        return desk.after(over, told);
    }
    let over = Vector::from(state);
    let told = stored::vector_text(over, slots, text);
    desk.after(over, told)
}

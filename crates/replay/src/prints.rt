// What is printed of a call: its answer with both containers, the cursor, the slot that it reports and both totals in one line, then a line for each slot.
ghost use Rattle.std.specs.Prelude.{◌≤◌};

use crate::answers::Did;
use crate::desks::Desk;
use std::io::Write;

// The answer line of 170, 9 bytes for each of 4,200 slots twice, a text of 40,000 and its LF.
const ROOM: usize = 115771;

// What is to be printed. What would not fit is left out, so that nothing is asked of a caller; there is room for the largest desk.
// An array and a count, as in texts.rt.
#[derive(Drop)]
pub(crate) struct Page {
    bytes: [u8; ROOM],
    at: usize,
    ghost within: { at ≤ 115771 },
}

impl Page {
    pub(crate) fn new() -> Page {
        Page {
            bytes: [0; ROOM],
            at: 0,
        }
    }

    pub(crate) fn put(&mut self, part: &[u8]) {
        let n = part.len();
        if n <= ROOM - self.at {
            self.bytes[self.at..self.at + n].copy_from_slice(part);
            self.at += n;
        }
    }

    // A number in so many digits, and the byte that ends it.
    fn put_word(&mut self, count: usize, x: u64, end: u8) {
        if count < ROOM - self.at {
            digits::put_hex(&mut self.bytes, self.at, count, x);
            self.bytes[self.at + count] = end;
            self.at += count + 1;
        }
    }

    // A line for each slot.
    pub(crate) fn put_slots(&mut self, slots: &[u32]) {
        for x in slots {
            self.put_word(8, u64::from(*x), b'\n');
        }
    }

    // Four digits say a slot; the low ones of a larger number, which no call may report, would pass for another, so that it is shown as fffe.
    fn put_answer(&mut self, did: Did, desk: &Desk) {
        let first = desk.first.state;
        let second = desk.second.state;
        self.put_word(2, u64::from(did.number), b' ');
        self.put_word(8, u64::from(did.value), b' ');
        self.put_word(16, did.moves as u64, b' ');
        let places = [
            first.head,
            first.len,
            second.head,
            second.len,
            desk.cursor.front,
            desk.cursor.back,
        ];
        for x in places {
            self.put_word(16, x as u64, b' ');
        }
        let slot = if 0xffff < did.slot { 0xfffe } else { did.slot };
        self.put_word(4, slot as u64, b' ');
        self.put_word(16, first.total.sum, b' ');
        self.put_word(16, second.total.sum, b'\n');
    }

    // What a call shows is put down first, since the call may change it: behind so many bytes, which its answer takes.
    pub(crate) fn leave(&mut self, room: usize) {
        self.at = room.min(ROOM);
    }

    // The answer and all slots, in the bytes that were left.
    pub(crate) fn put_all(&mut self, did: Did, desk: &Desk) {
        let end = self.at;
        self.at = 0;
        self.put_answer(did, desk);
        self.put_slots(desk.first.held());
        self.put_slots(desk.second.held());
        self.at = end;
    }

    // All that was put down goes out, in one write, and the page is empty again.
    pub(crate) fn write<W: Write>(&mut self, output: &mut W) {
        let _ = output.write_all(&self.bytes[..self.at]);
        self.at = 0;
    }
}

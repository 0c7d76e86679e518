// Cursors by value over a ring or a vector: what a step, a peek, iter and from_iter answer. Any cursor at all may be given: without front <= back <= n it is
// refused.
// A container's state and its slots come one by one, as C passes them.
#![tactic(auto)]

ghost use Rattle.std.specs.Prelude.{◌≡◌};
ghost use Rattle.table.specs.Calls.{look, iter, into_iter, step_front, step_back, peek_front, peek_back, from_iter};
ghost use Rattle.containers.specs.Reading.{tray_by};
ghost use Rattle.cursors.specs.Seen.{cursor, why_no_step, Starts, Steps, Takes};

use containers::Container;
use runs::total;
use table::answers::{Answer, Both, Refusal};
use vector::Vector;

#[derive(Clone, Copy)]
pub struct Cursor {
    pub front: usize,
    pub back: usize,
}

impl Cursor {
    // The cursor over all entries.
    pub fn iter<C: Container>(over: C, slots: &[u32]) -> Result<Answer<Cursor>, Refusal>
        ensures { Starts C.reads.kind (look iter) (tray_by C.reads over slots.now) result }
    {
        if over.is_invalid(slots.len()) {
            return Err(Refusal::Invalid);
        }
        let back = over.len();
        Ok(Answer::telling(0, 0, Cursor { front: 0, back }))
    }

    pub fn into_iter<C: Container>(over: C, slots: &[u32]) -> Result<Answer<Cursor>, Refusal>
        ensures { Starts C.reads.kind (look into_iter) (tray_by C.reads over slots.now) result }
    {
        Cursor::iter(over, slots) // upstream's name for a container that is given away
    }

    // Why a step, at either end, is refused: it is asked once the call's one test has failed.
    fn no_step<C: Container>(self, over: C, cap: usize) -> Refusal
        ensures { result ≡ why_no_step C.reads.kind cap (C.reads.head over) (C.reads.size over) self }
    {
        if over.is_invalid(cap) {
            return Refusal::Invalid;
        }
        if table::astray(self.front, self.back, over.len()) {
            return Refusal::Beyond;
        }
        Refusal::Empty
    }

    // The entry at the front, and the cursor moved past it.
    pub fn step_front<C: Container>(self, over: C, slots: &[u32]) -> Result<Answer<Cursor>, Refusal>
        ensures { Steps C.reads.kind (look (step_front (cursor self))) (tray_by C.reads over slots.now) self result }
    {
        let cap = slots.len();
        let Cursor { front, back } = self;
        if over.has_no_step(cap, front, back) {
            return Err(self.no_step(over, cap));
        }
        let at = over.slot(cap, front);
        let rest = Cursor {
            front: front + 1,
            back,
        };
        Ok(Answer::telling(slots[at], 0, rest))
    }

    // The same at the back.
    pub fn step_back<C: Container>(self, over: C, slots: &[u32]) -> Result<Answer<Cursor>, Refusal>
        ensures { Steps C.reads.kind (look (step_back (cursor self))) (tray_by C.reads over slots.now) self result }
    {
        let cap = slots.len();
        let Cursor { front, back } = self;
        if over.has_no_step(cap, front, back) {
            return Err(self.no_step(over, cap));
        }
        let at = over.slot(cap, back - 1);
        let rest = Cursor {
            front,
            back: back - 1,
        };
        Ok(Answer::telling(slots[at], 0, rest))
    }

    // The k-th entry from the front, and the cursor stays.
    pub fn peek_front<C: Container>(
        self,
        over: C,
        slots: &[u32],
        k: usize,
    ) -> Result<Answer<Cursor>, Refusal>
        ensures { Steps C.reads.kind (look (peek_front (cursor self) k)) (tray_by C.reads over slots.now) self result }
    {
        let cap = slots.len();
        if over.is_invalid(cap) {
            return Err(Refusal::Invalid);
        }
        let Cursor { front, back } = self;
        if table::astray(front, back, over.len()) {
            return Err(Refusal::Beyond);
        }
        if back - front <= k {
            return Err(Refusal::Beyond);
        }
        let at = over.slot(cap, front + k);
        Ok(Answer::telling(slots[at], 0, self))
    }

    // The same from the back. The tests stand in both: a function of their own would have to promise again all that the slot asks, in more lines than it takes away.
    pub fn peek_back<C: Container>(
        self,
        over: C,
        slots: &[u32],
        k: usize,
    ) -> Result<Answer<Cursor>, Refusal>
        ensures { Steps C.reads.kind (look (peek_back (cursor self) k)) (tray_by C.reads over slots.now) self result }
    {
        let cap = slots.len();
        if over.is_invalid(cap) {
            return Err(Refusal::Invalid);
        }
        let Cursor { front, back } = self;
        if table::astray(front, back, over.len()) {
            return Err(Refusal::Beyond);
        }
        if back - front <= k {
            return Err(Refusal::Beyond);
        }
        let at = over.slot(cap, back - 1 - k);
        Ok(Answer::telling(slots[at], 0, self))
    }

    // The empty vector T gets the remaining entries, and the cursor ends. T may come with any total, which they are added to. Where nothing remains there may be no
    // slot to start from.
    pub fn from_iter<C: Container>(
        self,
        over: C,
        slots: &[u32],
        to: Vector,
        theirs: &mut [u32],
    ) -> Result<Answer<Both<Cursor, Vector>>, Refusal>
        ensures { Takes C.reads.kind (from_iter (cursor self)) (tray_by C.reads over slots.now) self to theirs.old result theirs.new }
    {
        let cap = slots.len();
        if over.is_invalid(cap) {
            return Err(Refusal::Invalid);
        }
        let room = theirs.len();
        let held = to.len;
        if table::invalid_vector(room, held) {
            return Err(Refusal::SecondInvalid);
        }
        let Cursor { front, back } = self;
        if table::astray(front, back, over.len()) {
            return Err(Refusal::Beyond);
        }
        if held != 0 {
            return Err(Refusal::Taken);
        }
        if room < back - front {
            return Err(Refusal::Full);
        }
        if front == back {
            return Ok(Answer::telling(
                0,
                0,
                Both {
                    first: self,
                    second: to,
                },
            ));
        }
        let by = over.bring(slots, front, back, theirs);
        let second = vector::state(back - front, total::more(to.total, by));
        let ended = Cursor { front: back, back };
        Ok(Answer::telling(
            0,
            0,
            Both {
                first: ended,
                second,
            },
        ))
    }
}

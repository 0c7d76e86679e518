// A ring of entries in lent slots. Each call's promise is its row of the table: what is seen of it is what the table says.
#![tactic(auto)]

mod within; // within.rt: the calls with an allowance

ghost use Rattle.std.specs.Prelude.{◌≡◌};
ghost use Rattle.table.specs.Calls.{new, with_capacity, look, len, read, reserve};
ghost use Rattle.table.specs.Calls.{write, push, push_front, pop, pop_front, insert, remove, truncate, resize, clear};
ghost use Rattle.slots.specs.Layout.{ring};
ghost use Rattle.slots.specs.Total.{changed};
ghost use Rattle.runs.specs.Width.{summing};
ghost use Rattle.table.specs.Does.{head_after};
ghost use Rattle.table.specs.Answers.{told};
ghost use Rattle.table.specs.declared.answers.Refusal.TheVariants.{Invalid, Full};
ghost use Rattle.ring.specs.Seen.{Meets, Makes, state};
ghost use Rattle.ring.specs.Tested.{Tells};

use runs::total;
use runs::total::Total;
use table::answers::{Answer, Refusal};

// The state: the slot of position 0, how many entries there are, and their total, which is what they add up to unless a wrong one was given.
#[derive(Clone, Copy)]
pub struct Ring {
    pub head: usize,
    pub len: usize,
    pub total: Total,
}

impl Ring {
    pub fn new(slots: &[u32]) -> Result<Answer<Ring>, Refusal>
        ensures { Makes new slots.now result slots.now }
    {
        let cap = slots.len();
        if slots::MOST < cap {
            return Err(Refusal::Invalid);
        }
        Ok(done(0, 0, 0, 0, total::none())) // what the slots hold is no entry's
    }

    pub fn with_capacity(slots: &[u32], k: usize) -> Result<Answer<Ring>, Refusal>
        ensures { Makes (with_capacity k) slots.now result slots.now }
    {
        if slots::MOST < slots.len() {
            return Err(Refusal::Invalid);
        }
        if slots.len() < k {
            return Err(Refusal::Full);
        }
        Ok(done(0, 0, 0, 0, total::none())) // so many would fit, and none is in it
    }

    pub fn len(self, slots: &[u32]) -> Result<Answer<Ring>, Refusal>
        ensures { Meets (look len) self slots.now result slots.now }
    {
        self.valid_on(slots.len())?;
        Ok(shows(runs::word(self.len), self))
    }

    pub fn read(self, slots: &[u32], i: usize) -> Result<Answer<Ring>, Refusal>
        ensures { Meets (look (read i)) self slots.now result slots.now }
    {
        let cap = slots.len();
        self.holding(cap, i, Refusal::Beyond)?;
        let at = slots::slot(cap, self.head, i); // i < len: a free slot's number is no entry
        Ok(shows(slots[at], self).lit(at))
    }

    // Asks whether there is room for k more, and changes nothing.
    pub fn reserve(self, slots: &[u32], k: usize) -> Result<Answer<Ring>, Refusal>
        ensures { Meets (look (reserve k)) self slots.now result slots.now }
    {
        let cap = slots.len();
        self.valid_on(cap)?;
        if cap - self.len < k {
            return Err(Refusal::Full);
        }
        Ok(shows(0, self))
    }

    pub fn write(self, slots: &mut [u32], i: usize, x: u32) -> Result<Answer<Ring>, Refusal>
        ensures { Meets (write i x) self slots.old result slots.new }
    {
        let cap = slots.len();
        self.holding(cap, i, Refusal::Beyond)?;
        let Ring { head, len, .. } = self;
        let at = slots::slot(cap, head, i);
        let old = slots[at];
        slots[at] = x;
        let total = total::traded(self.total, x, old);
        Ok(done(old, 0, head, len, total).lit(at))
    }

    pub fn push_back(self, slots: &mut [u32], x: u32) -> Result<Answer<Ring>, Refusal>
        ensures { Meets (push x) self slots.old result slots.new }
    {
        let cap = slots.len();
        self.roomy(cap)?;
        let Ring { head, len, .. } = self;
        let at = slots::slot(cap, head, len);
        slots[at] = x;
        Ok(entered(x, 0, head, len + 1, self.total).lit(at))
    }

    pub fn push_front(self, slots: &mut [u32], x: u32) -> Result<Answer<Ring>, Refusal>
        ensures { Meets (push_front x) self slots.old result slots.new }
    {
        let cap = slots.len();
        self.roomy(cap)?;
        let Ring { head, len, .. } = self;
        let first = slots::one_back(cap, head); // of an empty ring too, whose head is 0
        slots[first] = x;
        Ok(entered(x, 0, first, len + 1, self.total).lit(first))
    }

    pub fn pop_back(self, slots: &mut [u32]) -> Result<Answer<Ring>, Refusal>
        ensures { Meets pop self slots.old result slots.new }
    {
        let cap = slots.len();
        self.holding(cap, 0, Refusal::Empty)?;
        let Ring { head, len, .. } = self;
        let at = slots::slot(cap, head, len - 1);
        let old = slots[at];
        slots[at] = 0;
        Ok(took(old, 0, head, len - 1, self.total).lit(at))
    }

    pub fn pop_front(self, slots: &mut [u32]) -> Result<Answer<Ring>, Refusal>
        ensures { Meets pop_front self slots.old result slots.new }
    {
        let cap = slots.len();
        self.holding(cap, 0, Refusal::Empty)?;
        let Ring { head, len, .. } = self;
        let old = slots[head];
        slots[head] = 0;
        let front = slots::one_on(cap, head);
        Ok(took(old, 0, front, len - 1, self.total).lit(head))
    }

    // The fewer entries are carried: those before i, or those from i on.
    pub fn insert(self, slots: &mut [u32], i: usize, x: u32) -> Result<Answer<Ring>, Refusal>
        ensures { Meets (insert i x) self slots.old result slots.new }
    {
        let cap = slots.len();
        self.valid_on(cap)?;
        let Ring { head, len, .. } = self;
        if len < i {
            return Err(Refusal::Beyond);
        }
        if cap <= len {
            return Err(Refusal::Full);
        }
        if i < len - i {
            let front = slots::one_back(cap, head);
            runs::shift_down(slots, front, 0, i);
            let at = slots::slot(cap, front, i);
            slots[at] = x;
            return Ok(entered(x, i, front, len + 1, self.total).lit(at));
        }
        runs::shift_up(slots, head, i, len);
        let at = slots::slot(cap, head, i);
        slots[at] = x;
        Ok(entered(x, len - i, head, len + 1, self.total).lit(at))
    }

    // The fewer entries are carried: those before i, or those after. Where those before i are fewer, some are left.
    pub fn remove(self, slots: &mut [u32], i: usize) -> Result<Answer<Ring>, Refusal>
        ensures { Meets (remove i) self slots.old result slots.new }
    {
        let cap = slots.len();
        self.holding(cap, i, Refusal::Beyond)?;
        let Ring { head, len, .. } = self;
        let last = len - 1;
        let at = slots::slot(cap, head, i);
        let old = slots[at];
        if i < last - i {
            runs::shift_up(slots, head, 0, i);
            slots[head] = 0;
            let front = slots::one_on(cap, head);
            return Ok(took(old, i, front, last, self.total).lit(at));
        }
        runs::shift_down(slots, head, i, last);
        let freed = slots::slot(cap, head, last);
        slots[freed] = 0;
        Ok(took(old, last - i, head, last, self.total).lit(at))
    }

    // A ring on no slots has no slot for its head: where there is nothing to fill, here and below, that is a return of its own.
    pub fn truncate(self, slots: &mut [u32], k: usize) -> Result<Answer<Ring>, Refusal>
        ensures { Meets (truncate k) self slots.old result slots.new }
    {
        self.valid_on(slots.len())?;
        let Ring { head, len, .. } = self;
        if len <= k {
            return Ok(shows(0, self));
        }
        let gone = runs::clear::ring_clear(slots, head, k, len); // a free slot keeps what it held
        let total = total::less(self.total, gone);
        Ok(cut(head, k, total))
    }

    pub fn resize(self, slots: &mut [u32], k: usize, x: u32) -> Result<Answer<Ring>, Refusal>
        ensures { Meets (resize k x) self slots.old result slots.new }
    {
        let cap = slots.len();
        self.valid_on(cap)?;
        let Ring { head, len, .. } = self;
        if cap < k {
            return Err(Refusal::Full);
        }
        if k < len {
            let gone = runs::clear::ring_clear(slots, head, k, len);
            let total = total::less(self.total, gone);
            return Ok(cut(head, k, total));
        }
        if len < k {
            let total = total::more(self.total, total::times(k - len, x));
            runs::fill(slots, head, len, k, x);
            return Ok(done(0, 0, head, k, total));
        }
        Ok(shows(0, self))
    }

    pub fn clear(self, slots: &mut [u32]) -> Result<Answer<Ring>, Refusal>
        ensures { Meets clear self slots.old result slots.new }
    {
        self.valid_on(slots.len())?;
        let Ring { head, len, .. } = self;
        if len == 0 {
            return Ok(shows(0, self));
        }
        let gone = runs::clear::ring_clear(slots, head, 0, len);
        let total = total::less(self.total, gone);
        Ok(done(0, 0, 0, 0, total))
    }
}

// What stops a call before its work: past each of these the state is one of a ring on so many slots.
impl Ring {
    fn valid_on(self, cap: usize) -> Result<(), Refusal>
        ensures { Tells cap self.head self.len 0 1 Invalid result }
    {
        if table::invalid_ring(cap, self.head, self.len) {
            return Err(Refusal::Invalid);
        }
        Ok(())
    }

    // And position i holds an entry. One test lets a call go on; a second finds why one may not.
    fn holding(self, cap: usize, i: usize, why: Refusal) -> Result<(), Refusal>
        ensures { Tells cap self.head self.len i self.len why result }
    {
        if table::invalid_ring_or_beyond(cap, self.head, self.len, i) {
            self.valid_on(cap)?;
            return Err(why);
        }
        Ok(())
    }

    // And a slot is free.
    fn roomy(self, cap: usize) -> Result<(), Refusal>
        ensures { Tells cap self.head self.len self.len cap Full result }
    {
        if table::invalid_ring_or_full(cap, self.head, self.len) {
            self.valid_on(cap)?;
            return Err(Refusal::Full);
        }
        Ok(())
    }
}

// The state with this head, length and total: every state of a ring is put together here.
// Here and below head and length come as numbers: they are those after the call, of which there is no Ring yet.
pub fn state(head: usize, len: usize, total: Total) -> Ring
    ensures { result ≡ state head len total }
{
    Ring { head, len, total }
}

// The state of a ring that entries were taken out of: where none is left it starts at slot 0.
pub fn left(head: usize, len: usize, total: Total) -> Ring
    ensures { result ≡ state (head_after ring len head) len total }
{
    if len == 0 {
        return state(0, 0, total);
    }
    state(head, len, total)
}

// A call that is done and leaves the state.
pub fn shows(value: u32, ring: Ring) -> Answer<Ring>
    ensures { result ≡ told value 0 ring }
{
    Answer::telling(value, 0, ring)
}

// A call that is done, with the state afterwards.
pub fn done(value: u32, moves: usize, head: usize, len: usize, total: Total) -> Answer<Ring>
    ensures { result ≡ told value moves (state head len total) }
{
    Answer::telling(value, moves, state(head, len, total))
}

// A call that is done and has put x in.
fn entered(x: u32, moves: usize, head: usize, len: usize, total: Total) -> Answer<Ring>
    ensures { result ≡ told 0 moves (state head len (summing (changed total.sum x 0))) }
{
    done(0, moves, head, len, total::put(total, x))
}

// A call that is done and hands out the entry that it took, perhaps the last.
fn took(x: u32, moves: usize, head: usize, len: usize, total: Total) -> Answer<Ring>
    ensures { result ≡ told x moves (state (head_after ring len head) len (summing (changed total.sum 0 x))) }
{
    Answer::telling(x, moves, left(head, len, total::took(total, x)))
}

// A call that is done and has dropped entries, perhaps all.
fn cut(head: usize, len: usize, total: Total) -> Answer<Ring>
    ensures { result ≡ told 0 0 (state (head_after ring len head) len total) }
{
    Answer::telling(0, 0, left(head, len, total))
}

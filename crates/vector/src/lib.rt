// A vector of entries in lent slots. Each call's promise is its row of the table.
#![tactic(auto, using(table::proofs::Laws::Valid::state))]

pub mod looks; // looks.rt: the makings, and the calls that change nothing
pub mod parts; // parts.rt: the parts of the slots that are lent on

ghost use Rattle.std.specs.Prelude.{◌≡◌, ◌<◌, ◌+◌, ◌-◌, ◌^◌};
ghost use Rattle.table.specs.Answers.{told};
ghost use Rattle.table.specs.Calls.{write, push, pop, insert, remove, swap_remove, truncate, resize, clear, extend};
ghost use Rattle.table.specs.declared.answers.Refusal.TheVariants.{Invalid, Full};
ghost use Rattle.slots.specs.Total.{changed};
ghost use Rattle.runs.specs.Width.{summing};
ghost use Rattle.vector.specs.Seen.{Meets, state};
ghost use Rattle.vector.specs.Tested.{Tells};

use runs::total;
use runs::total::Total;
use table::answers::{Answer, Refusal};

#[derive(Clone, Copy)]
pub struct Vector {
    pub len: usize,
    pub total: Total,
}

impl Vector {
    pub fn write(self, slots: &mut [u32], i: usize, x: u32) -> Result<Answer<Vector>, Refusal>
        ensures { Meets (write i x) self slots.old result slots.new }
    {
        let cap = slots.len();
        self.holding(cap, i, Refusal::Beyond)?;
        let len = self.len;
        let old = slots[i];
        slots[i] = x;
        let total = total::traded(self.total, x, old);
        Ok(done(old, 0, len, total).lit(i))
    }

    pub fn push(self, slots: &mut [u32], x: u32) -> Result<Answer<Vector>, Refusal>
        ensures { Meets (push x) self slots.old result slots.new }
    {
        let cap = slots.len();
        self.roomy(cap)?;
        let len = self.len;
        slots[len] = x;
        Ok(self.entered(x, 0).lit(len))
    }

    pub fn pop(self, slots: &mut [u32]) -> Result<Answer<Vector>, Refusal>
        ensures { Meets pop self slots.old result slots.new }
    {
        let cap = slots.len();
        self.holding(cap, 0, Refusal::Empty)?;
        let len = self.len;
        let last = len - 1;
        let old = slots[last];
        slots[last] = 0;
        Ok(self.took(old, 0).lit(last))
    }

    pub fn insert(self, slots: &mut [u32], i: usize, x: u32) -> Result<Answer<Vector>, Refusal>
        ensures { Meets (insert i x) self slots.old result slots.new }
    {
        let cap = slots.len();
        self.valid_on(cap)?;
        let len = self.len;
        if len < i {
            return Err(Refusal::Beyond);
        }
        if cap <= len {
            return Err(Refusal::Full);
        }
        runs::run_up(slots, i, len);
        slots[i] = x;
        Ok(self.entered(x, len - i).lit(i))
    }

    pub fn remove(self, slots: &mut [u32], i: usize) -> Result<Answer<Vector>, Refusal>
        ensures { Meets (remove i) self slots.old result slots.new }
    {
        let cap = slots.len();
        self.holding(cap, i, Refusal::Beyond)?;
        let len = self.len;
        let last = len - 1;
        let old = slots[i];
        runs::run_down(slots, i, last);
        slots[last] = 0;
        Ok(self.took(old, last - i).lit(i))
    }

    // The last entry, where it is the one removed, is not stored back.
    pub fn swap_remove(self, slots: &mut [u32], i: usize) -> Result<Answer<Vector>, Refusal>
        ensures { Meets (swap_remove i) self slots.old result slots.new }
    {
        let cap = slots.len();
        self.holding(cap, i, Refusal::Beyond)?;
        let len = self.len;
        let last = len - 1;
        let old = slots[i];
        if i == last {
            slots[last] = 0;
            return Ok(self.took(old, 0).lit(i));
        }
        slots[i] = slots[last];
        slots[last] = 0;
        Ok(self.took(old, 1).lit(i))
    }

    pub fn truncate(self, slots: &mut [u32], k: usize) -> Result<Answer<Vector>, Refusal>
        ensures { Meets (truncate k) self slots.old result slots.new }
    {
        self.valid_on(slots.len())?;
        let len = self.len;
        if len <= k {
            return Ok(Answer::telling(0, 0, self));
        }
        let gone = runs::clear::run_clear(slots, k, len);
        let total = total::less(self.total, gone);
        Ok(done(0, 0, k, total))
    }

    pub fn resize(self, slots: &mut [u32], k: usize, x: u32) -> Result<Answer<Vector>, Refusal>
        ensures { Meets (resize k x) self slots.old result slots.new }
    {
        let cap = slots.len();
        self.valid_on(cap)?;
        let len = self.len;
        if cap < k {
            return Err(Refusal::Full);
        }
        if k < len {
            let gone = runs::clear::run_clear(slots, k, len);
            let total = total::less(self.total, gone);
            return Ok(done(0, 0, k, total));
        }
        let total = total::more(self.total, total::times(k - len, x));
        runs::run_fill(slots, len, k, x);
        Ok(done(0, 0, k, total))
    }

    pub fn clear(self, slots: &mut [u32]) -> Result<Answer<Vector>, Refusal>
        ensures { Meets clear self slots.old result slots.new }
    {
        self.valid_on(slots.len())?;
        let len = self.len;
        let gone = runs::clear::run_clear(slots, 0, len);
        let total = total::less(self.total, gone);
        Ok(done(0, 0, 0, total))
    }

    // The free slots are counted, not the sum of both, which could wrap.
    pub fn extend_from_slice(self, slots: &mut [u32], s: &[u32]) -> Result<Answer<Vector>, Refusal>
        ensures { Meets (extend s.now) self slots.old result slots.new }
    {
        let cap = slots.len();
        self.valid_on(cap)?;
        let len = self.len;
        let more = s.len();
        if cap - len < more {
            return Err(Refusal::Full);
        }
        let by = runs::bring::bring_part(slots, len, s);
        let total = total::more(self.total, by);
        Ok(done(0, 0, len + more, total))
    }

    // What a call answers that has put x in.
    fn entered(self, x: u32, moves: usize) -> Answer<Vector>
        requires { self.len + 1 < 2 ^ 64 }
        ensures { result ≡ told 0 moves (state (self.len + 1) (summing (changed self.total.sum x 0))) }
    {
        done(0, moves, self.len + 1, total::put(self.total, x))
    }

    // What a call answers that hands out x, which it took.
    fn took(self, x: u32, moves: usize) -> Answer<Vector>
        requires { 0 < self.len }
        ensures { result ≡ told x moves (state (self.len - 1) (summing (changed self.total.sum 0 x))) }
    {
        done(x, moves, self.len - 1, total::took(self.total, x))
    }
}

// What stops a call before its work: past each of these the state is one of a vector on so many slots.
impl Vector {
    fn valid_on(self, cap: usize) -> Result<(), Refusal>
        ensures { Tells cap self.len 0 1 Invalid result }
    {
        if table::invalid_vector(cap, self.len) {
            return Err(Refusal::Invalid);
        }
        Ok(())
    }

    // And position i holds an entry. One test lets a call go on; a second finds why one may not.
    fn holding(self, cap: usize, i: usize, why: Refusal) -> Result<(), Refusal>
        ensures { Tells cap self.len i self.len why result }
    {
        if table::invalid_vector_or_beyond(cap, self.len, i) {
            self.valid_on(cap)?;
            return Err(why);
        }
        Ok(())
    }

    // And a slot is free.
    fn roomy(self, cap: usize) -> Result<(), Refusal>
        ensures { Tells cap self.len self.len cap Full result }
    {
        if table::invalid_vector_or_full(cap, self.len) {
            self.valid_on(cap)?;
            return Err(Refusal::Full);
        }
        Ok(())
    }
}

// The state with this length and total: every state of a vector is put together here.
pub fn state(len: usize, total: Total) -> Vector
    ensures { result ≡ state len total }
{
    Vector { len, total }
}

// What a call answers that is done, with the state afterwards.
pub fn done(value: u32, moves: usize, len: usize, total: Total) -> Answer<Vector>
    ensures { result ≡ told value moves (state len total) }
{
    Answer::telling(value, moves, state(len, total))
}

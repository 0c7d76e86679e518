// How a vector is made, and the calls that change nothing.
ghost use Rattle.table.specs.Calls.{new, with_capacity, from_elem, look, len, is_empty, read, reserve, try_reserve, try_reserve_exact, range};
ghost use Rattle.vector.specs.Seen.{Meets, Makes};

use super::{Vector, done};
use runs::total;
use table::answers::{Answer, Refusal};

impl Vector {
    pub fn new(slots: &[u32]) -> Result<Answer<Vector>, Refusal>
        ensures { Makes new slots.now result slots.now }
    {
        if slots::MOST < slots.len() {
            return Err(Refusal::Invalid);
        }
        Ok(done(0, 0, 0, total::none())) // whatever the slots hold
    }

    pub fn with_capacity(slots: &[u32], capacity: usize) -> Result<Answer<Vector>, Refusal>
        ensures { Makes (with_capacity capacity) slots.now result slots.now }
    {
        let cap = slots.len();
        if slots::MOST < cap {
            return Err(Refusal::Invalid);
        }
        if cap < capacity {
            return Err(Refusal::Full);
        }
        Ok(done(0, 0, 0, total::none())) // likewise, where as many fit
    }

    // The slots past k keep what they held.
    pub fn from_elem(slots: &mut [u32], k: usize, x: u32) -> Result<Answer<Vector>, Refusal>
        ensures { Makes (from_elem k x) slots.old result slots.new }
    {
        let cap = slots.len();
        if slots::MOST < cap {
            return Err(Refusal::Invalid);
        }
        if cap < k {
            return Err(Refusal::Full);
        }
        runs::run_fill(slots, 0, k, x);
        Ok(done(0, 0, k, total::times(k, x)))
    }

    pub fn len(self, slots: &[u32]) -> Result<Answer<Vector>, Refusal>
        ensures { Meets (look len) self slots.now result slots.now }
    {
        self.valid_on(slots.len())?;
        Ok(Answer::telling(runs::word(self.len), 0, self))
    }

    pub fn is_empty(self, slots: &[u32]) -> Result<Answer<Vector>, Refusal>
        ensures { Meets (look is_empty) self slots.now result slots.now }
    {
        self.valid_on(slots.len())?;
        Ok(Answer::telling(u32::from(self.len == 0), 0, self))
    }

    pub fn read(self, slots: &[u32], i: usize) -> Result<Answer<Vector>, Refusal>
        ensures { Meets (look (read i)) self slots.now result slots.now }
    {
        let cap = slots.len();
        self.holding(cap, i, Refusal::Beyond)?;
        Ok(Answer::telling(slots[i], 0, self).lit(i))
    }

    // Whether k more entries have room.
    pub fn reserve(self, slots: &[u32], k: usize) -> Result<Answer<Vector>, Refusal>
        ensures { Meets (look (reserve k)) self slots.now result slots.now }
    {
        let cap = slots.len();
        self.valid_on(cap)?;
        if cap - self.len < k {
            return Err(Refusal::Full);
        }
        Ok(Answer::telling(0, 0, self))
    }

    // The slots are lent, so that nothing can fail to be found: this asks what `reserve` asks. Paper 01 has a row for each, and the C interface a function.
    #[tactic(auto, unfolding(table::specs::Does::does, table::specs::Reported::reported, table::specs::Totals::total_after))]
    pub fn try_reserve(self, slots: &[u32], k: usize) -> Result<Answer<Vector>, Refusal>
        ensures { Meets (look (try_reserve k)) self slots.now result slots.now }
    {
        self.reserve(slots, k)
    }

    #[tactic(auto, unfolding(table::specs::Does::does, table::specs::Reported::reported, table::specs::Totals::total_after))]
    pub fn try_reserve_exact(self, slots: &[u32], k: usize) -> Result<Answer<Vector>, Refusal>
        ensures { Meets (look (try_reserve_exact k)) self slots.now result slots.now }
    {
        self.try_reserve(slots, k)
    }

    // The range question: whether `range` would lend what is asked.
    pub fn ask_range(self, slots: &[u32], a: usize, b: usize) -> Result<Answer<Vector>, Refusal>
        ensures { Meets (look (range a b)) self slots.now result slots.now }
    {
        let cap = slots.len();
        self.valid_on(cap)?;
        if table::astray(a, b, self.len) {
            return Err(Refusal::Beyond);
        }
        Ok(Answer::telling(0, 0, self))
    }
}

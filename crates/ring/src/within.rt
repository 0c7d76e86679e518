// The calls with an allowance (request 11): the plain calls, with one test more before the first slot changes. Which side shifts is known by then, and so is how many move.
// The code stands here a second time: with one body for both, which was proved too, the plain calls took 1.04 times as long, and were to stay as they are (decision 60).
ghost use Rattle.table.specs.Calls.{insert, remove};
ghost use Rattle.ring.specs.Seen.{MeetsWithin};

use super::{Ring, entered, took};
use table::answers::{Answer, Refusal};

impl Ring {
    pub fn insert_within(
        self,
        slots: &mut [u32],
        i: usize,
        x: u32,
        allowance: usize,
    ) -> Result<Answer<Ring>, Refusal>
        ensures { MeetsWithin allowance (insert i x) self slots.old result slots.new }
    {
        let cap = slots.len();
        self.valid_on(cap)?;
        let Ring { head, len, .. } = self;
        if len < i {
            return Err(Refusal::Beyond); // there is no such place
        }
        if cap <= len {
            return Err(Refusal::Full);
        }
        if i < len - i {
            if allowance < i {
                return Err(Refusal::Moves); // those before i would shift
            }
            let front = slots::one_back(cap, head);
            runs::shift_down(slots, front, 0, i);
            let at = slots::slot(cap, front, i);
            slots[at] = x;
            return Ok(entered(x, i, front, len + 1, self.total).lit(at));
        }
        if allowance < len - i {
            return Err(Refusal::Moves); // those from i on would shift
        }
        runs::shift_up(slots, head, i, len);
        let at = slots::slot(cap, head, i);
        slots[at] = x;
        Ok(entered(x, len - i, head, len + 1, self.total).lit(at))
    }

    pub fn remove_within(
        self,
        slots: &mut [u32],
        i: usize,
        allowance: usize,
    ) -> Result<Answer<Ring>, Refusal>
        ensures { MeetsWithin allowance (remove i) self slots.old result slots.new }
    {
        let cap = slots.len();
        self.holding(cap, i, Refusal::Beyond)?;
        let Ring { head, len, .. } = self;
        let last = len - 1;
        let at = slots::slot(cap, head, i);
        let old = slots[at];
        if i < last - i {
            if allowance < i {
                return Err(Refusal::Moves); // those before i would close the gap
            }
            runs::shift_up(slots, head, 0, i);
            slots[head] = 0;
            let front = slots::one_on(cap, head);
            return Ok(took(old, i, front, last, self.total).lit(at));
        }
        if allowance < last - i {
            return Err(Refusal::Moves); // those behind i would close it
        }
        runs::shift_down(slots, head, i, last);
        let freed = slots::slot(cap, head, last);
        slots[freed] = 0;
        Ok(took(old, last - i, head, last, self.total).lit(at))
    }
}

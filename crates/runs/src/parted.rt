// The two runs of slots that a ring's positions stand in.
ghost use Rattle.slots.specs.Shift.{Reach, Parted};

use slots::slot;

// Slots start .. end, and, where these go up to the last slot, slots 0 .. rest.
#[derive(Clone, Copy)]
pub(crate) struct Runs {
    pub(crate) start: usize,
    pub(crate) end: usize,
    pub(crate) rest: usize,
}

// The runs of a ring's positions from .. to.
pub(crate) fn parted(cap: usize, head: usize, from: usize, to: usize) -> Runs
    requires { Reach cap head from to }
    ensures { Parted cap head from to result.start result.end result.rest }
{
    let start = slot(cap, head, from);
    let count = to - from;
    let near = count.min(cap - start);
    Runs {
        start,
        end: start + near,
        rest: count - near,
    }
}

// Calls on two containers, each with its lent slots: the container named first, and T. What is refused is refused before the first slot is written, and entries go
// over by whole runs of slots. Nothing to carry is a return of its own: a ring on no slots has no slot to carry from or to.
// A state and its slots come one by one, as C passes them. The first tests stand in each call: a function for both would promise again what each tells.
#![tactic(auto)]

ghost use Rattle.std.specs.Prelude.{◌-◌, ◌≤◌, length};
ghost use Rattle.slots.specs.Layout.{most, slot_of, entries};
ghost use Rattle.slots.specs.Compare.{Tells};
ghost use Rattle.table.specs.Calls.{append, split_off, clone, same};
ghost use Rattle.pairs.specs.Seen.{Meets};

use containers::Container;
use runs::total;
use table::answers::{Answer, Both, Refusal};

// T's entries are joined to the first's, and T is emptied.
pub fn append<C: Container>(
    first: C,
    slots: &mut [u32],
    second: C,
    theirs: &mut [u32],
) -> Result<Answer<Both<C, C>>, Refusal>
    ensures { Meets C.reads C.reads append first slots.old second theirs.old result slots.new theirs.new }
{
    let cap = slots.len();
    let len = first.len();
    let count = second.len();
    let ours = first.total();
    let other = second.total();
    if first.is_invalid(cap) {
        return Err(Refusal::Invalid);
    }
    if second.is_invalid(theirs.len()) {
        return Err(Refusal::SecondInvalid);
    }
    if cap - len < count {
        return Err(Refusal::Full);
    }
    if count == 0 {
        return Ok(Answer::telling(0, 0, Both { first, second }));
    }
    let sum = first.take_over(slots, len, second, theirs, 0, count);
    let joined = first.left(len + count, total::more(ours, sum));
    let emptied = second.left(0, total::less(other, sum));
    Ok(Answer::telling(
        0,
        0,
        Both {
            first: joined,
            second: emptied,
        },
    ))
}

// The first keeps its entries before at, and T, which is empty, gets the others.
pub fn split_off<C: Container>(
    first: C,
    slots: &mut [u32],
    at: usize,
    second: C,
    theirs: &mut [u32],
) -> Result<Answer<Both<C, C>>, Refusal>
    ensures { Meets C.reads C.reads (split_off at) first slots.old second theirs.old result slots.new theirs.new }
{
    let len = first.len();
    let count = second.len();
    let ours = first.total();
    let other = second.total();
    if first.is_invalid(slots.len()) {
        return Err(Refusal::Invalid);
    }
    let room = theirs.len();
    if second.is_invalid(room) {
        return Err(Refusal::SecondInvalid);
    }
    if len < at {
        return Err(Refusal::Beyond);
    }
    if count != 0 {
        return Err(Refusal::Taken);
    }
    if room < len - at {
        return Err(Refusal::Full);
    }
    if len == at {
        return Ok(Answer::telling(0, 0, Both { first, second }));
    }
    let sum = second.take_over(theirs, 0, first, slots, at, len);
    let kept = first.left(at, total::less(ours, sum));
    let rest = second.left(len - at, total::more(other, sum));
    Ok(Answer::telling(
        0,
        0,
        Both {
            first: kept,
            second: rest,
        },
    ))
}

// T, which is empty, gets a copy of the entries.
pub fn clone<C: Container>(
    first: C,
    slots: &[u32],
    second: C,
    theirs: &mut [u32],
) -> Result<Answer<Both<C, C>>, Refusal>
    ensures { Meets C.reads C.reads clone first slots.now second theirs.old result slots.now theirs.new }
{
    let len = first.len();
    let count = second.len();
    let ours = first.total();
    let other = second.total();
    if first.is_invalid(slots.len()) {
        return Err(Refusal::Invalid);
    }
    let room = theirs.len();
    if second.is_invalid(room) {
        return Err(Refusal::SecondInvalid);
    }
    if count != 0 {
        return Err(Refusal::Taken);
    }
    if room < len {
        return Err(Refusal::Full);
    }
    if len == 0 {
        return Ok(Answer::telling(0, 0, Both { first, second }));
    }
    let sum = first.bring(slots, 0, len, theirs);
    let copy = second.left(len, total::more(other, sum));
    Ok(Answer::telling(
        0,
        0,
        Both {
            first,
            second: copy,
        },
    ))
}

// Whether both hold the same entries in the same order, whatever their kinds, heads and capacities. A vector's entries are those of a ring with head 0.
pub fn same<A: Container, B: Container>(
    first: A,
    slots: &[u32],
    second: B,
    theirs: &[u32],
) -> Result<Answer<Both<A, B>>, Refusal>
    ensures { Meets A.reads B.reads same first slots.now second theirs.now result slots.now theirs.now }
{
    let len = first.len();
    let count = second.len();
    let _ = first.total(); // for its promise alone: a total has 64 bits
    let _ = second.total();
    if first.is_invalid(slots.len()) {
        return Err(Refusal::Invalid);
    }
    if second.is_invalid(theirs.len()) {
        return Err(Refusal::SecondInvalid);
    }
    if len != count {
        return Ok(Answer::telling(0, 0, Both { first, second }));
    }
    let alike = compared(slots, first.head(), theirs, second.head(), len);
    Ok(Answer::telling(u32::from(alike), 0, Both { first, second }))
}

// Whether the first entries of two containers with these heads are alike. Where both begin at slot 0, as vectors do, each is one run of slots.
// Within a caller a vector's head is the constant 0, and what only a ring needs falls away.
#[inline(always)]
fn compared(slots: &[u32], head: usize, theirs: &[u32], start: usize, count: usize) -> bool
    requires { (length slots.now ≤ most) × (head ≤ length slots.now - 1) × (start ≤ length theirs.now) × (count ≤ length slots.now) × (count ≤ length theirs.now) }
    ensures { Tells result (entries (slot_of (length slots.now) head) count slots.now) (entries (slot_of (length theirs.now) start) count theirs.now) }
{
    if (head == 0) & (start == 0) {
        return runs::compare::firsts(slots, theirs, count);
    }
    runs::compare::rings(slots, head, theirs, start, count)
}

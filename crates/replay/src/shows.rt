// What a part that a vector lends shows beside the answer: its entries.
// The calls are told by number, as `Asked` has it.
use crate::answers::{Did, Left};
use crate::asked::Asked;
use crate::desks;
use crate::desks::Desk;
use crate::prints::Page;
use vector::Vector;

// The entries as they were lent; how many there are.
pub(crate) fn part(q: Asked, desk: &mut Desk, shown: &mut Page) -> Did {
    let over = Vector::from(desk.first.state);
    over.lay(desk);
    let slots = desk.first.lent();
    let n = match q.op {
        0x38 => listed(over.range(slots, q.a, q.b), shown),
        0x39 => listed(over.as_slice(slots), shown),
        0x3a => listed(over.as_ref(slots), shown),
        0x3b => listed(over.deref(slots), shown),
        0x3c => through(over.as_mut_slice(slots), q, shown),
        _ => through(over.deref_mut(slots), q, shown), // 3d
    };
    Did::shows(n)
}

fn listed(part: &[u32], shown: &mut Page) -> u32 {
    shown.put_slots(part);
    u32::try_from(part.len()).unwrap_or(u32::MAX)
}

// The same, and then x goes to a position of the part.
fn through(part: &mut [u32], q: Asked, shown: &mut Page) -> u32 {
    let n = listed(part, shown);
    desks::lay(part, q.a, q.x);
    n
}

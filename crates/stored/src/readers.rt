// A stored text read back into lent slots. The whole text is judged before the first slot is written.
ghost use Rattle.std.specs.Prelude.{◌≡◌, true, ◌+◌, ◌-◌, ◌*◌, ◌≤◌, length, drop};
ghost use Rattle.slots.specs.Layout.{most, slot_of, entries, ring};
ghost use Rattle.slots.specs.Total.{total};
ghost use Rattle.table.specs.Does.{head_after};
ghost use Rattle.stored.specs.Judge.{are_lines, numbers};
ghost use Rattle.stored.specs.Reads.{RingRead, VectorRead};
ghost use Rattle.stored.specs.First.{kind_of, Takes};

use super::judges::{First, judged};
use super::kinds::Kind;
use ring::Ring;
use runs::total;
use runs::total::Total;
use table::answers::{Answer, Refusal};
use vector::Vector;

// What the lines say, a slot each. They were judged, so nothing is tested again.
// A place in the text, as where it was judged: `are_lines` says the same of the same place.
fn take_slots(text: &[u8], from: usize, slots: &mut [u32])
    requires { (are_lines (length slots.old) (drop from text.now) ≡ true) × (from + 9 * length slots.old ≤ length text.now) }
    ensures { slots.new ≡ numbers (length slots.old) (drop from text.now) }
{
    for (i, slot) in slots.iter_mut().enumerate() {
        let at = from + 9 * i;
        *slot = digits::low(&text[at..at + 8]) as u32;
    }
}

// An empty ring has head 0, whatever an older text says.
// `ring::left` has the rule for a whole state: here the head comes first, since the total is taken from it.
#[tactic(auto, using(crate::proofs::Taking::homes))]
fn home(head: usize, len: usize) -> usize
    ensures { result ≡ head_after ring len head }
{
    if len == 0 { 0 } else { head }
}

// What a ring's entries add up to.
fn ring_total(slots: &[u32], head: usize, len: usize) -> Total
    requires { (length slots.now ≤ most) × (len ≤ length slots.now) × (head ≤ length slots.now - 1) }
    ensures { result.sum ≡ total (entries (slot_of (length slots.now) head) len slots.now) }
{
    if len == 0 {
        return total::none();
    }
    total::ring(slots, head, 0, len)
}

// The slots taken from a text of this kind, exactly as many as its capacity, and its first line. Within its callers: by itself it takes 80 bytes of stack more.
#[tactic(auto, using(crate::proofs::Taking::taking))]
#[inline(always)]
fn take(text: &[u8], slots: &mut [u32], kind: Kind) -> Result<First, Refusal>
    ensures { Takes (kind_of kind) text.now slots.old result slots.new }
{
    if slots::MOST < slots.len() {
        return Err(Refusal::Invalid);
    }
    let Some(first) = judged(text, kind) else {
        return Err(Refusal::Unacceptable);
    };
    if first.cap != slots.len() {
        return Err(Refusal::Full);
    }
    take_slots(text, 17, slots);
    Ok(first)
}

// The ring that the text tells, into slots lent: exactly as many as its capacity. A vector's stays apart: past `take` each puts its own state together.
pub fn ring_read(text: &[u8], slots: &mut [u32]) -> Result<Answer<Ring>, Refusal>
    ensures { RingRead text.now slots.old result slots.new }
{
    let first = take(text, slots, Kind::Ring)?;
    let head = home(first.head, first.len);
    let total = ring_total(slots, head, first.len);
    Ok(ring::done(0, 0, head, first.len, total))
}

// The vector that the text tells, into slots lent.
pub fn vector_read(text: &[u8], slots: &mut [u32]) -> Result<Answer<Vector>, Refusal>
    ensures { VectorRead text.now slots.old result slots.new }
{
    let first = take(text, slots, Kind::Vector)?;
    let total = total::run(slots, 0, first.len);
    Ok(vector::done(0, 0, first.len, total))
}

// The stored form: a container written as lines of hexadecimal digits into a lent text.
#![tactic(auto)]

pub mod kinds; // kinds.rt: a ring's and a vector's, and which number says which
pub mod judges; // judges.rt: whether a text is acceptable
pub mod readers; // readers.rt: a text read back

ghost use Rattle.std.specs.Prelude.{◌≡◌, true, ◌+◌, ◌*◌, ◌≤◌, length};
ghost use Rattle.digits.specs.Put.{put};
ghost use Rattle.table.specs.Tray.{valid};
ghost use Rattle.stored.specs.Form.{kind_byte, head_in, first_line, state_digits, slot_line, slot_lines};
ghost use Rattle.stored.specs.First.{kind_of, Puts};
ghost use Rattle.stored.specs.Seen.{RingStored, VectorStored};

use kinds::Kind;
use ring::Ring;
use table::answers::{Answer, Refusal};
use vector::Vector;

// The end of the first line: a capacity, a head and a length.
#[tactic(auto, using(crate::proofs::Lines::state_put))]
fn put_state(text: &mut [u8], cap: usize, head: usize, len: usize)
    requires { 17 ≤ length text.old }
    ensures { text.new ≡ put text.old 4 (state_digits cap head len) }
{
    digits::put_hex(text, 4, 4, cap as u64);
    digits::put_hex(text, 8, 4, head as u64);
    digits::put_hex(text, 12, 4, len as u64);
    text[16] = 10;
}

// The first line, of a kind, a capacity, a head and a length.
#[tactic(auto, using(crate::proofs::Lines::first_put))]
fn put_first(text: &mut [u8], kind: Kind, cap: usize, head: usize, len: usize)
    requires { 17 ≤ length text.old }
    ensures { text.new ≡ put text.old 0 (first_line (kind_byte (kind_of kind)) cap head len) }
{
    digits::put_hex(text, 0, 2, kind as u64);
    digits::put_hex(text, 2, 2, 0);
    put_state(text, cap, head, len);
}

// A slot's line, from a place on.
// Here and below a text and a place: the promise is of the whole text, so that it says too what stands around the line.
#[tactic(auto, using(crate::proofs::Lines::line_put))]
fn put_line(text: &mut [u8], at: usize, x: u32)
    requires { at + 9 ≤ length text.old }
    ensures { text.new ≡ put text.old at (slot_line x) }
{
    digits::put_hex(text, at, 8, x as u64);
    text[at + 8] = 10;
}

// A line for each slot, from a place on.
fn put_slots(text: &mut [u8], from: usize, slots: &[u32])
    requires { from + 9 * length slots.now ≤ length text.old }
    ensures { text.new ≡ put text.old from (slot_lines slots.now) }
{
    for (i, x) in slots.iter().enumerate() {
        put_line(text, from + 9 * i, *x);
    }
}

// The stored form of a valid container, at the start of a text with room for it, and how long it is. Within its callers: a text without room is refused sooner.
#[inline(always)]
fn put_form(
    text: &mut [u8],
    kind: Kind,
    head: usize,
    len: usize,
    slots: &[u32],
) -> Result<u32, Refusal>
    requires { (valid (kind_of kind) (length slots.now) head len ≡ true) × (head ≡ head_in (kind_of kind) head) }
    ensures { Puts (kind_of kind) head len slots.now text.old result text.new }
{
    let cap = slots.len();
    let size = 17 + 9 * cap;
    if text.len() < size {
        return Err(Refusal::Full);
    }
    put_first(text, kind, cap, head, len);
    put_slots(text, 17, slots);
    Ok(runs::word(size))
}

// A ring's stored form. It and a vector's stay two: `Container` tells test and head, but the kind only in its ghost, so each would still name its own.
pub fn ring_text(over: Ring, slots: &[u32], text: &mut [u8]) -> Result<Answer<Ring>, Refusal>
    ensures { RingStored over slots.now text.old result text.new }
{
    let Ring { head, len, .. } = over;
    if table::invalid_ring(slots.len(), head, len) {
        return Err(Refusal::Invalid);
    }
    let size = put_form(text, Kind::Ring, head, len, slots)?;
    Ok(ring::shows(size, over))
}

// A vector's. Its head is 0.
pub fn vector_text(over: Vector, slots: &[u32], text: &mut [u8]) -> Result<Answer<Vector>, Refusal>
    ensures { VectorStored over slots.now text.old result text.new }
{
    let len = over.len;
    if table::invalid_vector(slots.len(), len) {
        return Err(Refusal::Invalid);
    }
    let size = put_form(text, Kind::Vector, 0, len, slots)?;
    Ok(Answer::telling(size, 0, over))
}

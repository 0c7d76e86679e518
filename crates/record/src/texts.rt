// The calls on a text alone: what it comes to, and a field's own bytes, with doubled quotes undone.
ghost use Rattle.std.specs.Prelude.{◌≡◌, ◌<◌, ◌≤◌, length};
ghost use Rattle.std.proofs.lemmas.List.Edits.{sets};
ghost use Rattle.record.specs.Undone.{undone};
ghost use Rattle.record.specs.Recorded.{judged, judges};
ghost use Rattle.record.specs.Steps.{past};
ghost use Rattle.record.specs.Unquoted.{Unquotes};

use super::kept::Kept;
use super::{Fault, pass};
use table::answers::Refusal;

// What a text comes to: where the next record starts, or where this one goes wrong.
pub fn judge(text: &[u8]) -> Result<u32, Fault>
    ensures { judged result ≡ judges text.now }
{
    if 65535 < text.len() {
        return Err(Fault::Long);
    }
    pass(text, &mut Kept::none())
}

// The position behind a byte of the field: two quotes are one byte.
// A part and a place, as in lib.rt: the answer is the next place. The byte is tested before the length: few bytes are quotes, and a pattern on the rest tests the length of each.
fn behind_byte(part: &[u8], at: usize) -> usize
    requires { at < length part.now }
    ensures { result ≡ past part.now at }
{
    if part[at] == b'"' && super::stands(part, at + 1, b'"') {
        return at + 2;
    }
    at + 1
}

// How many bytes a field's text has. Here and below a step goes over one byte or over two, which no range and no iterator of the library does.
fn undone_size(part: &[u8]) -> usize
    ensures { result ≡ length (undone part.now) }
{
    let mut at = 0;
    let mut size = 0;
    while at < part.len() {
        at = behind_byte(part, at);
        size += 1;
    }
    size
}

// They are written to the start of the lent text.
#[tactic(auto, using(crate::proofs::Laws::Undoing::none_undone, crate::proofs::Laws::Undoing::room_left, crate::proofs::Laws::Undoing::less_left, crate::proofs::Laws::Undoing::all_undone))]
fn put_undone(part: &[u8], out: &mut [u8])
    requires { length (undone part.now) ≤ length out.old }
    ensures { out.new ≡ sets out.old 0 (undone part.now) }
{
    let mut at = 0;
    let mut count = 0;
    while at < part.len() {
        out[count] = part[at];
        at = behind_byte(part, at);
        count += 1;
    }
}

// The bytes of a text from a start to an end, as a field's text: doubled quotes are undone.
pub fn field_text(text: &[u8], start: usize, end: usize, out: &mut [u8]) -> Result<u32, Refusal>
    ensures { Unquotes text.now start end out.old result out.new }
{
    if 65535 < text.len() {
        return Err(Refusal::Long);
    }
    if end < start {
        return Err(Refusal::Beyond);
    }
    if text.len() < end {
        return Err(Refusal::Beyond);
    }
    let part = &text[start..end];
    let size = undone_size(part);
    if out.len() < size {
        return Err(Refusal::Full);
    }
    put_undone(part, out);
    Ok(size as u32)
}

// Records of comma-separated text (RFC 4180, section 2), read from a lent text: where each field starts and ends goes on two vectors.
#![tactic(auto)]

pub mod texts; // texts.rt: the calls on a text alone
mod answers; // answers.rt: what a record that is read writes, and the answer on two vectors
mod kept; // kept.rt: the places of the first fields, and what goes from there into the slots

ghost use Rattle.std.specs.Prelude.{◌≡◌, ◌+◌, ◌≤◌, ◌<◌, Option, Some, None, length, take, drop};
ghost use Rattle.std.specs.List.{list_any, position};
ghost use Rattle.record.specs.Scan.{special, starts, scanned};
ghost use Rattle.record.specs.Places.{firsts, lasts};
ghost use Rattle.record.specs.Steps.{run, is_quote, body_run, field_at, stop_of, outcome, refusal_of, place_told, Judged};
ghost use Rattle.record.specs.Recorded.{longest, early, number_told, Records};

use kept::Kept;
use table::answers::{Answer, Both, Refusal};
use vector::Vector;

// Why a text starts with no record, and where it goes wrong.
#[derive(Clone, Copy, Debug, PartialEq, Eq)]
pub enum Fault {
    // the byte at a position may not stand there
    Stray(u32),
    // the quote at a position is never closed
    Unclosed(u32),
    // the text has more than 65,535 bytes
    Long,
}

impl From<Fault> for Refusal {
    ghost from_gives = { λ f e. e ≡ refusal_of f };

    fn from(f: Fault) -> Refusal {
        match f {
            Fault::Stray(_) => Refusal::Stray,
            Fault::Unclosed(_) => Refusal::Unclosed,
            Fault::Long => Refusal::Long,
        }
    }
}

// The position that is told with it; 0 of a text that is too long.
impl From<Fault> for u32 {
    ghost from_gives = { λ f n. n ≡ place_told f };

    fn from(f: Fault) -> u32 {
        match f {
            Fault::Stray(at) => at,
            Fault::Unclosed(at) => at,
            Fault::Long => 0,
        }
    }
}

// A field: where its bytes start and end, and the position behind it.
#[derive(Clone, Copy)]
struct Found {
    start: usize,
    end: usize,
    next: usize,
}

// What stands behind a field: a comma; the end of the record, with where the next one starts; a byte that may not.
#[derive(Clone, Copy)]
enum Stop {
    Comma,
    End(usize),
    Bad,
}

// Whether a byte may not stand in a field that is not quoted.
fn special(b: u8) -> bool
    ensures { result ≡ special b }
{
    matches!(b, b',' | b'"' | b'\r' | b'\n')
}

// Whether a byte stands at a position.
// Here and below a text and a place: each answers a place, from which the next one goes on; a struct of both would be made at each step.
fn stands(text: &[u8], at: usize, b: u8) -> bool
    ensures { result ≡ starts b (drop at text.now) }
{
    text.get(at) == Some(&b)
}

// Where the bytes of a field that is not quoted end.
// By the library's position, on the text from there on, `read` takes 9 of 100 instructions more on short fields, which just reach their 1.20 (docs/PERFORMANCE.md).
fn plain_end(text: &[u8], from: usize) -> usize
    requires { from ≤ length text.now }
    ensures { result ≡ from + run special (drop from text.now) }
{
    for i in from..text.len() {
        if special(text[i]) {
            return i;
        }
    }
    text.len()
}

// Whether a quote stands in a block.
fn quote_among(block: &[u8]) -> bool
    ensures { result ≡ list_any is_quote block.now }
{
    block.contains(&b'"')
}

// Blocks of sixteen bytes without a quote are passed.
// It steps by sixteen. The library's position over chunks tells a block's number, or none where all are passed, so the place would be worked out in two ways.
fn clear_blocks(text: &[u8], from: usize) -> usize
    requires { from ≤ length text.now }
    ensures { (result ≤ length text.now) × (result + run is_quote (drop result text.now) ≡ from + run is_quote (drop from text.now)) }
{
    let mut i = from;
    while 16 <= text.len() - i && !quote_among(&text[i..i + 16]) {
        i += 16;
    }
    i
}

// The first quote.
fn first_quote(left: &[u8]) -> Option<usize>
    ensures { result ≡ position is_quote left.now }
{
    left.iter().position(|b| *b == b'"')
}

// Where the next quote stands, or the end of the text.
fn next_quote(text: &[u8], from: usize) -> usize
    requires { from ≤ length text.now }
    ensures { result ≡ from + run is_quote (drop from text.now) }
{
    let i = clear_blocks(text, from);
    i + first_quote(&text[i..]).unwrap_or(text.len() - i)
}

// Where the quote stands that closes a field, or the end of the text. Two quotes are one byte of the field.
#[tactic(auto, using(crate::proofs::Laws::Runs::quoted_less, crate::proofs::Laws::Runs::pair_inside, crate::proofs::Laws::Runs::quoted_stop))]
fn quoted_end(text: &[u8], from: usize) -> usize
    requires { from ≤ length text.now }
    ensures { result ≡ from + body_run (drop from text.now) }
{
    let mut i = next_quote(text, from);
    while stands(text, i + 1, b'"') {
        i = next_quote(text, i + 2);
    }
    i
}

// The field at a place, or none if its quote is never closed.
#[tactic(auto, using(crate::proofs::Laws::Spans::quote_inside, crate::proofs::Laws::Spans::found_quoted, crate::proofs::Laws::Spans::found_unclosed, crate::proofs::Laws::Spans::found_plain))]
fn field(text: &[u8], at: usize) -> Option<Found>
    requires { at ≤ length text.now }
    ensures { result ≡ field_at text.now at }
{
    if stands(text, at, b'"') {
        let start = at + 1;
        let end = quoted_end(text, start);
        if end < text.len() {
            return Some(Found {
                start,
                end,
                next: end + 1,
            });
        }
        return None;
    }
    let end = plain_end(text, at);
    Some(Found {
        start: at,
        end,
        next: end,
    })
}

// What stands behind a field.
fn behind(text: &[u8], at: usize) -> Stop
    requires { at ≤ length text.now }
    ensures { result ≡ stop_of at (drop at text.now) }
{
    match text.get(at) {
        None => Stop::End(at),
        Some(b',') => Stop::Comma,
        Some(b'\n') => Stop::End(at + 1),
        Some(b'\r') if stands(text, at + 1, b'\n') => Stop::End(at + 2),
        _ => Stop::Bad,
    }
}

// The text is gone through, field by field: where the next record starts, or what goes wrong; and the fields up to there are kept.
// Their count is a local until then: as a part of what is kept it would be read and written at each.
fn pass(text: &[u8], kept: &mut Kept) -> Result<u32, Fault>
    requires { length text.now ≤ longest }
    ensures ending { result ≡ outcome (scanned text.now).ending }
    ensures judged { Judged text.now kept.new }
{
    let mut at = 0;
    let mut count = 0;
    while let Some(f) = field(text, at) {
        kept.keep(count, f.start, f.end);
        count += 1;
        match behind(text, f.next) {
            Stop::Comma => {
                at = f.next + 1;
            }
            Stop::End(after) => {
                kept.count = count;
                return Ok(after as u32);
            }
            Stop::Bad => {
                kept.count = count;
                return Err(Fault::Stray(f.next as u32));
            }
        }
    }
    kept.count = count;
    Err(Fault::Unclosed(at as u32))
}

// What is refused whatever the text says.
fn refusal(cap: usize, len: usize, room: usize, count: usize, size: usize) -> Result<(), Refusal>
    ensures { number_told result ≡ early cap len room count size }
{
    if table::invalid_vector(cap, len) {
        return Err(Refusal::Invalid);
    }
    if table::invalid_vector(room, count) {
        return Err(Refusal::SecondInvalid);
    }
    if len != 0 {
        return Err(Refusal::Taken);
    }
    if count != 0 {
        return Err(Refusal::Taken);
    }
    if 65535 < size {
        return Err(Refusal::Long);
    }
    Ok(())
}

// The text was judged: it is refused for what it says or for want of room, or the places go into the slots.
fn settle(
    text: &[u8],
    ending: Result<u32, Fault>,
    kept: &Kept,
    first: Vector,
    slots: &mut [u32],
    second: Vector,
    theirs: &mut [u32],
) -> Result<Answer<Both<Vector, Vector>>, Refusal>
    requires value { 0 ≡ early (length slots.old) first.len (length theirs.old) second.len (length text.now) }
    requires ending { ending ≡ outcome (scanned text.now).ending }
    requires judged { Judged text.now kept.now }
    ensures { Records text.now first slots.old second theirs.old result slots.new theirs.new }
{
    let at = ending?;
    if slots.len() < kept.count {
        return Err(Refusal::Full);
    }
    if theirs.len() < kept.count {
        return Err(Refusal::Full);
    }
    Ok(answers::enter(text, at, kept, first.total, slots, second.total, theirs))
}

// The record at the start of a text: where its fields start goes on the first vector, where they end on the second. The first sixteen places are kept
// while the text is judged, since a refused call changes no slot, and most records need no second look.
// A vector's state and its slots come one by one, as C passes them: one value of both would be taken apart again in each function here.
pub fn read(
    text: &[u8],
    first: Vector,
    slots: &mut [u32],
    second: Vector,
    theirs: &mut [u32],
) -> Result<Answer<Both<Vector, Vector>>, Refusal>
    ensures { Records text.now first slots.old second theirs.old result slots.new theirs.new }
{
    refusal(slots.len(), first.len, theirs.len(), second.len, text.len())?;
    let mut kept = Kept::none();
    let ending = pass(text, &mut kept);
    settle(text, ending, &kept, first, slots, second, theirs)
}

// What a line asks, or why it can't be taken: docs/REPLAY.md's operations, numbers and limits.
ghost use Rattle.std.specs.Prelude.{◌≡◌, is_ok};
ghost use Rattle.replay.specs.Lines.{is_known, takes_entry, is_beyond, reaches, takes};

use crate::prints::Page;

// An operation and its numbers, of which x is b where that is an entry.
// The operation stays a number, as docs/REPLAY.md has it: of an enum each of 82 cases would stand twice, where its number is read and where its call is made.
#[derive(Clone, Copy)]
pub(crate) struct Asked {
    pub(crate) op: u8,
    pub(crate) a: usize,
    pub(crate) b: usize,
    pub(crate) x: u32,
}

// How many slots each container has, and how many bytes the text.
#[derive(Clone, Copy)]
pub(crate) struct Counts {
    pub(crate) cap: usize,
    pub(crate) cap2: usize,
    pub(crate) size: usize,
}

// Why a line can't be taken.
#[derive(Clone, Copy)]
pub(crate) enum Why {
    // not 34 lower-case hexadecimal digits
    Damaged,
    // no such operation
    Unknown,
    // a number that the desk has no place for
    Beyond,
}

impl Why {
    // Its line, with the LF, so that it goes out as one.
    pub(crate) fn put(self, page: &mut Page) {
        match self {
            Why::Damaged => page.put(b"! not 34 lower-case hexadecimal digits\n"),
            Why::Unknown => page.put(b"! no such operation\n"),
            Why::Beyond => page.put(b"! out of reach\n"),
        }
    }
}

impl Asked {
    // Whether it places something; else it is a call.
    pub(crate) fn places(self) -> bool {
        self.op < 0x10
    }
}

#[tactic(auto, unfolding(crate::specs::Lines::is_known))]
fn known(op: u8) -> bool
    ensures { result ≡ is_known op }
{
    matches!(op,
        0x01..=0x0b
            | 0x10..=0x1e
            | 0x20..=0x33
            | 0x38..=0x3d
            | 0x40..=0x44
            | 0x50..=0x53
            | 0x60..=0x66
            | 0x70..=0x76
            | 0x80..=0x84
            | 0x90..=0x91)
}

// Whether b is to be an entry.
#[tactic(auto, unfolding(crate::specs::Lines::takes_entry))]
fn takes_entry(op: u8) -> bool
    ensures { result ≡ takes_entry op }
{
    matches!(
        op,
        0x03 | 0x06 | 0x15..=0x17
            | 0x1a
            | 0x1d
            | 0x25
            | 0x26
            | 0x28
            | 0x2a
            | 0x2d
            | 0x3c
            | 0x3d
            | 0x90 // 91 takes one out
    )
}

// Slots above 4,200, a slot that isn't there, an entry above 32 bits, more numbers than the second has slots, a text above 40,000 bytes, a byte that isn't
// there, a byte above 8 bits.
// One value in the order of its definition, specs/Lines.is_beyond.
#[tactic(auto, unfolding(crate::specs::Lines::is_beyond))]
fn beyond(op: u8, a: usize, b: usize, at: Counts) -> bool
    ensures { result ≡ is_beyond (takes_entry op) op a b at.cap at.cap2 at.size }
{
    (((op == 0x01) | (op == 0x04)) & (4200 < a))
        | ((op == 0x03) & (at.cap <= a))
        | ((op == 0x06) & (at.cap2 <= a))
        | (takes_entry(op) & (0x1_0000_0000 <= b))
        | ((op == 0x2f) & (at.cap2 < a))
        | (((op == 0x0a) | ((0x80 <= op) & (op <= 0x81))) & (40000 < a))
        | ((op == 0x0b) & ((at.size <= a) | (255 < b)))
}

#[tactic(auto, unfolding(crate::specs::Lines::reaches))]
fn sorted(op: u8, a: usize, b: usize, at: Counts) -> Result<Asked, Why>
    ensures { is_ok result ≡ reaches op a b at.cap at.cap2 at.size }
{
    if !known(op) {
        return Err(Why::Unknown);
    }
    if beyond(op, a, b, at) {
        return Err(Why::Beyond);
    }
    let x = u32::try_from(b).unwrap_or(0); // where b is no entry nothing looks at x
    Ok(Asked { op, a, b, x })
}

// What a line asks of a desk that has so many slots and bytes.
#[tactic(auto, unfolding(crate::specs::Lines::takes))]
pub(crate) fn judge(line: &[u8], at: Counts) -> Result<Asked, Why>
    ensures { is_ok result ≡ takes line.now at.cap at.cap2 at.size }
{
    if line.len() != 34 || !digits::are_digits(line) {
        return Err(Why::Damaged);
    }
    let op = digits::number(&line[..2]);
    let a = digits::number(&line[2..18]);
    let b = digits::number(&line[18..]);
    sorted(op as u8, a as usize, b as usize, at)
}

// The first fault of a stored text, in reading order.
ghost use Rattle.std.specs.Prelude.{◌≡◌, true, ◌+◌, ◌≤◌, ◌^◌, ◌<◌};
ghost use Rattle.lines.specs.Line.{is_line, field};
ghost use Rattle.stored.specs.Form.{kind_byte};
ghost use Rattle.stored.specs.First.{kind_of};
ghost use Rattle.show.specs.Faults.{fault_at, leading, line_fault, head_what, state_fault, first_fault, slots_fault, fault};

use lines::line_from;
use stored::kinds::Kind;

// What can be expected.
#[derive(Clone, Copy, Debug, PartialEq, Eq)]
pub(crate) enum Expected {
    ADigit,
    LineEnd,
    AKind,
    ZeroByte,
    FewSlots,
    AHead,
    NoHead,
    NoSlots,
    ALength,
    TextEnd,
}

// Where it stands, line and byte from 1, and what was expected there.
#[derive(Clone, Copy, Debug, PartialEq, Eq)]
pub(crate) struct Fault {
    pub line: u64,
    pub byte: u64,
    pub what: Expected,
}

fn fault_at(line: u64, byte: u64, what: Expected) -> Result<(), Fault>
    ensures { result ≡ fault_at line byte what }
{
    Err(Fault { line, byte, what })
}

// How many digits come first, n at most.
fn leading(rest: &[u8], n: usize) -> usize
    ensures { result ≡ leading n rest.now }
{
    let most = n.min(rest.len());
    for (i, b) in rest[..most].iter().enumerate() {
        if digits::no_digit(*b) {
            return i;
        }
    }
    most
}

// Of the line of n digits that a text begins with.
fn line_fault(rest: &[u8], n: usize, line: u64) -> Result<(), Fault>
    requires { n ≤ 16 }
    ensures { result ≡ line_fault line n rest.now }
{
    if line_from(rest, 0, n).line.is_some() {
        return Ok(());
    }
    let k = leading(rest, n);
    if k < n {
        return fault_at(line, k as u64 + 1, Expected::ADigit);
    }
    fault_at(line, n as u64 + 1, Expected::LineEnd)
}

// What a number of the first line says.
pub(crate) fn field_at(text: &[u8], at: usize, n: usize) -> u64
    requires { (is_line 16 text.now ≡ true) × (at + n ≤ 16) }
    ensures { (result ≡ field at n text.now) × (result < 16 ^ n) }
{
    digits::number(&text[at..at + n])
}

// What is expected of a head; none of one that fits.
#[tactic(auto, using(std::proofs::lemmas::Bool::Decides::nat_tests), unfolding(crate::specs::Faults::head_what))]
fn head_what(kind: Kind, cap: u64, head: u64) -> Option<Expected>
    ensures { result ≡ head_what (kind_byte (kind_of kind)) cap head }
{
    match kind {
        _ if head == 0 => None,
        Kind::Vector => Some(Expected::NoHead),
        Kind::Ring if cap == 0 => Some(Expected::NoSlots),
        Kind::Ring if cap <= head => Some(Expected::AHead),
        Kind::Ring => None,
    }
}

// Of the first line's numbers.
// They come one by one, as `first_fault` reads them: a struct would be made there and taken apart here.
#[tactic(auto, using(std::proofs::lemmas::Bool::Decides::nat_tests), unfolding(crate::specs::Faults::state_fault))]
fn state_fault(kind: u64, form: u64, cap: u64, head: u64, len: u64) -> Result<(), Fault>
    ensures { result ≡ state_fault kind form cap head len }
{
    let kind = match Kind::try_from(kind) {
        Ok(kind) => kind,
        Err(_) => return fault_at(1, 1, Expected::AKind),
    };
    if 0 < form {
        return fault_at(1, 3, Expected::ZeroByte);
    }
    if (slots::MOST as u64) < cap {
        return fault_at(1, 5, Expected::FewSlots);
    }
    if let Some(what) = head_what(kind, cap, head) {
        return fault_at(1, 9, what);
    }
    if cap < len {
        return fault_at(1, 13, Expected::ALength);
    }
    Ok(())
}

// Of so many slots' lines, the first of which is line 2, and of what comes behind them.
fn slots_fault(text: &[u8], count: usize) -> Result<(), Fault>
    requires { count ≤ 65536 }
    ensures { result ≡ slots_fault 2 count text.now }
{
    let mut rest = text;
    let end = 2 + count as u64;
    for line in 2..end {
        line_fault(rest, 8, line)?;
        rest = &rest[9..];
    }
    if rest.is_empty() {
        return Ok(());
    }
    fault_at(end, 1, Expected::TextEnd)
}

// The same, with the numbers read.
#[tactic(auto, unfolding(crate::specs::Faults::first_fault))]
fn first_fault(text: &[u8]) -> Result<(), Fault>
    requires { is_line 16 text.now ≡ true }
    ensures { result ≡ first_fault text.now }
{
    let kind = field_at(text, 0, 2);
    let form = field_at(text, 2, 2);
    let cap = field_at(text, 4, 4);
    let head = field_at(text, 8, 4);
    let len = field_at(text, 12, 4);
    state_fault(kind, form, cap, head, len)
}

// Of the whole text: none in one that is acceptable.
#[tactic(auto, unfolding(crate::specs::Faults::fault))]
pub(crate) fn find(text: &[u8]) -> Result<(), Fault>
    ensures { result ≡ fault text.now }
{
    line_fault(text, 16, 1)?;
    first_fault(text)?;
    let cap = field_at(text, 4, 4) as usize;
    slots_fault(&text[17..], cap)
}

// Whether a text is acceptable: its first line, its state, and a line for each slot, all of it before anything is stored.
ghost use Rattle.std.specs.Prelude.{◌≡◌, ◌<◌, drop, IfSome};
ghost use Rattle.stored.specs.Judge.{are_lines, is_older, stands, judge_by};
ghost use Rattle.stored.specs.First.{kind_of, first_of, begins, judged};

use super::kinds::Kind;
use lines::Lines;

// The numbers of a first line.
// The kind is the byte as it stands: a text is judged for a kind that is asked for, so no byte has to be decoded.
#[derive(Clone, Copy)]
pub(crate) struct First {
    pub kind: u64,
    pub form: u64,
    pub cap: usize,
    pub head: usize,
    pub len: usize,
}

// The first line of a text: a kind, a second byte, a capacity, a head and a length.
#[tactic(auto, using(crate::proofs::Judging::first_ways))]
fn first_of(text: &[u8]) -> Option<First>
    ensures { (result ≡ first_of text.now) × IfSome result (λ f. f.cap < 65536) }
{
    let x = lines::line_from(text, 0, 16).line?;
    Some(First {
        kind: x / 72057594037927936,
        form: x / 281474976710656 % 256,
        cap: (x / 4294967296 % 65536) as usize,
        head: (x / 65536 % 65536) as usize,
        len: (x % 65536) as usize,
    })
}

// Whether it is that of a text of this kind and of so many bytes.
fn begins(f: First, kind: Kind, size: usize) -> bool
    requires { f.cap < 65536 }
    ensures { result ≡ begins f (kind_of kind) size }
{
    (f.kind == kind as u64) & (f.form == 0) & (size == 17 + 9 * f.cap)
}

// Whether the state is an empty ring's with a head below the capacity, as older texts have it.
// Here and below the three numbers of a state, as their definitions take them: kind and form of a First are no part of one.
fn is_older(cap: usize, head: usize, len: usize) -> bool
    ensures { result ≡ is_older cap head len }
{
    (len == 0) & ((head < cap) & (cap <= slots::MOST))
}

// Whether a text of this kind may have this state. The head of a vector is 0.
#[tactic(auto, using(crate::proofs::Judging::stood))]
fn stands(kind: Kind, cap: usize, head: usize, len: usize) -> bool
    ensures { result ≡ stands (kind_of kind) cap head len }
{
    match kind {
        Kind::Ring => !table::invalid_ring(cap, head, len) | is_older(cap, head, len),
        Kind::Vector => (head == 0) & !table::invalid_vector(cap, len),
    }
}

// Whether so many slot lines stand in the text from a place on. A function by itself also in the archive: within its caller the loop is slower.
#[inline(never)]
fn are_lines(text: &[u8], from: usize, count: usize) -> bool
    ensures { result ≡ are_lines count (drop from text.now) }
{
    let mut lines = Lines { text, at: from };
    for _slot in 0..count {
        if lines.next_line(8).is_none() {
            return false;
        }
    }
    true
}

// The first line of a text that is acceptable for a kind.
#[tactic(auto, using(crate::proofs::Judging::judging))]
pub(crate) fn judged(text: &[u8], kind: Kind) -> Option<First>
    ensures { result ≡ judged (kind_of kind) text.now }
{
    let first = first_of(text)?;
    if begins(first, kind, text.len())
        && stands(kind, first.cap, first.head, first.len)
        && are_lines(text, 17, first.cap)
    {
        return Some(first);
    }
    None
}

// Whether the text is acceptable for a kind, by its number; of any other number it is not.
// The number is C's (decision 64).
#[tactic(auto, using(crate::proofs::Judging::by_number))]
pub fn check(text: &[u8], kind: u64) -> bool
    ensures { result ≡ judge_by kind text.now }
{
    let Ok(kind) = Kind::try_from(kind) else {
        return false;
    };
    judged(text, kind).is_some()
}

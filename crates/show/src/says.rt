// The other lines: a container's own, and that of a fault.
// A text and a place, and no Display, as in `words`.
ghost use Rattle.std.specs.Prelude.{◌+◌, ◌≤◌, length};
ghost use Rattle.words.specs.Wrote.{Wrote};
ghost use Rattle.show.specs.Lines.{sized, headed, len_total, ring_line, vector_line, older_line, older_said, expected, place_of, fault_line};

use super::faults::{Expected, Fault};
use words::{put_decimal, put_numbered, put_several, put_text};

// A kind's words and so many slots.
fn put_sized(words: &[u8], cap: u64, out: &mut [u8], at: usize) -> usize
    requires { at + length words.now + 30 ≤ length out.old }
    ensures { Wrote out.old at (sized words.now cap) result out.new × (result ≤ at + length words.now + 30) }
{
    let end = put_text(words, out, at);
    put_several(cap, b"slot", out, end)
}

// A ring's head.
fn put_head(head: u64, out: &mut [u8], at: usize) -> usize
    requires { at + 27 ≤ length out.old }
    ensures { Wrote out.old at (headed head) result out.new × (result ≤ at + 27) }
{
    let end = put_text(b", head ", out, at);
    put_decimal(head, out, end)
}

// A length and a total.
fn put_len_total(len: u64, total: u64, out: &mut [u8], at: usize) -> usize
    requires { at + 60 ≤ length out.old }
    ensures { Wrote out.old at (len_total len total) result out.new × (result ≤ at + 60) }
{
    let mut end = put_text(b", length ", out, at);
    end = put_numbered(len, b", total ", out, end);
    put_numbered(total, b"\n", out, end)
}

// A ring's line and a vector's stay two: a vector's has no head, and what both have stands in `put_sized` and `put_len_total`.
pub(crate) fn put_ring(
    cap: u64,
    head: u64,
    len: u64,
    total: u64,
    out: &mut [u8],
    at: usize,
) -> usize
    requires { at + 130 ≤ length out.old }
    ensures { Wrote out.old at (ring_line cap head len total) result out.new × (result ≤ at + 130) }
{
    let mut end = put_sized(b"ring of ", cap, out, at);
    end = put_head(head, out, end);
    put_len_total(len, total, out, end)
}

pub(crate) fn put_vector(cap: u64, len: u64, total: u64, out: &mut [u8], at: usize) -> usize
    requires { at + 130 ≤ length out.old }
    ensures { Wrote out.old at (vector_line cap len total) result out.new × (result ≤ at + 130) }
{
    let end = put_sized(b"vector of ", cap, out, at);
    put_len_total(len, total, out, end)
}

// That an older text has another head.
fn put_older(head: u64, out: &mut [u8], at: usize) -> usize
    requires { at + 60 ≤ length out.old }
    ensures { Wrote out.old at (older_line head) result out.new × (result ≤ at + 60) }
{
    let end = put_text(b"older text: its head ", out, at);
    put_numbered(head, b" is read as 0\n", out, end)
}

// The same, where it has another than it is read with.
#[tactic(auto, using(std::proofs::lemmas::Bool::Decides::nat_tests), unfolding(crate::specs::Lines::older_said))]
pub(crate) fn put_older_said(was: u64, head: u64, out: &mut [u8], at: usize) -> usize
    requires { at + 60 ≤ length out.old }
    ensures { Wrote out.old at (older_said was head) result out.new × (result ≤ at + 60) }
{
    if was == head {
        return at;
    }
    put_older(was, out, at)
}

// What was expected.
#[tactic(auto, unfolding(crate::specs::Lines::expected))]
fn put_expected(what: Expected, out: &mut [u8], at: usize) -> usize
    requires { at + 50 ≤ length out.old }
    ensures { Wrote out.old at (expected what) result out.new × (result ≤ at + 50) }
{
    match what {
        Expected::ADigit => put_text(b"a digit 0-9 or a-f", out, at),
        Expected::LineEnd => put_text(b"the end of the line (LF)", out, at),
        Expected::AKind => put_text(b"00 for a ring or 01 for a vector", out, at),
        Expected::ZeroByte => put_text(b"00", out, at),
        Expected::FewSlots => put_text(b"a capacity of at most 4096 (hexadecimal 1000)", out, at),
        Expected::AHead => put_text(b"a head below the capacity", out, at),
        Expected::NoHead => put_text(b"0000, since a vector has no head", out, at),
        Expected::NoSlots => put_text(b"0000, since there are no slots", out, at),
        Expected::ALength => put_text(b"a length of at most the capacity", out, at),
        Expected::TextEnd => put_text(b"the end of the text", out, at),
    }
}

// Where the fault is.
fn put_place(line: u64, byte: u64, out: &mut [u8], at: usize) -> usize
    requires { at + 100 ≤ length out.old }
    ensures { Wrote out.old at (place_of line byte) result out.new × (result ≤ at + 100) }
{
    let mut end = put_text(b"not acceptable (14): line ", out, at);
    end = put_numbered(line, b", byte ", out, end);
    put_numbered(byte, b": expected ", out, end)
}

pub(crate) fn put_fault(f: Fault, out: &mut [u8], at: usize) -> usize
    requires { at + 160 ≤ length out.old }
    ensures { Wrote out.old at (fault_line f) result out.new × (result ≤ at + 160) }
{
    let mut end = put_place(f.line, f.byte, out, at);
    end = put_expected(f.what, out, end);
    put_text(b"\n", out, end)
}

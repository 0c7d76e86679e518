// The lines that are printed, written into a lent text as crate words does: a field's bytes need not be UTF-8, and Display promises only what its writer takes.
ghost use Rattle.std.specs.Prelude.{◌+◌, ◌*◌, ◌≤◌, length};
ghost use Rattle.import.specs.Lines.{shown, all_shown, field_line, other_than, record_line, why, place, refused_line, counts, end_words, last_line};
ghost use Rattle.words.specs.Wrote.{Wrote};

use super::counts::{Sheet, Spot};
use super::{Ending, Reason};
use record::Fault;
use words::{put_decimal, put_numbered, put_several, put_text};

// A byte as it is shown. The test is one value, as the definition makes it: by || or is_ascii_control it has an arm for each part, to be joined again.
pub(crate) fn put_byte(b: u8, out: &mut [u8], at: usize) -> usize
    requires { at + 4 ≤ length out.old }
    ensures { Wrote out.old at (shown b) result out.new × (result ≤ at + 4) }
{
    if (b < 32) | ((b == 127) | (b == b'\\')) {
        let end = put_text(b"\\x", out, at);
        digits::put_hex(out, end, 2, b as u64);
        return end + 2;
    }
    out[at] = b;
    at + 1
}

// Bytes as they are shown.
pub(crate) fn put_shown(part: &[u8], out: &mut [u8], at: usize) -> usize
    requires { at + 4 * length part.now ≤ length out.old }
    ensures { Wrote out.old at (all_shown part.now) result out.new × (result ≤ at + 4 * length part.now) }
{
    let mut end = at;
    for b in part {
        end = put_byte(*b, out, end);
    }
    end
}

// A field's line.
pub(crate) fn put_field(part: &[u8], out: &mut [u8], at: usize) -> usize
    requires { at + 4 * length part.now + 5 ≤ length out.old }
    ensures { Wrote out.old at (field_line part.now) result out.new × (result ≤ at + 4 * length part.now + 5) }
{
    let mut end = put_text(b"    ", out, at);
    end = put_shown(part, out, end);
    put_text(b"\n", out, end)
}

// That the first record has another number of fields.
#[tactic(auto, unfolding(crate::specs::Lines::other_than), using(words::proofs::Writing::wrote_none))]
pub(crate) fn put_other(k: u64, first: u64, out: &mut [u8], at: usize) -> usize
    requires { at + 35 ≤ length out.old }
    ensures { Wrote out.old at (other_than k first) result out.new × (result ≤ at + 35) }
{
    if k == first {
        return at;
    }
    let end = put_text(b", record 1 has ", out, at);
    put_decimal(first, out, end)
}

// A record's line.
pub(crate) fn put_record(n: u64, k: u64, first: u64, out: &mut [u8], at: usize) -> usize
    requires { at + 100 ≤ length out.old }
    ensures { Wrote out.old at (record_line n k first) result out.new × (result ≤ at + 100) }
{
    let mut end = put_numbered(n, b": ", out, at);
    end = put_several(k, b"field", out, end);
    end = put_other(k, first, out, end);
    put_text(b"\n", out, end)
}

// Why a record is refused.
#[tactic(auto, unfolding(crate::specs::Lines::why))]
pub(crate) fn put_why(reason: Reason, out: &mut [u8], at: usize) -> usize
    requires { at + 30 ≤ length out.old }
    ensures { Wrote out.old at (why reason) result out.new × (result ≤ at + 30) }
{
    match reason {
        Reason::Text(Fault::Stray(_)) => put_text(b"not allowed outside quotes (9)", out, at),
        Reason::Text(Fault::Unclosed(_)) => put_text(b"quote never closed (10)", out, at),
        Reason::Text(Fault::Long) => put_text(b"record over 65535 bytes (11)", out, at),
        Reason::TooMany => put_text(b"more than 4096 fields (6)", out, at),
    }
}

// Where a refusal is.
pub(crate) fn put_place(spot: Spot, out: &mut [u8], at: usize) -> usize
    requires { at + 50 ≤ length out.old }
    ensures { Wrote out.old at (place spot.line spot.byte) result out.new × (result ≤ at + 50) }
{
    let end = put_numbered(spot.line, b", byte ", out, at);
    put_numbered(spot.byte, b": ", out, end)
}

// The line of a record that is refused.
pub(crate) fn put_refused(n: u64, spot: Spot, reason: Reason, out: &mut [u8], at: usize) -> usize
    requires { at + 120 ≤ length out.old }
    ensures { Wrote out.old at (refused_line n spot.line spot.byte reason) result out.new × (result ≤ at + 120) }
{
    let mut end = put_numbered(n, b": refused, line ", out, at);
    end = put_place(spot, out, end);
    end = put_why(reason, out, end);
    put_text(b"\n", out, end)
}

// How many fields the records have.
#[tactic(auto, unfolding(crate::specs::Lines::counts), using(words::proofs::Writing::wrote_none))]
pub(crate) fn put_counts(sheet: &Sheet, out: &mut [u8], at: usize) -> usize
    requires { at + 66 ≤ length out.old }
    ensures { Wrote out.old at (counts sheet.now.records sheet.now.first sheet.now.others) result out.new × (result ≤ at + 66) }
{
    if sheet.records == 0 {
        return at;
    }
    if sheet.others == 0 {
        let each = put_text(b", each of ", out, at);
        return put_several(sheet.first, b"field", out, each);
    }
    let mut end = put_text(b", ", out, at);
    end = put_decimal(sheet.others, out, end);
    put_text(b" with another number of fields than record 1", out, end)
}

// How it came to its end.
#[tactic(auto, unfolding(crate::specs::Lines::end_words), using(words::proofs::Writing::wrote_none))]
pub(crate) fn put_ending(ending: Ending, out: &mut [u8], at: usize) -> usize
    requires { at + 23 ≤ length out.old }
    ensures { Wrote out.old at (end_words ending) result out.new × (result ≤ at + 23) }
{
    match ending {
        Ending::Refused => put_text(b", then refused", out, at),
        Ending::InputFailed => put_text(b", then the input failed", out, at),
        Ending::InputEnded | Ending::OutputClosed => at,
    }
}

// The last line.
pub(crate) fn put_last(sheet: &Sheet, ending: Ending, out: &mut [u8], at: usize) -> usize
    requires { at + 120 ≤ length out.old }
    ensures { Wrote out.old at (last_line sheet.now.records sheet.now.first sheet.now.others ending) result out.new × (result ≤ at + 120) }
{
    let mut end = put_several(sheet.records, b"record", out, at);
    end = put_counts(sheet, out, end);
    end = put_ending(ending, out, end);
    put_text(b"\n", out, end)
}

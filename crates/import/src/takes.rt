// The record at the front of a text: taken, and listed, or refused.
ghost use Rattle.std.specs.Prelude.{◌≡◌, ◌+◌, ◌≤◌, ◌<◌, Some, length, take, IfSome, MatchResult};
ghost use Rattle.record.specs.Recorded.{judges};
ghost use Rattle.record.specs.Undone.{undone, part};
ghost use Rattle.record.specs.Steps.{place_told};
ghost use Rattle.import.specs.Settled.{seen, reason_at, Settles};
ghost use Rattle.import.specs.declared.counts.Spot.{Spot};
ghost use Rattle.import.specs.Spots.{Behind};
ghost use Rattle.import.specs.Sheets.{OwnText, Took, Says, Counted, Went};

use super::counts::Sheet;
use super::windows::Page;
use super::{Ending, Reason};
use record::Fault;
use std::io::Write;
use vector::Vector;

// What a text comes to: where the next record starts, or why there is none.
fn judge(text: &[u8]) -> Result<usize, Fault>
    requires { (0 < length text.now) × (length text.now ≤ 65535) }
    ensures judged { result ≡ seen (judges text.now) }
    ensures inside { MatchResult result (λ next. (0 < next) × (next ≤ length text.now)) (λ fault. place_told fault ≤ length text.now) }
{
    let next = record::texts::judge(text)?;
    Ok(next as usize)
}

// A field's text, with doubled quotes undone: how many bytes it has.
fn own_text(text: &[u8], start: u32, end: u32, field: &mut [u8]) -> usize
    ensures { OwnText text.now start end (length field.old) result field.new }
{
    record::texts::field_text(text, start as usize, end as usize, field).unwrap_or(0) as usize
}

// A vector that holds nothing.
fn empty() -> Vector {
    vector::state(0, runs::total::none())
}

// How many fields the record at the front of a text has, if there are slots for them; they then hold where each starts and ends.
fn places(text: &[u8], starts: &mut [u32; 4096], ends: &mut [u32; 4096]) -> Option<usize>
    ensures { IfSome result (λ n. n ≤ 4096) }
{
    let Ok(got) = record::read(text, empty(), starts, empty(), ends) else {
        return None;
    };
    Some(got.state.first.len)
}

// A field's line: its text, with doubled quotes undone, as it is shown.
fn say_field<W: Write>(
    page: &mut Page<W>,
    text: &[u8],
    start: u32,
    end: u32,
    field: &mut [u8; 65535],
)
    ensures { Says text.now start end page.old.bytes page.new.at page.new.bytes }
{
    page.room(262145);
    let n = own_text(text, start, end, field);
    page.at = super::prints::put_field(&field[..n], &mut page.bytes, page.at);
}

// The listing of records: the page, what was counted, slots for where a record's fields start and end, and room for a field's text.
// Starts and ends stand in two runs of slots, since `record::read` puts them on two vectors.
#[derive(Drop)]
pub(crate) struct Listing<W> {
    pub(crate) page: Page<W>,
    pub(crate) sheet: Sheet,
    pub(crate) starts: [u32; 4096],
    pub(crate) ends: [u32; 4096],
    pub(crate) field: [u8; 65535],
}

impl<W: Write> Listing<W> {
    // The lines of a record's fields, as long as the output takes them.
    fn say_fields(&mut self, text: &[u8], n: usize)
        requires { n ≤ 4096 }
        ensures { self.new.sheet ≡ self.old.sheet }
    {
        for (start, end) in self.starts[..n].iter().zip(&self.ends[..n]) {
            if !self.page.heard {
                return;
            }
            say_field(&mut self.page, text, *start, *end, &mut self.field);
        }
    }

    // A refusal: its line, and nothing is taken.
    // Here and below it is asked that what is counted fits with the text: a ghost field of the sheet can't speak of the text of a call.
    pub(crate) fn refuse(&mut self, text: &[u8], reason: Reason) -> Ending
        requires { (reason_at reason ≤ length text.now) × (self.old.sheet.passed + length text.now < 18446744073709551615) }
        ensures { (result ≡ Ending.Refused) × (self.new.sheet ≡ self.old.sheet) }
    {
        let at = match reason {
            Reason::Text(fault) => u32::from(fault) as usize,
            Reason::TooMany => 0,
        };
        let spot = self.sheet.spot.behind_all(&text[..at]);
        let page = &mut self.page;
        page.room(120);
        page.at = super::prints::put_refused(
            self.sheet.records + 1,
            spot,
            reason,
            &mut page.bytes,
            page.at,
        );
        Ending::Refused
    }

    // A record that is taken: its line and its fields'.
    fn list(&mut self, text: &[u8], next: usize, n: usize)
        requires next_inside { (0 < next) × (next ≤ length text.now) × (n ≤ 4096) }
        requires fit { self.old.sheet.passed + length text.now < 18446744073709551615 }
        ensures { (spot : Spot) × (Behind self.old.sheet.spot (take next text.now) spot) × Counted self.old.sheet n next spot self.new.sheet }
    {
        let spot = self.sheet.spot.behind_all(&text[..next]);
        let sheet = self.sheet.counted(n as u64, next as u64, spot);
        self.sheet = sheet;
        let page = &mut self.page;
        page.room(100);
        page.at = super::prints::put_record(
            sheet.records,
            n as u64,
            sheet.first,
            &mut page.bytes,
            page.at,
        );
        self.say_fields(text, n);
    }

    // The record at the front of a text, if it is settled: how many bytes it takes.
    pub(crate) fn take(&mut self, text: &[u8], last: bool) -> Result<Option<usize>, Ending>
        requires some { (0 < length text.now) × (length text.now ≤ 65535) }
        requires fit { self.old.sheet.passed + length text.now < 18446744073709551615 }
        ensures took { Took self.old.sheet (length text.now) result self.new.sheet }
        ensures settles { Settles text.now last result }
    {
        let seen = judge(text);
        if !super::counts::settled(text, last, seen) {
            return Ok(None);
        }
        match seen {
            Err(fault) => Err(self.refuse(text, Reason::Text(fault))),
            Ok(next) => match places(text, &mut self.starts, &mut self.ends) {
                None => Err(self.refuse(text, Reason::TooMany)),
                Some(n) => {
                    self.list(text, next, n);
                    Ok(Some(next))
                }
            },
        }
    }

    // The settled records of the window from a place on, one after another; whole says that the input ends with it. The answer is where the rest begins.
    // Each record says how far it goes, so no `for`; the place is one in the window, and so is the answer.
    pub(crate) fn take_all(
        &mut self,
        window: &[u8],
        from: usize,
        whole: bool,
    ) -> Result<usize, Ending>
        requires within { (from ≤ length window.now) × (length window.now ≤ 65536) }
        requires fit { self.old.sheet.passed + length window.now < 18446744073709551615 }
        ensures { Went self.old.sheet from (length window.now) result self.new.sheet }
    {
        let mut at = from;
        while at < window.len() {
            let end = window.len().min(at + 65535);
            match self.take(&window[at..end], whole && end == window.len())? {
                None => return Ok(at),
                Some(next) => at += next,
            }
            if !self.page.heard {
                return Err(Ending::OutputClosed);
            }
        }
        Ok(at)
    }
}

// What is counted, and when an answer is settled.
ghost use Rattle.std.specs.Prelude.{◌≡◌, ◌+◌, ◌≤◌, ◌<◌, cond, true, eqb, length};
ghost use Rattle.import.specs.Spots.{line_on, byte_on, Behind};
ghost use Rattle.import.specs.Settled.{stands, settled, mark};

use record::Fault;

// A line and a byte of it, both from 1.
#[derive(Clone, Copy)]
pub(crate) struct Spot {
    pub(crate) line: u64,
    pub(crate) byte: u64,
}

impl Spot {
    // Behind one more byte.
    fn behind(self, b: u8) -> Spot
        requires { (self.line < 18446744073709551615) × (self.byte < 18446744073709551615) }
        ensures { (result.line ≡ line_on self.line b) × (result.byte ≡ byte_on self.byte b) }
    {
        if b == b'\n' {
            return Spot {
                line: self.line + 1,
                byte: 1,
            };
        }
        Spot {
            line: self.line,
            byte: self.byte + 1,
        }
    }

    // Behind a part.
    pub(crate) fn behind_all(self, part: &[u8]) -> Spot
        requires { (self.line + length part.now < 18446744073709551616) × (self.byte + length part.now < 18446744073709551616) }
        ensures { Behind self part.now result }
    {
        let mut s = self;
        for b in part {
            s = s.behind(*b);
        }
        s
    }
}

// What was counted: bytes passed, where the next one stands, records, fields of the first, and records with another number of fields. Nothing is counted
// more often than bytes were passed.
#[derive(Clone, Copy)]
pub(crate) struct Sheet {
    pub(crate) passed: u64,
    pub(crate) spot: Spot,
    pub(crate) records: u64,
    pub(crate) first: u64,
    pub(crate) others: u64,
    ghost few_records: { records ≤ passed },
    ghost few_others: { others ≤ passed },
    ghost few_lines: { spot.line ≤ passed + 1 },
    ghost few_bytes: { spot.byte ≤ passed + 1 },
}

impl Sheet {
    ghost use Rattle.import.specs.Sheets.{Started, Counted};

    // Nothing is counted yet but a mark's bytes.
    pub(crate) fn start(mark: u64) -> Sheet
        requires { mark ≤ 3 }
        ensures { Started mark result }
    {
        Sheet {
            passed: mark,
            spot: Spot {
                line: 1,
                byte: mark + 1,
            },
            records: 0,
            first: 0,
            others: 0,
        }
    }

    // One record more, of k fields, which takes so many bytes and ends before a spot.
    pub(crate) fn counted(&self, k: u64, next: u64, spot: Spot) -> Sheet
        requires fits { (0 < next) × (self.now.passed + next < 18446744073709551615) }
        requires near { (spot.line ≤ self.now.spot.line + next) × (spot.byte ≤ self.now.spot.byte + next) }
        ensures { Counted self.now k next spot result }
    {
        let first = first_of(self.records, k, self.first);
        Sheet {
            passed: self.passed + next,
            spot,
            records: self.records + 1,
            first,
            others: others_of(self.others, k, first),
        }
    }
}

// How many fields the first record has, once one of k is counted behind so many.
fn first_of(records: u64, k: u64, first: u64) -> u64
    ensures { result ≡ cond (eqb records 0) k first }
{
    if records == 0 { k } else { first }
}

// How many records have another number of fields, once one of k is counted.
fn others_of(others: u64, k: u64, first: u64) -> u64
    requires { others < 18446744073709551615 }
    ensures { result ≡ cond (eqb k first) others (others + 1) }
{
    if k == first { others } else { others + 1 }
}

// Whether a byte stands at a position.
// `record` has the same for itself, where the promise is of the rest of the text.
fn stands(text: &[u8], at: usize, b: u8) -> bool
    ensures { result ≡ stands text.now at b }
{
    text.get(at) == Some(&b)
}

// Whether an answer on a text is the answer whatever comes after the text.
#[tactic(auto, unfolding(crate::specs::Settled::settled))]
pub(crate) fn settled(text: &[u8], last: bool, seen: Result<usize, Fault>) -> bool
    ensures { result ≡ settled text.now last seen }
{
    if last {
        return true;
    }
    match seen {
        Ok(next) => 0 < next && stands(text, next - 1, b'\n'),
        Err(Fault::Stray(at)) => !stands(text, at as usize, b'\r') || at as usize + 1 < text.len(),
        Err(_) => false,
    }
}

// Whether the input begins with a byte-order mark.
#[tactic(auto, unfolding(crate::specs::Settled::mark))]
pub(crate) fn marked(window: &[u8]) -> bool
    ensures { (result ≡ mark window.now) × (result ≡ true → 3 ≤ length window.now) }
{
    matches!(window, [0xef, 0xbb, 0xbf, ..])
}

// Reads comma-separated text from standard input and writes its records, field by field.
#![tactic(auto)]

mod prints; // prints.rt: the lines that are printed
mod counts; // counts.rt: what is counted, and when an answer is settled
mod windows; // windows.rt: the window that is read into, and the page that is written from
mod takes; // takes.rt: the record at the front of a text

ghost use Rattle.std.specs.Prelude.{◌≡◌, ◌<◌, None};
ghost use Rattle.import.specs.Sheets.{Begun, Turned};

use counts::Sheet;
use record::Fault;
use std::io::{Read, Write};
use takes::Listing;
use windows::{Page, Window};

// No run passes so many bytes.
const ENOUGH: u64 = 18446744073709420543; // 2^64 − 131073

// Why a record is refused: for what the library tells of its text, or at its first byte for too many fields.
#[derive(Clone, Copy)]
enum Reason {
    Text(Fault),
    TooMany,
}

// How it ends: with a refusal, an output that is closed, an input that failed, or with the input.
#[derive(Clone, Copy, PartialEq, Eq)]
enum Ending {
    Refused,
    OutputClosed,
    InputFailed,
    InputEnded,
}

// One window: its settled records are taken, the rest is moved to the front, and it is filled again. A record that it does not hold is refused, at its
// first byte.
fn turn<R: Read, W: Write>(window: &mut Window<R>, listing: &mut Listing<W>) -> Result<(), Ending>
    requires { listing.old.sheet.passed < 18446744073709420543 }
    ensures { Turned listing.old.sheet window.old.from result listing.new.sheet window.new.from }
{
    let whole = window.ending == Some(Ending::InputEnded);
    let next = listing.take_all(&window.bytes[..window.held], window.from, whole)?;
    if let Some(ending) = window.ending {
        return Err(ending);
    }
    if next == 0 {
        return Err(listing.refuse(&[], Reason::Text(Fault::Long)));
    }
    window.shift(next);
    window.fill();
    Ok(())
}

// The start: a byte-order mark is skipped, and said.
fn begin<R: Read, W: Write>(window: &mut Window<R>, listing: &mut Listing<W>)
    ensures { Begun window.new.from listing.new.sheet }
{
    let marked = counts::marked(&window.bytes[..window.held]);
    window.from = if marked { 3 } else { 0 };
    listing.sheet = Sheet::start(window.from as u64);
    if marked {
        let page = &mut listing.page;
        page.room(24);
        page.at = words::put_text(b"byte-order mark skipped\n", &mut page.bytes, page.at);
    }
}

// Window after window, until it ends. No run passes so many bytes that it stops before: a proved loop has to end, and the counts must fit.
fn run<R: Read, W: Write>(window: &mut Window<R>, listing: &mut Listing<W>) -> Ending
    requires { window.old.ending ≡ None }
{
    window.fill();
    begin(window, listing);
    while listing.sheet.passed < ENOUGH {
        if let Err(ending) = turn(window, listing) {
            return ending;
        }
    }
    Ending::InputFailed
}

// The last line, and all that is left to write; an input that failed is said to the standard error.
fn finish<W: Write, E: Write>(listing: &mut Listing<W>, error: &mut E, ending: Ending) {
    let page = &mut listing.page;
    page.room(120);
    page.at = prints::put_last(&listing.sheet, ending, &mut page.bytes, page.at);
    if page.heard {
        page.write();
    }
    if ending == Ending::InputFailed {
        let _ = error.write_all(b"import: the input can't be read\n");
    }
}

fn main(rt: HostRuntime) {
    let mut window = Window {
        input: rt.stdin(),
        bytes: [0; 65536],
        from: 0,
        held: 0,
        ending: None,
    };
    let mut listing = Listing {
        page: Page {
            output: rt.stdout(),
            bytes: [0; 524288],
            at: 0,
            heard: true,
        },
        sheet: Sheet::start(0),
        starts: [0; 4096],
        ends: [0; 4096],
        field: [0; 65535],
    };
    let ending = run(&mut window, &mut listing);
    finish(&mut listing, &mut rt.stderr(), ending);
}

// Reads calls from standard input and writes their answers: the reading and the writing only.
#![tactic(auto)]

ghost use Rattle.std.specs.Prelude.{◌≡◌, ◌*◌, ◌<◌, ◌≤◌, length};
ghost use Rattle.tray_lines.specs.Feeds.{feeds, keeping, midway};
ghost use Rattle.tray.specs.Reading.{Turned, Ran};

use std::io::{Read, Write};
use tray_lines::feeds;
use tray_lines::feeds::{Fed, State};

// After some reads: how many bytes they read in all, and where the program stands.
#[derive(Clone, Copy)]
struct Went {
    read: u64,
    state: State,
}

// Why no more is read. An input that fails has ended.
#[derive(Clone, Copy, PartialEq, Eq)]
enum Ending {
    Input,
    Output,
}

// No run reads so many bytes: a proved loop has to end, and the count must fit.
const ENOUGH: u64 = 18446744073709547519; // 2^64 − 4097

// What a run of bytes is answered: with room for all answers no byte of it is left over.
fn say(s: State, part: &[u8], out: &mut [u8]) -> Fed
    requires { 27 * length part.now ≤ length out.old }
    ensures { (midway result.state ≡ (feeds keeping (midway s) part.now).state) × (result.count ≤ length out.new) }
{
    feeds::feed(s, part, out)
}

// One read, what it is answered, and one write. At the end of the input no byte is read.
// Reader, writer and both texts come one by one: `run` alone hands them on.
#[tactic(auto, using(crate::proofs::Reading::nothing_read))]
fn turn<R: Read, W: Write>(
    input: &mut R,
    output: &mut W,
    went: &mut Went,
    buf: &mut [u8],
    out: &mut [u8],
) -> Result<(), Ending>
    requires { (went.old.read < 18446744073709547519) × (length buf.old ≤ 4096) × (27 * length buf.old ≤ length out.old) }
    ensures { Turned went.old buf.new result went.new }
{
    let n = input.read(buf).unwrap_or(0);
    if n == 0 {
        return Err(Ending::Input);
    }
    let fed = say(went.state, &buf[..n], out);
    went.read += n as u64;
    went.state = fed.state;
    output
        .write_all(&out[..fed.count])
        .map_err(|_| Ending::Output)
}

// Until the input ends or the output is closed. What a turn leaves is what the next one begins with.
#[tactic(auto, using(crate::proofs::Reading::none_read, crate::proofs::Reading::one_more, crate::proofs::Reading::fewer))]
fn run<R: Read, W: Write>(
    input: &mut R,
    output: &mut W,
    first: State,
    buf: &mut [u8],
    out: &mut [u8],
) -> (Went, Ending)
    requires { (length buf.old ≤ 4096) × (27 * length buf.old ≤ length out.old) }
    ensures { Ran first result.0 }
{
    let mut went = Went {
        read: 0,
        state: first,
    };
    while went.read < ENOUGH {
        if let Err(ending) = turn(input, output, &mut went, buf, out) {
            return (went, ending);
        }
    }
    (went, Ending::Input)
}

// The last line, where it has no LF and isn't empty. Where the output is closed nothing more is written.
fn main(rt: HostRuntime) {
    let mut input = rt.stdin();
    let mut output = rt.stdout();
    let mut buf = [0u8; 4096];
    let mut out = [0u8; 110592]; // 27 bytes for each that is read
    let first = feeds::fresh(tray_lines::acts::start());
    let (went, ending) = run(&mut input, &mut output, first, &mut buf, &mut out);
    if ending == Ending::Output {
        return;
    }
    if let Some(text) = feeds::ended(went.state).answer {
        let _ = output.write_all(&text);
    }
}

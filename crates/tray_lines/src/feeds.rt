// The program between its reads and its writes: bytes go in, and answers come out, however lines fall across the runs of bytes that are fed.
ghost use Rattle.std.specs.Prelude.{◌≡◌, ◌+◌, ◌*◌, ◌≤◌, length, take};
ghost use Rattle.digits.specs.Put.{put};
ghost use Rattle.tray_lines.specs.Seen.{world};
ghost use Rattle.tray_lines.specs.Answers.{tells, told_seen};
ghost use Rattle.tray_lines.specs.Feeds.{fresh, takes, keeping, ends, midway, ends_into, ended_seen, fills_all, fills, fed_seen, puts, step_seen};

use crate::acts::{After, Trays};

// Where the program stands between two bytes: the containers, and the first 17 bytes of the line begun, which tell that it is too long.
// There is no heap here, so they are an array with a count.
#[derive(Clone, Copy)]
pub struct State {
    pub trays: Trays,
    pub line: [u8; 17],
    pub count: usize,
}

// After one byte: the answers reach up to a place of the text.
#[derive(Clone, Copy)]
pub struct Step {
    pub state: State,
    pub at: usize,
}

// After a run of bytes: how many were taken, and how many bytes of answers stand at the start of the text.
#[derive(Clone, Copy)]
pub struct Fed {
    pub state: State,
    pub took: usize,
    pub count: usize,
}

// Before the first byte of a line.
pub fn fresh(trays: Trays) -> State
    ensures { midway result ≡ fresh keeping (world trays) }
{
    State {
        trays,
        line: [0u8; 17],
        count: 0,
    }
}

fn keep(s: State, b: u8) -> State
    requires { b ≡ 10 → ⊥ }
    ensures { midway result ≡ (takes keeping (midway s) b).state }
{
    let n = s.count;
    if n < 17 {
        let mut line = s.line;
        line[n] = b;
        return State {
            line,
            count: n + 1,
            ..s
        };
    }
    s
}

// The answer to the bytes kept of a line. Containers and line come apart, here and where it is called: a state that is lent whole is copied for every byte,
// also for those that are only kept.
#[inline(always)]
fn answer_of(trays: Trays, line: &[u8; 17], count: usize) -> After<[u8; 27]>
    ensures { told_seen result ≡ tells (world trays) (take count line.now) }
{
    crate::answers::tell(trays, &line[..count.min(17)])
}

// The end of the input: a line begun counts if it isn't empty.
#[tactic(auto, using(crate::proofs::Fed::none_begun, crate::proofs::Fed::some_begun))]
pub fn ended(s: State) -> After<Option<[u8; 27]>>
    ensures { ended_seen result ≡ ends_into (ends keeping (midway s)) }
{
    let n = s.count;
    if n == 0 {
        return After {
            trays: s.trays,
            answer: None,
        };
    }
    let told = answer_of(s.trays, &s.line, n);
    After {
        trays: told.trays,
        answer: Some(told.answer),
    }
}

// An answer, from a place of the text on.
// Here and below a text and a place, as in `words`: the promise is of the whole text.
#[tactic(auto, using(crate::proofs::Fed::lay_put))]
fn lay(out: &mut [u8], at: usize, text: [u8; 27])
    requires { at + 27 ≤ length out.old }
    ensures { out.new ≡ put out.old at text }
{
    out[at..at + 27].copy_from_slice(&text);
}

fn one(s: State, b: u8, out: &mut [u8], at: usize) -> Step
    requires { at + 27 ≤ length out.old }
    ensures { step_seen result out.new ≡ puts (takes keeping (midway s) b) out.old at }
{
    if b == 10 {
        let line = s.line;
        let told = answer_of(s.trays, &line, s.count);
        lay(out, at, told.answer);
        return Step {
            state: fresh(told.trays),
            at: at + 27,
        };
    }
    Step {
        state: keep(s, b),
        at,
    }
}

fn feed_all(state: State, input: &[u8], out: &mut [u8]) -> Fed
    requires { 27 * length input.now ≤ length out.old }
    ensures { fed_seen result out.new ≡ fills_all (midway state) input.now out.old }
{
    let mut s = state;
    let mut at = 0;
    for b in input {
        let step = one(s, *b, out, at);
        s = step.state;
        at = step.at;
    }
    Fed {
        state: s,
        took: input.len(),
        count: at,
    }
}

// As many bytes are taken as the text has room for, 27 for each.
#[tactic(auto, using(crate::proofs::Fed::feed_room))]
pub fn feed(state: State, input: &[u8], out: &mut [u8]) -> Fed
    ensures { fed_seen result out.new ≡ fills (midway state) input.now out.old }
{
    let most = out.len() / 27;
    feed_all(state, &input[..most.min(input.len())], out)
}

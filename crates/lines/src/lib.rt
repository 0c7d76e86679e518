// The line reader: a text and the place in it together. Each line is so many lower-case hexadecimal digits, ended by LF.
#![tactic(auto)]

ghost use Rattle.std.specs.Prelude.{◌≡◌};
ghost use Rattle.lines.specs.Line.{line_at};

// A lent text, and the place in it from which the next line is read.
#[derive(Clone, Copy)]
pub struct Lines<'a> {
    pub text: &'a [u8],
    pub at: usize,
}

// What was found at a place, the number that its line says or none, and where the next line begins.
#[derive(Clone, Copy)]
pub struct Step {
    pub line: Option<u64>,
    pub next: usize,
}

// The work, on a text and a number: the line of k digits at a place.
#[tactic(auto, using(crate::proofs::Found::ways))]
pub fn line_at(text: &[u8], at: usize, k: usize) -> Step
    ensures { result ≡ line_at text.now at k }
{
    let none = Step {
        line: None,
        next: at,
    };
    if 16 < k {
        return none;
    }
    if text.len() <= at {
        return none;
    }
    if text.len() - at <= k {
        return none;
    }
    let end = at + k;
    if text[end] != 10 {
        return none;
    }
    let part = &text[at..end];
    if digits::are_digits(part) {
        return Step {
            line: Some(digits::low(part)),
            next: end + 1,
        };
    }
    none
}

impl<'a> Lines<'a> {
    // The number of the line at the place, and the reader moved on past it.
    pub fn next_line(&mut self, k: usize) -> Option<u64>
        ensures { (result ≡ (line_at self.old.text.now self.old.at k).line) × (self.new ≡ record self.old { at = (line_at self.old.text.now self.old.at k).next }) }
    {
        let step = line_at(self.text, self.at, k);
        self.at = step.next;
        step.line
    }
}

// The reader for a caller that has the text and the place as a slice and a number: its promise speaks of no reader, so the caller's proof needs none.
// `line_at` promises the same: asked for are thin functions over that, by which a text and its place stay together (decision 62).
pub fn line_from(text: &[u8], at: usize, k: usize) -> Step
    ensures { result ≡ line_at text.now at k }
{
    let mut lines = Lines { text, at };
    let line = lines.next_line(k);
    Step {
        line,
        next: lines.at,
    }
}

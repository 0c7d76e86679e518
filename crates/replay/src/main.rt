// The program `replay`: reads lines, answers each, and prints what it leaves. docs/REPLAY.md has the lines. Whether the answers are right is for the
// comparison with Rust's own containers; proved is that the program ends, stays within bounds, and that a line that can't be taken changes nothing.
#![tactic(auto)]

mod asked; // asked.rt: what a line asks, or why it can't be taken
mod desks; // desks.rt: what stands on the desk, and what is placed there
mod calls; // calls.rt: the calls by their numbers
mod answers; // answers.rt: what an answer leaves on the desk
mod shows; // shows.rt: what a part shows beside the answer
mod texts; // texts.rt: the text on the desk
mod prints; // prints.rt: what is printed of a call

ghost use Rattle.std.specs.Prelude.{◌≡◌, ◌≤◌, false};
ghost use Rattle.replay.specs.Lines.{takes};

use asked::{Asked, Why};
use desks::Desk;
use prints::Page;
use std::io::{Read, Write};

// One byte above 34 tells that a line is too long.
const KEPT: usize = 35;

// The bytes that are kept of a line.
// An array and a count, as in texts.rt.
#[derive(Drop)]
struct Line {
    bytes: [u8; KEPT],
    count: usize,
    ghost within: { count ≤ 35 },
}

impl Line {
    fn keep(&mut self, b: u8) {
        if self.count < KEPT {
            self.bytes[self.count] = b;
            self.count += 1;
        }
    }

    fn kept(&self) -> &[u8] {
        &self.bytes[..self.count]
    }
}

// The output, the desk, and the page of what is printed of a line, which goes out in one write: no part of it without the rest.
#[derive(Drop)]
struct Bench<W> {
    output: W,
    desk: Desk,
    page: Page,
}

impl<W: Write> Bench<W> {
    fn call(&mut self, q: Asked) {
        self.page.leave(self.desk.room());
        let did = calls::call(q, &mut self.desk, &mut self.page);
        self.page.put_all(did, &self.desk);
        self.page.write(&mut self.output);
    }

    fn untaken(&mut self, why: Why)
        ensures { self.new.desk ≡ self.old.desk }
    {
        why.put(&mut self.page);
        self.page.write(&mut self.output);
    }

    // A line: what it prints is written.
    fn answer(&mut self, line: &[u8])
        ensures { takes line.now self.old.desk.first.cap self.old.desk.second.cap self.old.desk.text.size ≡ false → self.new.desk ≡ self.old.desk }
    {
        match asked::judge(line, self.desk.counts()) {
            Ok(q) if q.places() => self.desk.place(q),
            Ok(q) => self.call(q),
            Err(why) => self.untaken(why),
        }
    }

    // LF ends a line, and the bytes kept of it are answered.
    fn feed(&mut self, part: &[u8], line: &mut Line) {
        for b in part {
            if *b == b'\n' {
                self.answer(line.kept());
                line.count = 0;
            } else {
                line.keep(*b);
            }
        }
    }

    // A proved loop has to end: no run has so many reads. The last line counts where it has no LF and isn't empty.
    fn run<R: Read>(&mut self, input: &mut R) {
        let mut buf = [0u8; 65536];
        let mut line = Line {
            bytes: [0; KEPT],
            count: 0,
        };
        for _ in 0..u64::MAX {
            let count = input.read(&mut buf).unwrap_or(0);
            if count == 0 {
                break;
            }
            self.feed(&buf[..count], &mut line);
        }
        if 0 < line.count {
            self.answer(line.kept());
        }
    }
}

fn main(rt: HostRuntime) {
    let mut bench = Bench {
        output: rt.stdout(),
        desk: Desk::new(),
        page: Page::new(),
    };
    bench.run(&mut rt.stdin());
}

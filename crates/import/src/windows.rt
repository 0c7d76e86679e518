// The window that is read into, and the page that is written from.
ghost use Rattle.std.specs.Prelude.{◌≡◌, ◌+◌, ◌-◌, ◌≤◌, Some, None, take, drop, length};
ghost use Rattle.std.specs.Io.KnownBytes.{IsAtEnd};
ghost use Rattle.import.specs.Window.{Fills};

use super::Ending;
use std::io::{Read, Write};

// A byte more than a record may have, to tell whether the input ends there.
const WINDOW: usize = 65536;

// Room for some lines: a field's may take four bytes for each of its own, and five more.
const PAGE: usize = 524288;

// The input, and what it has read: so many bytes are held, those from a place on are still to be taken; and how the input ended behind them, if it did.
// An array and a count, here and below: a Vec may fail to be had, and the program has no ending for that.
#[derive(Drop)]
pub(crate) struct Window<R> {
    pub(crate) input: R,
    pub(crate) bytes: [u8; WINDOW],
    pub(crate) from: usize,
    pub(crate) held: usize,
    pub(crate) ending: Option<Ending>,
    ghost within: { held ≤ 65536 },
    ghost begins: { from ≤ held },
}

impl<R: Read> Window<R> {
    // Reads until the window is full, or the input ends or fails. The bytes that it holds stay.
    pub(crate) fn fill(&mut self)
        requires { self.old.ending ≡ None }
        ensures fills { Fills self.old.bytes self.old.held self.new.held self.new.ending self.new.bytes × (self.new.from ≡ self.old.from) }
        ensures ended { self.new.ending ≡ Some Ending.InputEnded → IsAtEnd (R.remaining self.new.input) }
    {
        while self.held < WINDOW {
            match self.input.read(&mut self.bytes[self.held..]) {
                Ok(0) => {
                    self.ending = Some(Ending::InputEnded);
                    return;
                }
                Ok(count) => self.held += count,
                Err(_) => {
                    self.ending = Some(Ending::InputFailed);
                    return;
                }
            }
        }
    }

    // The bytes from a place on are moved to the front.
    pub(crate) fn shift(&mut self, from: usize)
        requires { from ≤ self.old.held }
        ensures kept { self.new.ending ≡ self.old.ending }
        ensures places { (self.new.from ≡ 0) × (self.new.held ≡ self.old.held - from) }
        ensures moved { take self.new.held self.new.bytes ≡ take self.new.held (drop from self.old.bytes) }
    {
        self.bytes.copy_within(from..self.held, 0);
        self.from = 0;
        self.held -= from;
    }
}

// The output, what is collected for it, and whether it took what was collected before.
#[derive(Drop)]
pub(crate) struct Page<W> {
    pub(crate) output: W,
    pub(crate) bytes: [u8; PAGE],
    pub(crate) at: usize,
    pub(crate) heard: bool,
    ghost within: { at ≤ 524288 },
}

impl<W: Write> Page<W> {
    // Room for so many bytes more: what is collected is written, if need be.
    pub(crate) fn room(&mut self, need: usize)
        requires { need ≤ 524288 }
        ensures { (self.new.at + need ≤ 524288) × (self.new.bytes ≡ self.old.bytes) }
    {
        if PAGE - self.at < need {
            self.write();
        }
    }

    // What is collected is written.
    pub(crate) fn write(&mut self)
        ensures { (self.new.at ≡ 0) × (self.new.bytes ≡ self.old.bytes) }
    {
        let took = self.output.write_all(&self.bytes[..self.at]).is_ok();
        self.heard &= took;
        self.at = 0;
    }
}

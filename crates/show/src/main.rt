// Reads a stored text from standard input and draws the container that it stands for, or says why the text is not acceptable.
#![tactic(auto)]

mod faults; // faults.rt: the first fault of a text
mod rows; // rows.rt: the rows of a drawing
mod says; // says.rt: the other lines

ghost use Rattle.std.specs.Prelude.{◌≡◌, ◌+◌, ◌-◌, ◌≤◌, ◌<◌, length, IfOk};
ghost use Rattle.stored.specs.First.{kind_of};
ghost use Rattle.words.specs.Wrote.{Wrote};
ghost use Rattle.show.specs.Faults.{fault, sound};
ghost use Rattle.show.specs.Rows.{group};
ghost use Rattle.show.specs.Drawable.{Drawable, Shown};

use ring::Ring;
use rows::{Held, Row, Width};
use std::io;
use std::io::{Read, Write};
use stored::kinds::Kind;
use stored::readers;
use words::put_text;

// A byte more than the longest acceptable text has, to tell that a text goes on.
const TEXT_ROOM: usize = 36882;

// For a group of rows.
const OUT_ROOM: usize = 2048;

// Reads until the text's room is full, or the input ends, and answers how much was read.
fn fill<R: Read>(input: &mut R, text: &mut [u8]) -> io::Result<usize>
    ensures { IfOk result (λ held. held ≤ length text.old) }
{
    let mut at = 0;
    // no `for`: each read says how far it went
    while at < text.len() {
        let count = input.read(&mut text[at..])?;
        if count == 0 {
            return Ok(at);
        }
        at += count;
    }
    Ok(at)
}

// An empty line and the three rows of some slots.
fn put_group(held: Held, w: Width, row: Row, out: &mut [u8; OUT_ROOM]) -> usize
    requires { row.last ≤ length held.slots.now }
    ensures { Wrote out.old 0 (group w.digits held.entry.slots.now held.entry.head held.entry.len row.first (row.last - row.first)) result out.new × (result ≤ 2048) }
{
    let mut end = put_text(b"\n", out, 0);
    end = rows::put_slot_row(w, row, out, end);
    end = rows::put_held_row(held.slots, w, row, out, end);
    rows::put_pos_row(held, w, row, out, end)
}

// The slots, eight in a row.
// The output and the room for its lines come one by one, here and below: few functions hand them on, and one that puts a line together needs the room alone.
fn draw_slots<W: Write>(output: &mut W, held: Held, out: &mut [u8; OUT_ROOM]) {
    let w = rows::width_of(held.slots);
    let cap = held.slots.len();
    for first in (0..cap).step_by(8) {
        let row = rows::row_at(first, cap);
        let end = put_group(held, w, row, out);
        let _ = output.write_all(&out[..end]);
    }
}

// The list, eight entries in a line.
fn draw_list<W: Write>(output: &mut W, held: Held, out: &mut [u8; OUT_ROOM]) {
    for first in (0..held.len).step_by(8) {
        let row = rows::row_at(first, held.len);
        let end = rows::put_list_row(held, row, out, 0);
        let _ = output.write_all(&out[..end]);
    }
}

// The slots and the list, an empty line before each.
fn draw<W: Write>(output: &mut W, held: Held, out: &mut [u8; OUT_ROOM]) {
    draw_slots(output, held, out);
    if held.len == 0 {
        let _ = output.write_all(b"\nlist empty\n");
        return;
    }
    let _ = output.write_all(b"\n");
    draw_list(output, held, out);
}

// The container that the text tells, into the slots. A vector is drawn as a ring with head 0.
fn container_of(text: &[u8], kind: Kind, slots: &mut [u32]) -> Ring
    requires { Drawable (kind_of kind) text.now slots.old }
    ensures { Shown (kind_of kind) text.now slots.new result.head result.len result.total.sum }
{
    match kind {
        Kind::Ring => readers::ring_read(text, slots).unwrap().state,
        Kind::Vector => {
            let v = readers::vector_read(text, slots).unwrap().state;
            ring::state(0, v.len, v.total)
        }
    }
}

// Its line, and the drawing. Only of an older ring the text has another head.
fn draw_container<W: Write>(
    output: &mut W,
    text: &[u8],
    kind: Kind,
    slots: &mut [u32],
    out: &mut [u8; OUT_ROOM],
)
    requires { Drawable (kind_of kind) text.now slots.old }
{
    let was = faults::field_at(text, 8, 4);
    let Ring { head, len, total } = container_of(text, kind, slots);
    let cap = slots.len() as u64;
    let mut end = match kind {
        Kind::Ring => says::put_ring(cap, head as u64, len as u64, total.sum, out, 0),
        Kind::Vector => says::put_vector(cap, len as u64, total.sum, out, 0),
    };
    end = says::put_older_said(was, head as u64, out, end);
    let _ = output.write_all(&out[..end]);
    draw(output, Held { slots, head, len }, out);
}

// The container of a text without a fault.
fn draw_any<W: Write>(
    output: &mut W,
    text: &[u8],
    slots: &mut [u32; slots::MOST],
    out: &mut [u8; OUT_ROOM],
)
    requires { fault text.now ≡ sound }
{
    let kind = faults::field_at(text, 0, 2);
    let cap = faults::field_at(text, 4, 4) as usize;
    let part = &mut slots[..cap];
    match Kind::try_from(kind) {
        Ok(kind) => draw_container(output, text, kind, part, out),
        Err(_) => unreachable!(),
    }
}

// The container that a text stands for, or its first fault.
fn show<W: Write>(
    output: &mut W,
    text: &[u8],
    slots: &mut [u32; slots::MOST],
    out: &mut [u8; OUT_ROOM],
) {
    match faults::find(text) {
        Ok(()) => draw_any(output, text, slots, out),
        Err(fault) => {
            let end = says::put_fault(fault, out, 0);
            let _ = output.write_all(&out[..end]);
        }
    }
}

fn main(rt: HostRuntime) {
    let mut text = [0u8; TEXT_ROOM];
    let mut slots = [0u32; slots::MOST];
    let mut out = [0u8; OUT_ROOM];
    match fill(&mut rt.stdin(), &mut text) {
        Ok(held) => show(&mut rt.stdout(), &text[..held], &mut slots, &mut out),
        Err(_) => {
            let _ = rt.stderr().write_all(b"show: the input can't be read\n");
        }
    }
}

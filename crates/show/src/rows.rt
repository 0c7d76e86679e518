// The rows of a drawing, written into a lent text: a word, and a cell for each of some slots.
// A text and a place in it stay two parameters, as `words` takes them: a struct of both would be taken apart at each call.
ghost use Rattle.std.specs.Prelude.{◌≡◌, ◌+◌, ◌-◌, ◌≤◌, ◌<◌, min, length};
ghost use Rattle.slots.specs.Layout.{most};
ghost use Rattle.words.specs.Words.{decimal};
ghost use Rattle.words.specs.Wrote.{Wrote};
ghost use Rattle.show.specs.Rows.{spaces, right_in, largest, width, slot_cells, slot_row, held_cell, held_cells, held_row, pos_cell, pos_cells, pos_row, entry_cell, entry_cells, list_word, list_row, list_in};

use words::{put_decimal, put_text};

// What is drawn: lent slots, and where the entries are among them. A vector's head is 0.
#[derive(Clone, Copy)]
pub(crate) struct Held<'a> {
    pub slots: &'a [u32],
    pub head: usize,
    pub len: usize,
    ghost small: { length slots.now ≤ most },
    ghost inside: { head ≤ length slots.now - 1 },
    ghost fits: { len ≤ length slots.now },
}

// What stands in one row: eight slots or entries at most.
// That it lies within what is drawn is asked by each function: a row of slots lies in the slots, one of the list in the list.
#[derive(Clone, Copy)]
pub(crate) struct Row {
    pub first: usize,
    pub last: usize,
    ghost ordered: { first ≤ last },
    ghost few: { last ≤ first + 8 },
}

// How wide the numbers are.
#[derive(Clone, Copy)]
pub(crate) struct Width {
    pub digits: usize,
    ghost narrow: { digits ≤ 20 },
}

// The row that begins there: eight on, or to where all ends.
pub(crate) fn row_at(first: usize, end: usize) -> Row
    requires { first < end }
    ensures { (result.first ≡ first) × (result.last ≡ min (first + 8) end) }
{
    Row {
        first,
        last: first + 8.min(end - first),
    }
}

fn put_spaces(n: usize, out: &mut [u8], at: usize) -> usize
    requires { at + n ≤ length out.old }
    ensures { Wrote out.old at (spaces n) result out.new × (result ≤ at + n) }
{
    let end = at + n;
    out[at..end].fill(b' ');
    end
}

// Bytes to the right, in w columns.
fn put_right(part: &[u8], w: usize, out: &mut [u8], at: usize) -> usize
    requires { at + w + length part.now ≤ length out.old }
    ensures { Wrote out.old at (right_in w part.now) result out.new × (result ≤ at + w + length part.now) }
{
    let end = put_spaces(w.saturating_sub(part.len()), out, at);
    put_text(part, out, end)
}

// A number to the right.
fn put_number(n: u64, w: usize, out: &mut [u8], at: usize) -> usize
    requires { at + w + 20 ≤ length out.old }
    ensures { Wrote out.old at (right_in w (decimal n)) result out.new × (result ≤ at + w + 20) }
{
    let mut text = [0u8; 20];
    let k = io::decimal(n, &mut text);
    put_right(&text[..k], w, out, at)
}

// The largest of the slots' numbers and of what they hold.
fn largest_in(slots: &[u32]) -> u64
    ensures { result ≡ largest (length slots.now - 1) slots.now }
{
    let mut largest = slots.len().saturating_sub(1) as u64;
    for x in slots {
        largest = largest.max(*x as u64);
    }
    largest
}

#[tactic(auto, using(crate::proofs::Drawn::width_is))]
pub(crate) fn width_of(slots: &[u32]) -> Width
    ensures { result.digits ≡ width slots.now }
{
    let mut text = [0u8; 20];
    let k = put_decimal(largest_in(slots), &mut text, 0);
    Width { digits: k.max(2) }
}

// The slots' numbers.
fn put_slot_cells(w: Width, row: Row, out: &mut [u8], at: usize) -> usize
    requires { at + 360 ≤ length out.old }
    ensures { Wrote out.old at (slot_cells w.digits row.first (row.last - row.first)) result out.new × (result ≤ at + 360) }
{
    let mut end = at;
    for i in row.first..row.last {
        end = put_number(i as u64, w.digits + 5, out, end);
    }
    end
}

pub(crate) fn put_slot_row(w: Width, row: Row, out: &mut [u8], at: usize) -> usize
    requires { at + 380 ≤ length out.old }
    ensures { Wrote out.old at (slot_row w.digits row.first (row.last - row.first)) result out.new × (result ≤ at + 380) }
{
    let mut end = put_text(b"slot     ", out, at);
    end = put_slot_cells(w, row, out, end);
    put_text(b"\n", out, end)
}

// What they hold.
fn put_held_cell(w: Width, x: u64, out: &mut [u8], at: usize) -> usize
    requires { at + 45 ≤ length out.old }
    ensures { Wrote out.old at (held_cell w.digits x) result out.new × (result ≤ at + 45) }
{
    let mut end = put_text(b" [ ", out, at);
    end = put_number(x, w.digits, out, end);
    put_text(b" ]", out, end)
}

fn put_held_cells(slots: &[u32], w: Width, row: Row, out: &mut [u8], at: usize) -> usize
    requires { (row.last ≤ length slots.now) × (at + 360 ≤ length out.old) }
    ensures { Wrote out.old at (held_cells w.digits slots.now row.first (row.last - row.first)) result out.new × (result ≤ at + 360) }
{
    let mut end = at;
    for x in &slots[row.first..row.last] {
        end = put_held_cell(w, *x as u64, out, end);
    }
    end
}

pub(crate) fn put_held_row(slots: &[u32], w: Width, row: Row, out: &mut [u8], at: usize) -> usize
    requires { (row.last ≤ length slots.now) × (at + 380 ≤ length out.old) }
    ensures { Wrote out.old at (held_row w.digits slots.now row.first (row.last - row.first)) result out.new × (result ≤ at + 380) }
{
    let mut end = put_text(b"holds       ", out, at);
    end = put_held_cells(slots, w, row, out, end);
    put_text(b"\n", out, end)
}

// Their positions.
#[tactic(auto, using(std::proofs::lemmas::Bool::Decides::nat_tests), unfolding(crate::specs::Rows::pos_cell))]
fn put_pos_cell(w: Width, len: usize, p: usize, out: &mut [u8], at: usize) -> usize
    requires { at + 45 ≤ length out.old }
    ensures { Wrote out.old at (pos_cell w.digits len p) result out.new × (result ≤ at + 45) }
{
    if p < len {
        return put_number(p as u64, w.digits + 5, out, at);
    }
    put_right(b"-", w.digits + 5, out, at)
}

fn put_pos_cells(held: Held, w: Width, row: Row, out: &mut [u8], at: usize) -> usize
    requires { (row.last ≤ length held.slots.now) × (at + 360 ≤ length out.old) }
    ensures { Wrote out.old at (pos_cells w.digits (length held.entry.slots.now) held.entry.head held.entry.len row.first (row.last - row.first)) result out.new × (result ≤ at + 360) }
{
    let cap = held.slots.len();
    let mut end = at;
    for i in row.first..row.last {
        let p = slots::slot(cap, i, cap - held.head); // as far on from slot i as the head is before the end: the position of slot i
        end = put_pos_cell(w, held.len, p, out, end);
    }
    end
}

pub(crate) fn put_pos_row(held: Held, w: Width, row: Row, out: &mut [u8], at: usize) -> usize
    requires { (row.last ≤ length held.slots.now) × (at + 380 ≤ length out.old) }
    ensures { Wrote out.old at (pos_row w.digits (length held.entry.slots.now) held.entry.head held.entry.len row.first (row.last - row.first)) result out.new × (result ≤ at + 380) }
{
    let mut end = put_text(b"position  ", out, at);
    end = put_pos_cells(held, w, row, out, end);
    put_text(b"\n", out, end)
}

// An entry of the list.
fn put_entry(x: u64, more: bool, out: &mut [u8], at: usize) -> usize
    requires { at + 22 ≤ length out.old }
    ensures { Wrote out.old at (entry_cell x more) result out.new × (result ≤ at + 22) }
{
    let mut end = put_text(b" ", out, at);
    end = put_decimal(x, out, end);
    if more {
        return put_text(b",", out, end);
    }
    end
}

fn put_entries(held: Held, row: Row, out: &mut [u8], at: usize) -> usize
    requires { (row.last ≤ held.len) × (at + 176 ≤ length out.old) }
    ensures { Wrote out.old at (entry_cells (list_in held.entry.slots.now held.entry.head held.entry.len) row.first (row.last - row.first)) result out.new × (result ≤ at + 176) }
{
    let mut end = at;
    for j in row.first..row.last {
        let s = slots::slot(held.slots.len(), held.head, j);
        end = put_entry(held.slots[s] as u64, j + 1 < held.len, out, end);
    }
    end
}

pub(crate) fn put_list_row(held: Held, row: Row, out: &mut [u8], at: usize) -> usize
    requires { (row.last ≤ held.len) × (at + 181 ≤ length out.old) }
    ensures { Wrote out.old at (list_row (list_in held.entry.slots.now held.entry.head held.entry.len) row.first (row.last - row.first)) result out.new × (result ≤ at + 181) }
{
    let word = put_word(row.first, out, at);
    let end = put_entries(held, row, out, word);
    put_text(b"\n", out, end)
}

// The word before the list's first entries; before others its room.
#[tactic(auto, using(std::proofs::lemmas::Bool::Decides::nat_tests), unfolding(crate::specs::Rows::list_word))]
fn put_word(first: usize, out: &mut [u8], at: usize) -> usize
    requires { at + 4 ≤ length out.old }
    ensures { Wrote out.old at (list_word first) result out.new × (result ≤ at + 4) }
{
    if first == 0 {
        return put_text(b"list", out, at);
    }
    put_text(b"    ", out, at)
}

// What a record that is read writes, and the answer on two vectors.
ghost use Rattle.std.specs.Prelude.{◌≡◌, ◌≤◌, length};
ghost use Rattle.std.proofs.lemmas.List.Edits.{sets};
ghost use Rattle.slots.specs.Layout.{most, itself, entries};
ghost use Rattle.slots.specs.Total.{total, changed};
ghost use Rattle.runs.specs.Width.{summing};
ghost use Rattle.table.specs.Answers.{told};
ghost use Rattle.vector.specs.Seen.{state};
ghost use Rattle.pairs.specs.Seen.{both};
ghost use Rattle.record.specs.Scan.{scanned};
ghost use Rattle.record.specs.Places.{firsts, lasts};
ghost use Rattle.record.specs.Steps.{number_of, Judged};

use super::kept::Kept;
use runs::total;
use runs::total::Total;
use table::answers::{Answer, Both};
use vector::Vector;

// A call that is done, with as many numbers on each. Each total, whatever it was, grows by what these add up to.
fn done(
    value: u32,
    count: usize,
    first: Total,
    starts: Total,
    second: Total,
    ends: Total,
) -> Answer<Both<Vector, Vector>>
    ensures { result ≡ told value 0 (both (state count (summing (changed first.sum starts.sum 0))) (state count (summing (changed second.sum ends.sum 0)))) }
{
    let v = vector::state(count, total::more(first, starts));
    let t = vector::state(count, total::more(second, ends));
    Answer::telling(
        value,
        0,
        Both {
            first: v,
            second: t,
        },
    )
}

// The places go into the slots, and what they add up to goes onto the totals.
// States and slots come one by one, as `read` takes them (lib.rt).
pub(crate) fn enter(
    text: &[u8],
    at: u32,
    kept: &Kept,
    first: Total,
    slots: &mut [u32],
    second: Total,
    theirs: &mut [u32],
) -> Answer<Both<Vector, Vector>>
    requires judged { Judged text.now kept.now × (number_of (scanned text.now).ending ≡ 0) }
    requires room { (length slots.old ≤ most) × (kept.now.count ≤ length slots.old) × (length theirs.old ≤ most) × (kept.now.count ≤ length theirs.old) }
    ensures slots_after { slots.new ≡ sets slots.old 0 (firsts (scanned text.now).fields) }
    ensures theirs_after { theirs.new ≡ sets theirs.old 0 (lasts (scanned text.now).fields) }
    ensures value { result ≡ told at 0 (both (state kept.now.count (summing (changed first.sum (total (entries itself kept.now.count slots.new)) 0))) (state kept.now.count (summing (changed second.sum (total (entries itself kept.now.count theirs.new)) 0)))) }
{
    kept.place(text, slots, theirs);
    let count = kept.count;
    let starts = total::run(slots, 0, count);
    let stops = total::run(theirs, 0, count);
    done(at, count, first, starts, second, stops)
}

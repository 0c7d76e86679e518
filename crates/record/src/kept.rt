// The places of a record's fields: those of the first sixteen are kept while the text is judged, and all go into the slots once it reads well.
ghost use Rattle.std.specs.Prelude.{◌≡◌, ◌≤◌, ◌<◌, length, take, set};
ghost use Rattle.std.proofs.lemmas.List.Edits.{sets};
ghost use Rattle.record.specs.Scan.{scanned};
ghost use Rattle.record.specs.Places.{firsts, lasts};
ghost use Rattle.record.specs.Steps.{number_of, Judged};
ghost use Rattle.record.specs.Recorded.{longest};

use super::field;

// Where each of the first sixteen fields starts and ends, and how many fields there are.
// There is no heap: sixteen places stand in an array. The count is of all fields, so it may be more.
#[derive(Clone, Copy)]
pub(crate) struct Kept {
    pub(crate) places: [(u32, u32); 16],
    pub(crate) count: usize,
}

impl Kept {
    // Those of no field.
    pub(crate) fn none() -> Kept {
        Kept {
            places: [(0, 0); 16],
            count: 0,
        }
    }

    // The place of field k is kept, if it is one of the first sixteen.
    pub(crate) fn keep(&mut self, k: usize, start: usize, end: usize)
        requires { (start < 4294967296) × (end < 4294967296) }
        ensures { self.new.places ≡ set self.old.places k (start, end) }
    {
        if k < 16 {
            self.places[k] = (start as u32, end as u32);
        }
    }

    // The kept places go into the slots.
    // Here and below room is asked of the lent slots: `settle` has tested it once, and they come one by one, as C passes them (lib.rt).
    fn lay(&self, slots: &mut [u32], theirs: &mut [u32])
        requires { (self.now.count ≤ length slots.old) × (self.now.count ≤ length theirs.old) × (self.now.count ≤ 16) }
        ensures slots_after { slots.new ≡ sets slots.old 0 (firsts (take self.now.count self.now.places)) }
        ensures theirs_after { theirs.new ≡ sets theirs.old 0 (lasts (take self.now.count self.now.places)) }
    {
        for k in 0..self.count {
            let (start, end) = self.places[k];
            slots[k] = start;
            theirs[k] = end;
        }
    }

    // The fields' places go into the slots: those that were kept, or, of a record with more fields than that, those that are found again.
    pub(crate) fn place(&self, text: &[u8], slots: &mut [u32], theirs: &mut [u32])
        requires judged { Judged text.now self.now × (number_of (scanned text.now).ending ≡ 0) }
        requires room { (self.now.count ≤ length slots.old) × (self.now.count ≤ length theirs.old) }
        ensures slots_after { slots.new ≡ sets slots.old 0 (firsts (scanned text.now).fields) }
        ensures theirs_after { theirs.new ≡ sets theirs.old 0 (lasts (scanned text.now).fields) }
    {
        if 16 < self.count {
            place_all(text, self.count, slots, theirs);
            return;
        }
        self.lay(slots, theirs);
    }
}

// Where each field starts and ends goes into the slots. A comma stands behind each but the last.
fn place_all(text: &[u8], count: usize, slots: &mut [u32], theirs: &mut [u32])
    requires text_len_bound { (length text.now ≤ longest) × (count ≡ length (scanned text.now).fields) × (number_of (scanned text.now).ending ≡ 0) }
    requires count_in_bounds { (count ≤ length slots.old) × (count ≤ length theirs.old) }
    ensures slots_after { slots.new ≡ sets slots.old 0 (firsts (scanned text.now).fields) }
    ensures theirs_after { theirs.new ≡ sets theirs.old 0 (lasts (scanned text.now).fields) }
{
    let mut at = 0;
    for k in 0..count {
        let Some(f) = field(text, at) else {
            unreachable!();
        };
        slots[k] = f.start as u32;
        theirs[k] = f.end as u32;
        at = f.next + 1;
    }
}

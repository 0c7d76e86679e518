// The parts of a vector's slots that are lent on: no number goes with them, `ask_range` answers for the same state and range. The C interface has
// as_slice and as_mut_slice by upstream's second names too.
ghost use Rattle.runs.specs.Width.{bytes};
ghost use Rattle.table.specs.Parts.{lends, lends_all};
ghost use Rattle.table.specs.Lent.{Lent};
ghost use Rattle.vector.specs.Seen.{tray};
ghost use denote.MutBor.{as_bor};

use super::Vector;

impl Vector {
    // The entries a to b; an empty range too lies at its own slot.
    pub fn range(self, slots: &[u32], a: usize, b: usize) -> &[u32]
        ensures { Lent bytes (lends a b (tray self slots.now)) slots.entry result }
    {
        let cap = slots.len();
        let len = self.len;
        if table::invalid_vector(cap, len) {
            return &slots[0..0];
        }
        if table::astray(a, b, len) {
            return &slots[0..0];
        }
        &slots[a..b]
    }

    pub fn as_slice(self, slots: &[u32]) -> &[u32]
        ensures { Lent bytes (lends_all (tray self slots.now)) slots.entry result }
    {
        let len = self.len;
        self.range(slots, 0, len)
    }

    pub fn as_ref(self, slots: &[u32]) -> &[u32]
        ensures { Lent bytes (lends_all (tray self slots.now)) slots.entry result }
    {
        self.as_slice(slots) // upstream's AsRef
    }

    pub fn deref(self, slots: &[u32]) -> &[u32]
        ensures { Lent bytes (lends_all (tray self slots.now)) slots.entry result }
    {
        self.as_slice(slots) // upstream's Deref
    }

    // For writing: slots 0 to n and no more. What the slots hold once it is given back no promise can name (docs/EXCEPTIONS.md).
    pub fn as_mut_slice(self, slots: &mut [u32]) -> &mut [u32]
        ensures { Lent bytes (lends_all (tray self slots.old)) (as_bor slots.entry) (as_bor result) }
    {
        let cap = slots.len();
        let len = self.len;
        if table::invalid_vector(cap, len) {
            return &mut slots[0..0];
        }
        &mut slots[0..len]
    }

    pub fn deref_mut(self, slots: &mut [u32]) -> &mut [u32]
        ensures { Lent bytes (lends_all (tray self slots.old)) (as_bor slots.entry) (as_bor result) }
    {
        self.as_mut_slice(slots)
    }
}

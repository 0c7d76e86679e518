// The stored form. Its writers only look at the container, whose state is not stored; its readers make one, and write the state as the makings do.
ghost use Rattle.std.specs.Prelude.{◌≡◌, cond};
ghost use Rattle.slots.specs.Layout.{ring, vector};
ghost use Rattle.stored.specs.Judge.{judge_by};
ghost use Rattle.tumbrelice.specs.Heard.{ring_of, vector_of};
ghost use Rattle.tumbrelice.specs.HeardText.{HearsStored, HearsRead};

use super::makings::{no_ring, no_vector};
use super::{ring_in, ring_made, vector_in, vector_made, word};
use stored::{judges, readers};
use table::answers::in_numbers;

pub fn tum_ring_text(slots: &[u32], state: &[u64; 3], text: &mut [u8]) -> u64
    ensures { HearsStored ring (ring_of state.now slots.now) text.old result text.new }
{
    let r = ring_in(state);
    let told = in_numbers(r, stored::ring_text(r, slots, text));
    word(told)
}

pub fn tum_vector_text(slots: &[u32], state: &[u64; 2], text: &mut [u8]) -> u64
    ensures { HearsStored vector (vector_of state.now slots.now) text.old result text.new }
{
    let v = vector_in(state);
    let a = in_numbers(v, stored::vector_text(v, slots, text));
    word(a)
}

pub fn tum_ring_text_read(slots: &mut [u32], state: &mut [u64; 3], text: &[u8]) -> u64
    ensures { HearsRead ring text.now slots.old result (ring_of state.new slots.new) }
{
    let made = in_numbers(no_ring(), readers::ring_read(text, slots));
    *state = ring_made(made.state);
    word(made)
}

pub fn tum_vector_text_read(slots: &mut [u32], state: &mut [u64; 2], text: &[u8]) -> u64
    ensures { HearsRead vector text.now slots.old result (vector_of state.new slots.new) }
{
    let read = in_numbers(no_vector(), readers::vector_read(text, slots));
    *state = vector_made(read.state);
    word(read)
}

// Whether a text can be read, by a kind number of 64 bits, so that no other number is cut down to a kind: 1 is a yes, 0 a no.
pub fn tum_stored_check(text: &[u8], kind: u64) -> u64
    ensures { result ≡ cond (judge_by kind text.now) 1 0 }
{
    u64::from(judges::check(text, kind))
}

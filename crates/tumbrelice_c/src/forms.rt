// The stored form. Its writers only look at the container, whose state is not stored; its readers make one, and write the state as the makings do.
ghost use Rattle.std.specs.Prelude.{◌≡◌, cond};
ghost use Rattle.slots.specs.Layout.{ring, vector};
ghost use Rattle.stored.specs.Judge.{judge_by};
ghost use Rattle.tumbrelice.specs.Heard.{ring_of, vector_of};
ghost use Rattle.tumbrelice.specs.HeardText.{HearsStored, HearsRead};

#[unsafe(no_mangle)]
pub extern "C" fn tum_ring_text(slots: &[u32], state: &[u64; 3], text: &mut [u8]) -> u64
    ensures { HearsStored ring (ring_of state.now slots.now) text.old result text.new }
{
    tumbrelice::forms::tum_ring_text(slots, state, text)
}

#[unsafe(no_mangle)]
pub extern "C" fn tum_vector_text(slots: &[u32], state: &[u64; 2], text: &mut [u8]) -> u64
    ensures { HearsStored vector (vector_of state.now slots.now) text.old result text.new }
{
    tumbrelice::forms::tum_vector_text(slots, state, text)
}

#[unsafe(no_mangle)]
pub extern "C" fn tum_ring_text_read(slots: &mut [u32], state: &mut [u64; 3], text: &[u8]) -> u64
    ensures { HearsRead ring text.now slots.old result (ring_of state.new slots.new) }
{
    tumbrelice::forms::tum_ring_text_read(slots, state, text)
}

#[unsafe(no_mangle)]
pub extern "C" fn tum_vector_text_read(slots: &mut [u32], state: &mut [u64; 2], text: &[u8]) -> u64
    ensures { HearsRead vector text.now slots.old result (vector_of state.new slots.new) }
{
    tumbrelice::forms::tum_vector_text_read(slots, state, text)
}

#[unsafe(no_mangle)]
pub extern "C" fn tum_stored_check(text: &[u8], kind: u64) -> u64
    ensures { result ≡ cond (judge_by kind text.now) 1 0 }
{
    tumbrelice::forms::tum_stored_check(text, kind)
}

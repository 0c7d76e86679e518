// The calls on a record of comma-separated text, which is passed as a pointer and the number of its bytes.
ghost use Rattle.tumbrelice.specs.Heard.{vector_of};
ghost use Rattle.tumbrelice.specs.HeardText.{HearsRecord, HearsTold, HearsUndone};

use super::{vector_in, vector_out, word, word_of};
use table::answers::{Both, Refusal, in_numbers};

pub fn tum_record_read(
    text: &[u8],
    slots: &mut [u32],
    state: &mut [u64; 2],
    theirs: &mut [u32],
    other: &mut [u64; 2],
) -> u64
    ensures { HearsRecord text.now (vector_of state.old slots.old) (vector_of other.old theirs.old) result (vector_of state.new slots.new) (vector_of other.new theirs.new) }
{
    let v = vector_in(state);
    let t = vector_in(other);
    let a = in_numbers(
        Both {
            first: v,
            second: t,
        },
        record::read(text, v, slots, t, theirs),
    );
    vector_out(state, a.number, a.state.first);
    vector_out(other, a.number, a.state.second);
    word(a)
}

pub fn tum_record_judge(text: &[u8]) -> u64
    ensures { HearsTold text.now result }
{
    match record::texts::judge(text) {
        Ok(next) => word_of(0, next, 0, slots::NO_SLOT),
        Err(f) => word_of(u8::from(Refusal::from(f)), u32::from(f), 0, slots::NO_SLOT),
    }
}

pub fn tum_record_text(text: &[u8], start: usize, end: usize, out: &mut [u8]) -> u64
    ensures { HearsUndone text.now start end out.old result out.new }
{
    match record::texts::field_text(text, start, end, out) {
        Ok(size) => word_of(0, size, 0, slots::NO_SLOT),
        Err(e) => word_of(u8::from(e), 0, 0, slots::NO_SLOT),
    }
}

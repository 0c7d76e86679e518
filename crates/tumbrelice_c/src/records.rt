// The calls on a record of comma-separated text, which is passed as a pointer and the number of its bytes.
ghost use Rattle.tumbrelice.specs.Heard.{vector_of};
ghost use Rattle.tumbrelice.specs.HeardText.{HearsRecord, HearsTold, HearsUndone};

#[unsafe(no_mangle)]
pub extern "C" fn tum_record_read(
    text: &[u8],
    slots: &mut [u32],
    state: &mut [u64; 2],
    theirs: &mut [u32],
    other: &mut [u64; 2],
) -> u64
    ensures { HearsRecord text.now (vector_of state.old slots.old) (vector_of other.old theirs.old) result (vector_of state.new slots.new) (vector_of other.new theirs.new) }
{
    tumbrelice::records::tum_record_read(text, slots, state, theirs, other)
}

#[unsafe(no_mangle)]
pub extern "C" fn tum_record_judge(text: &[u8]) -> u64
    ensures { HearsTold text.now result }
{
    tumbrelice::records::tum_record_judge(text)
}

#[unsafe(no_mangle)]
pub extern "C" fn tum_record_text(text: &[u8], start: usize, end: usize, out: &mut [u8]) -> u64
    ensures { HearsUndone text.now start end out.old result out.new }
{
    tumbrelice::records::tum_record_text(text, start, end, out)
}

// What a line is answered: the line's call is done, and its answer is put as hexadecimal digits.
ghost use Rattle.std.specs.Prelude.{◌≡◌};
ghost use Rattle.tray_lines.specs.Seen.{world};
ghost use Rattle.tray_lines.specs.Answers.{bare, line_of, tells, told_seen};

use crate::acts::{After, Answer, Trays};

// What a line that is no call is answered: its number, and nothing else.
fn bare(number: u8) -> Answer
    ensures { result ≡ bare number }
{
    Answer {
        number,
        value: 0,
        moves: 0,
        slot: slots::NO_SLOT,
        head: 0,
        len: 0,
    }
}

// Number, value, moves, head, length and slot, and the line's end.
#[tactic(auto, using(crate::proofs::Answered::line_put))]
fn line_of(a: Answer) -> [u8; 27]
    ensures { result ≡ line_of a }
{
    let mut text = [0u8; 27];
    digits::put_hex(&mut text, 0, 2, a.number as u64);
    digits::put_hex(&mut text, 2, 8, a.value as u64);
    digits::put_hex(&mut text, 10, 4, a.moves as u64);
    digits::put_hex(&mut text, 14, 4, a.head as u64);
    digits::put_hex(&mut text, 18, 4, a.len as u64);
    digits::put_hex(&mut text, 22, 4, a.slot as u64);
    text[26] = 10;
    text
}

// The whole meaning of a line: the containers after it, and what is answered.
pub fn tell(trays: Trays, line: &[u8]) -> After<[u8; 27]>
    ensures { told_seen result ≡ tells (world trays) line.now }
{
    match crate::lines::parse(line) {
        Ok(call) => {
            let done = crate::acts::act(trays, call);
            After {
                trays: done.trays,
                answer: line_of(done.answer),
            }
        }
        Err(e) => After {
            trays,
            answer: line_of(bare(u8::from(e))),
        },
    }
}

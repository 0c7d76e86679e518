// What a call answers: its answer, or why it is refused; and both as the papers number them.
ghost use Rattle.std.specs.Prelude.{◌≡◌};
ghost use Rattle.table.specs.Answers.{number_in, told, lit, numbered};

// Why a call is refused. The papers give each a number, and 0 to a call that is done.
#[derive(Clone, Copy, Debug, PartialEq, Eq)]
pub enum Refusal {
    // 1: the state is none of a container on these slots
    Invalid,
    // 2: T's is none
    SecondInvalid,
    // 3: no such position, range or cursor
    Beyond,
    // 4: no entry to hand out, or the cursor has ended
    Empty,
    // 5: T holds entries, or so does a vector that a record is to go on
    Taken,
    // 6: more entries than free slots, or more bytes than the text lent
    Full,
    // 9: a byte that may not stand there
    Stray,
    // 10: a quote that is never closed
    Unclosed,
    // 11: a text of more than 65,535 bytes
    Long,
    // 12: more entries would change their slot than are allowed
    Moves,
    // 14: no stored form of such a container
    Unacceptable,
}

impl From<Refusal> for u8 {
    ghost from_gives = { λ e n. n ≡ number_in e };

    fn from(e: Refusal) -> u8 {
        match e {
            Refusal::Invalid => 1,
            Refusal::SecondInvalid => 2,
            Refusal::Beyond => 3,
            Refusal::Empty => 4,
            Refusal::Taken => 5,
            Refusal::Full => 6,
            Refusal::Stray => 9,
            Refusal::Unclosed => 10,
            Refusal::Long => 11,
            Refusal::Moves => 12,
            Refusal::Unacceptable => 14,
        }
    }
}

// What a call that is done answers, with the slot of the entry concerned and the state afterwards.
#[derive(Clone, Copy)]
pub struct Answer<S> {
    pub value: u32,
    pub moves: usize,
    pub slot: usize,
    pub state: S,
}

// The states of two: the container named first, and T.
#[derive(Clone, Copy)]
pub struct Both<A, B> {
    pub first: A,
    pub second: B,
}

// An answer as the papers number it, for C and for programs that print it: a refused call gives back the state that it got.
#[derive(Clone, Copy)]
pub struct Numbered<S> {
    pub number: u8,
    pub value: u32,
    pub moves: usize,
    pub slot: usize,
    pub state: S,
}

impl<S: Copy> Answer<S> {
    // One that is about no entry: every answer is put together here.
    pub fn telling(value: u32, moves: usize, state: S) -> Answer<S>
        ensures { result ≡ told value moves state }
    {
        Answer {
            value,
            moves,
            slot: slots::NO_SLOT,
            state,
        }
    }

    // A lamp lights at the slot concerned: the one that the call has used.
    pub fn lit(self, at: usize) -> Answer<S>
        ensures { result ≡ lit at self }
    {
        let mut a = self;
        a.slot = at;
        a
    }
}

// What a call answered that was given this state.
pub fn in_numbers<S: Copy>(given: S, told: Result<Answer<S>, Refusal>) -> Numbered<S>
    ensures { result ≡ numbered given told }
{
    match told {
        Ok(a) => Numbered {
            number: 0,
            value: a.value,
            moves: a.moves,
            slot: a.slot,
            state: a.state,
        },
        Err(e) => Numbered {
            number: u8::from(e),
            value: 0,
            moves: 0,
            slot: slots::NO_SLOT,
            state: given,
        },
    }
}

// What a line says: a call, held as a ring call or a vector call that holds its operation, or why the line is none.
ghost use Rattle.std.specs.Prelude.{◌≡◌};
ghost use Rattle.tray_lines.specs.Lines.{number_in, ring_says, vector_says, call_says, said};

// The operations of a ring, with their arguments.
#[derive(Clone, Copy)]
pub enum RingOp {
    PushBack(u32),
    PushFront(u32),
    PopBack,
    PopFront,
    Insert(usize, u32),
    Remove(usize),
    Append,
    SplitOff(usize),
    Truncate(usize),
    Resize(usize, u32),
    Clear,
    Read(usize),
    Write(usize, u32),
}

// The operations of a vector.
#[derive(Clone, Copy)]
pub enum VectorOp {
    Push(u32),
    Pop,
    Insert(usize, u32),
    Remove(usize),
    SwapRemove(usize),
    Append,
    SplitOff(usize),
    Truncate(usize),
    Resize(usize, u32),
    Clear,
    Read(usize),
    Write(usize, u32),
}

// Which of the two containers of a kind.
#[derive(Clone, Copy)]
pub enum Which {
    First,
    Second,
}

// A call of a ring or of a vector, and the operation.
#[derive(Clone, Copy)]
pub enum Call {
    Ring(Which, RingOp),
    Vector(Which, VectorOp),
}

// Why a line is no call.
#[derive(Clone, Copy)]
pub enum Unsaid {
    // 7: not 16 digits
    Garbled,
    // 8: no such operation or container
    Unknown,
}

impl From<Unsaid> for u8 {
    ghost from_gives = { λ e n. n ≡ number_in e };

    fn from(e: Unsaid) -> u8 {
        match e {
            Unsaid::Garbled => 7,
            Unsaid::Unknown => 8,
        }
    }
}

// The operations by the numbers that a line has for them (paper 01). One row of numbers serves both kinds, so they are matched as numbers.
#[tactic(auto, using(crate::proofs::Says::unknown), unfolding(digits::specs::Rows::under))]
fn ring_op(op: u64, i: usize, x: u32) -> Result<RingOp, Unsaid>
    ensures { result ≡ ring_says op i x }
{
    match op {
        1 => Ok(RingOp::PushBack(x)),
        2 => Ok(RingOp::PushFront(x)),
        3 => Ok(RingOp::PopBack),
        4 => Ok(RingOp::PopFront),
        5 => Ok(RingOp::Insert(i, x)),
        6 => Ok(RingOp::Remove(i)),
        8 => Ok(RingOp::Append),
        9 => Ok(RingOp::SplitOff(i)),
        10 => Ok(RingOp::Truncate(i)),
        11 => Ok(RingOp::Resize(i, x)),
        12 => Ok(RingOp::Clear),
        13 => Ok(RingOp::Read(i)),
        14 => Ok(RingOp::Write(i, x)),
        _ => Err(Unsaid::Unknown),
    }
}

#[tactic(auto, using(crate::proofs::Says::unknown), unfolding(digits::specs::Rows::under))]
fn vector_op(op: u64, i: usize, x: u32) -> Result<VectorOp, Unsaid>
    ensures { result ≡ vector_says op i x }
{
    match op {
        1 => Ok(VectorOp::Push(x)),
        3 => Ok(VectorOp::Pop),
        5 => Ok(VectorOp::Insert(i, x)),
        6 => Ok(VectorOp::Remove(i)),
        7 => Ok(VectorOp::SwapRemove(i)),
        8 => Ok(VectorOp::Append),
        9 => Ok(VectorOp::SplitOff(i)),
        10 => Ok(VectorOp::Truncate(i)),
        11 => Ok(VectorOp::Resize(i, x)),
        12 => Ok(VectorOp::Clear),
        13 => Ok(VectorOp::Read(i)),
        14 => Ok(VectorOp::Write(i, x)),
        _ => Err(Unsaid::Unknown),
    }
}

// Rings 0 and 1, vectors 2 and 3.
fn call_said(op: u64, container: u64, i: usize, x: u32) -> Result<Call, Unsaid>
    ensures { result ≡ call_says op container i x }
{
    match container {
        0 => Ok(Call::Ring(Which::First, ring_op(op, i, x)?)),
        1 => Ok(Call::Ring(Which::Second, ring_op(op, i, x)?)),
        2 => Ok(Call::Vector(Which::First, vector_op(op, i, x)?)),
        3 => Ok(Call::Vector(Which::Second, vector_op(op, i, x)?)),
        _ => Err(Unsaid::Unknown),
    }
}

// The call that a line says.
#[tactic(auto, using(crate::proofs::Says::says_garbled, crate::proofs::Says::says_no_digits, crate::proofs::Says::says_call))]
pub fn parse(line: &[u8]) -> Result<Call, Unsaid>
    ensures { result ≡ said line.now }
{
    if line.len() != 16 {
        return Err(Unsaid::Garbled);
    }
    if !digits::are_digits(line) {
        return Err(Unsaid::Garbled);
    }
    let op = digits::number(&line[0..2]);
    let container = digits::number(&line[2..4]);
    let i = digits::number(&line[4..8]);
    let x = digits::number(&line[8..16]);
    call_said(op, container, i as usize, x as u32)
}

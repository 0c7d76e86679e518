// What a call does to the four containers: each operation is the library's own call on copies of the slots, which then go back.
ghost use Rattle.std.specs.Prelude.{◌≡◌};
ghost use Rattle.slots.specs.Layout.{ring, vector};
ghost use Rattle.table.specs.Calls.{new};
ghost use Rattle.table.specs.Does.{made};
ghost use Rattle.tray_lines.specs.Kept.{Keeping, ring_kept, vector_kept};
ghost use Rattle.tray_lines.specs.Seen.{ring_here, vector_here, world, Does, one, two, turned, shown, acted_seen};
ghost use Rattle.tray_lines.specs.Acts.{free, begun, acts, ring_act, vector_act};

use crate::lines::{Call, RingOp, VectorOp, Which};
use containers::Container;
use ring::Ring;
use runs::total;
use table::answers;
use table::answers::{Both, Numbered, Refusal};
use vector::Vector;

// A container with its slots. No line tells a total, so none is kept. The head of a ring is a number, and a vector has none.
#[derive(Clone, Copy)]
pub struct Held<H> {
    pub head: H,
    pub len: usize,
    pub slots: [u32; 4],
}

// The containers of the program: rings 0 and 1, vectors 2 and 3.
#[derive(Clone, Copy)]
pub struct Trays {
    pub rings: Both<Held<usize>, Held<usize>>,
    pub vectors: Both<Held<()>, Held<()>>,
}

// What is answered, with the slot concerned, and the head and the length of the container afterwards.
// The number stays one, since the line shows it (paper 01): a `Refusal`'s, or an `Unsaid`'s, two enums with one row of numbers.
#[derive(Clone, Copy)]
pub struct Answer {
    pub number: u8,
    pub value: u32,
    pub moves: usize,
    pub slot: usize,
    pub head: usize,
    pub len: usize,
}

// The containers after a call or a line, and what is answered: the numbers, the line with its LF, or at the end of the input a line or none.
#[derive(Clone, Copy)]
pub struct After<A> {
    pub trays: Trays,
    pub answer: A,
}

// How a container's state is kept between two calls, and given to the next, with the total 0. Each impl repeats the clause of `state`, which the check takes from no trait.
pub(crate) trait Kept: Container {
    type Head: Copy;

    ghost keeps: { Keeping Self Self.Head };

    fn hold(self, slots: [u32; 4]) -> Held<Self::Head>
        ensures { result ≡ keeps.hold self slots };

    fn state(held: Held<Self::Head>) -> Self
        ensures { result ≡ keeps.state held };
}

impl Kept for Ring {
    type Head = usize;

    ghost keeps = { ring_kept };

    fn hold(self, slots: [u32; 4]) -> Held<usize> {
        Held {
            head: self.head,
            len: self.len,
            slots,
        }
    }

    fn state(held: Held<usize>) -> Ring
        ensures { result ≡ ring_kept.state held }
    {
        ring::state(held.head, held.len, total::none())
    }
}

impl Kept for Vector {
    type Head = ();

    ghost keeps = { vector_kept };

    fn hold(self, slots: [u32; 4]) -> Held<()> {
        Held {
            head: (),
            len: self.len,
            slots,
        }
    }

    fn state(held: Held<()>) -> Vector
        ensures { result ≡ vector_kept.state held }
    {
        vector::state(held.len, total::none())
    }
}

// A ring and a vector are made apart: as a method of `Kept` a making would have its clause three times, in the trait and in each impl.
fn new_ring() -> Held<usize>
    ensures { (ring_here result).tray ≡ (made ring new free).tray }
{
    let slots = [0u32; 4];
    let made = answers::in_numbers(ring::state(0, 0, total::none()), Ring::new(&slots));
    made.state.hold(slots)
}

fn new_vector() -> Held<()>
    ensures { (vector_here result).tray ≡ (made vector new free).tray }
{
    let slots = [0u32; 4];
    let made = answers::in_numbers(vector::state(0, total::none()), Vector::new(&slots));
    made.state.hold(slots)
}

// The four makings: capacity 4 each, all slots 0, empty.
pub fn start() -> Trays
    ensures { world result ≡ begun }
{
    Trays {
        rings: Both {
            first: new_ring(),
            second: new_ring(),
        },
        vectors: Both {
            first: new_vector(),
            second: new_vector(),
        },
    }
}

// What a call on one container did, with the other as it was.
// Field by field, here and below: a state of another type stands beside the numbers, so `..a` copies none of them.
fn one<C: Kept>(
    given: C,
    told: Result<answers::Answer<C>, Refusal>,
    slots: [u32; 4],
    other: Held<C::Head>,
) -> Numbered<Both<Held<C::Head>, Held<C::Head>>>
    ensures { result ≡ one C.keeps given told slots other }
{
    let a = answers::in_numbers(given, told);
    Numbered {
        number: a.number,
        value: a.value,
        moves: a.moves,
        slot: a.slot,
        state: Both {
            first: a.state.hold(slots),
            second: other,
        },
    }
}

// What one on two did.
fn two<C: Kept>(
    given: Both<C, C>,
    told: Result<answers::Answer<Both<C, C>>, Refusal>,
    slots: [u32; 4],
    theirs: [u32; 4],
) -> Numbered<Both<Held<C::Head>, Held<C::Head>>>
    ensures { result ≡ two C.keeps given told slots theirs }
{
    let a = answers::in_numbers(given, told);
    Numbered {
        number: a.number,
        value: a.value,
        moves: a.moves,
        slot: a.slot,
        state: Both {
            first: a.state.first.hold(slots),
            second: a.state.second.hold(theirs),
        },
    }
}

// An operation on a ring, with the other ring beside it.
pub fn on_ring(
    op: RingOp,
    me: Held<usize>,
    other: Held<usize>,
) -> Numbered<Both<Held<usize>, Held<usize>>>
    ensures { Does ring ring_here (ring_act op) me other result }
{
    let r = Ring::state(me);
    let t = Ring::state(other);
    let both = Both {
        first: r,
        second: t,
    };
    let mut s = me.slots;
    let mut o = other.slots;
    match op {
        RingOp::PushBack(x) => one(r, r.push_back(&mut s, x), s, other),
        RingOp::PushFront(x) => one(r, r.push_front(&mut s, x), s, other),
        RingOp::PopBack => one(r, r.pop_back(&mut s), s, other),
        RingOp::PopFront => one(r, r.pop_front(&mut s), s, other),
        RingOp::Insert(i, x) => one(r, r.insert(&mut s, i, x), s, other),
        RingOp::Remove(i) => one(r, r.remove(&mut s, i), s, other),
        RingOp::Append => two(both, pairs::append(r, &mut s, t, &mut o), s, o),
        RingOp::SplitOff(i) => two(both, pairs::split_off(r, &mut s, i, t, &mut o), s, o),
        RingOp::Truncate(k) => one(r, r.truncate(&mut s, k), s, other),
        RingOp::Resize(k, x) => one(r, r.resize(&mut s, k, x), s, other),
        RingOp::Clear => one(r, r.clear(&mut s), s, other),
        RingOp::Read(i) => one(r, r.read(&s, i), s, other),
        RingOp::Write(i, x) => one(r, r.write(&mut s, i, x), s, other),
    }
}

// An operation on a vector, with the other vector beside it. No twin of `on_ring`: the operations are others.
pub fn on_vector(op: VectorOp, me: Held<()>, other: Held<()>) -> Numbered<Both<Held<()>, Held<()>>>
    ensures { Does vector vector_here (vector_act op) me other result }
{
    let v = Vector::state(me);
    let t = Vector::state(other);
    let both = Both {
        first: v,
        second: t,
    };
    let mut s = me.slots;
    let mut o = other.slots;
    match op {
        VectorOp::Push(x) => one(v, v.push(&mut s, x), s, other),
        VectorOp::Pop => one(v, v.pop(&mut s), s, other),
        VectorOp::Insert(i, x) => one(v, v.insert(&mut s, i, x), s, other),
        VectorOp::Remove(i) => one(v, v.remove(&mut s, i), s, other),
        VectorOp::SwapRemove(i) => one(v, v.swap_remove(&mut s, i), s, other),
        VectorOp::Append => two(both, pairs::append(v, &mut s, t, &mut o), s, o),
        VectorOp::SplitOff(i) => two(both, pairs::split_off(v, &mut s, i, t, &mut o), s, o),
        VectorOp::Truncate(k) => one(v, v.truncate(&mut s, k), s, other),
        VectorOp::Resize(k, x) => one(v, v.resize(&mut s, k, x), s, other),
        VectorOp::Clear => one(v, v.clear(&mut s), s, other),
        VectorOp::Read(i) => one(v, v.read(&s, i), s, other),
        VectorOp::Write(i, x) => one(v, v.write(&mut s, i, x), s, other),
    }
}

// What the line shows of it: a vector's head is 0.
fn shown<C: Kept>(did: Numbered<Both<Held<C::Head>, Held<C::Head>>>) -> Answer
    ensures { result ≡ shown C.reads C.keeps did }
{
    let me = did.state.first;
    let state = C::state(me);
    Answer {
        number: did.number,
        value: did.value,
        moves: did.moves,
        slot: did.slot,
        head: state.head(),
        len: me.len,
    }
}

// The container named, and the other of its kind; and both back in their places.
fn turned<H: Copy>(which: Which, both: Both<H, H>) -> Both<H, H>
    ensures { result ≡ turned which both }
{
    match which {
        Which::First => both,
        Which::Second => Both {
            first: both.second,
            second: both.first,
        },
    }
}

// What a call does to the containers, and what it answers.
#[tactic(auto, using(crate::proofs::Doing::ring_acts, crate::proofs::Doing::vector_acts))]
pub fn act(trays: Trays, call: Call) -> After<Answer>
    ensures { acted_seen result ≡ acts (world trays) call }
{
    match call {
        Call::Ring(which, op) => {
            let both = turned(which, trays.rings);
            let did = on_ring(op, both.first, both.second);
            let rings = turned(which, did.state);
            After {
                trays: Trays { rings, ..trays },
                answer: shown::<Ring>(did),
            }
        }
        Call::Vector(which, op) => {
            let both = turned(which, trays.vectors);
            let did = on_vector(op, both.first, both.second);
            let vectors = turned(which, did.state);
            After {
                trays: Trays { vectors, ..trays },
                answer: shown::<Vector>(did),
            }
        }
    }
}

// The kinds of stored texts. The first byte says them.
ghost use Rattle.stored.specs.First.{Decodes};

// 0 is a ring, 1 a vector.
#[derive(Clone, Copy)]
pub enum Kind {
    Ring,
    Vector,
}

// A number that is no kind's.
#[derive(Clone, Copy)]
pub struct UnknownKind(pub u64);

impl TryFrom<u64> for Kind {
    type Error = UnknownKind;

    ghost try_from_gives = { Decodes };

    fn try_from(number: u64) -> Result<Self, UnknownKind> {
        match number {
            0 => Ok(Kind::Ring),
            1 => Ok(Kind::Vector),
            _ => Err(UnknownKind(number)),
        }
    }
}

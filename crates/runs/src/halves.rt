// A sum by halves. A container has at most 4,096 entries, so both halves of what they add up to come out exactly.
ghost use Rattle.std.specs.Prelude.{◌≡◌, ◌+◌, ◌^◌, ◌<◌};
ghost use Rattle.runs.specs.Halves.{high_half, wrapped, Whole};

// The numbers so far modulo 2 to the 32nd, and their high halves. Both have 32 bits, so LLVM adds four numbers at once where a sum of 64 bits adds two.
#[derive(Clone, Copy)]
pub(crate) struct Halves {
    pub(crate) sum: u32,
    pub(crate) high: u32,
}

impl Halves {
    // Of no numbers.
    pub(crate) fn none() -> Halves
        ensures { (result.sum ≡ 0) × (result.high ≡ 0) }
    {
        Halves { sum: 0, high: 0 }
    }

    // One number more.
    pub(crate) fn with(self, x: u32) -> Halves
        requires { self.high + high_half x < 2 ^ 32 }
        ensures { (result.sum ≡ wrapped (self.sum + x)) × (result.high ≡ self.high + high_half x) }
    {
        Halves {
            sum: self.sum.wrapping_add(x),
            high: self.high + x / 65536,
        }
    }

    // The sum less the high halves' part of it, modulo 2 to the 32nd, and that part.
    pub(crate) fn whole(self) -> u64
        ensures { Whole self.sum self.high result }
    {
        let low = self.sum.wrapping_sub(self.high % 65536 * 65536);
        u64::from(low) + u64::from(self.high) * 65536
    }
}

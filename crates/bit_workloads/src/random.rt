//! Numbers with no pattern.

ghost use Rattle.std.specs.Prelude.{◌<◌};

/// The upper halves of a linear congruential sequence, by Knuth's multiplier for 64 bits.
#[derive(Drop)]
pub struct Random {
    state: u64,
}

impl Random {
    /// The sequence of a seed.
    pub fn new(seed: u32) -> Random {
        let mut random = Random {
            state: u64::from(seed),
        };
        random.half();
        random.half();
        random
    }

    /// The next number of 32 bits.
    pub fn half(&mut self) -> u32 {
        self.state = self
            .state
            .wrapping_mul(6_364_136_223_846_793_005)
            .wrapping_add(1_442_695_040_888_963_407);
        (self.state >> 32) as u32
    }

    /// The next number of 64 bits.
    pub fn whole(&mut self) -> u64 {
        let upper = u64::from(self.half());
        upper << 32 | u64::from(self.half())
    }

    /// The next number below a bound.
    pub fn below(&mut self, bound: u32) -> u32
        requires { 0 < bound }
        ensures { result < bound }
    {
        self.half() % bound
    }

    /// The next place below a bound.
    pub fn place(&mut self, bound: u32) -> usize
        requires { 0 < bound }
        ensures { result < bound }
    {
        self.below(bound) as usize
    }
}

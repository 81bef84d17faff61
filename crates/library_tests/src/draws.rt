//! Pseudorandom numbers, the same in each run.

ghost use Rattle.std.specs.Prelude.{◌<◌};

/// Pseudorandom numbers from a linear congruential generator.
#[derive(Drop)]
pub(crate) struct Draws {
    state: u64,
}

impl Draws {
    /// The numbers that come after this seed.
    pub(crate) fn from_seed(seed: u64) -> Draws {
        Draws { state: seed }
    }

    /// The next number below the bound.
    pub(crate) fn below(&mut self, bound: u64) -> u64
        requires { 0 < bound }
        ensures { result < bound }
    {
        self.state = self
            .state
            .wrapping_mul(6_364_136_223_846_793_005)
            .wrapping_add(1_442_695_040_888_963_407);
        (self.state >> 33) % bound
    }
}

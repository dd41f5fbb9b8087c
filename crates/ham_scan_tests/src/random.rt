//! Numbers that look random, the same in each run.

ghost use Rattle.std.specs.Prelude.{◌<◌};

/// The state of the generator.
#[derive(Clone, Copy)]
pub struct Random {
    seed: u64,
}

impl Random {
    pub(crate) fn of(seed: u64) -> Random {
        Random { seed }
    }

    /// A number below the bound.
    pub(crate) fn below(&mut self, bound: u64) -> u64
        requires { 0 < bound }
        ensures { result < bound }
    {
        // A linear congruential generator with a multiplier of Knuth's; its high bits are the random ones.
        self.seed = self
            .seed
            .wrapping_mul(6_364_136_223_846_793_005)
            .wrapping_add(1_442_695_040_888_963_407);
        (self.seed >> 33) % bound
    }
}

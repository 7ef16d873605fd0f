//! Numbers for letters of tests.
ghost use Rattle.std.specs.Prelude.{◌<◌};

/// Numbers that are drawn one after another, the same in every run. They are those of the generator of Knuth's MMIX.
#[derive(Clone, Copy, Debug)]
pub struct Draws {
    state: u64,
}

impl Draws {
    /// The numbers that this seed gives.
    pub fn new(seed: u64) -> Draws {
        Draws { state: seed }
    }

    /// The next number, which is below the limit.
    pub fn below(&mut self, limit: u64) -> u64
        requires { 0 < limit }
        ensures { result < limit }
    {
        self.state = self
            .state
            .wrapping_mul(6_364_136_223_846_793_005)
            .wrapping_add(1_442_695_040_888_963_407);
        (self.state >> 33) % limit
    }
}

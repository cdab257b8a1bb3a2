//! Numbers at random: a linear congruential generator.

ghost use Rattle.std.specs.Prelude.{◌<◌, ◌≤◌, ◌^◌};

/// The generator's state.
#[derive(Drop)]
pub struct Draw {
    state: u64,
}

impl Draw {
    pub fn new(seed: u64) -> Draw {
        Draw { state: seed }
    }

    fn step(&mut self) -> u64 {
        self.state = self
            .state
            .wrapping_mul(6_364_136_223_846_793_005)
            .wrapping_add(1_442_695_040_888_963_407);
        self.state
    }

    /// A number below this one; 0 for 0.
    pub fn below(&mut self, limit: u64) -> u64
        ensures most { result ≤ limit }
        ensures below { 0 < limit → result < limit }
    {
        let step = self.step() >> 33;
        step.checked_rem(limit).unwrap_or(0)
    }

    /// A count: small, middling, any, or one of the greatest.
    pub fn count(&mut self) -> u64
        ensures { result < 2 ^ 60 }
    {
        match self.below(4) {
            0 => self.below(4),
            1 => self.below(1_000_000),
            2 => self.step() >> 4,
            _ => (1 << 60) - 1 - (self.step() >> 62),
        }
    }
}

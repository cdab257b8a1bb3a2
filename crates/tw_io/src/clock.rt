//! What a clock is: readings to come.

/// A clock of one process. Its unit is one microsecond.
pub trait Clock {
    ghost use Rattle.std.specs.Prelude.{◌≡◌, ◌≢◌, ℕ, List, [], Option, Some, None};
    ghost use Rattle.tw_io.specs.Clock.{first_reading, readings_after};

    /// The readings still to come, where the clock tells them. The last one is answered again from then on.
    ghost to_come: { Self → Option (List ℕ) };

    /// The next reading.
    fn now(&mut self) -> u64
        ensures reading { (readings : List ℕ) → to_come self.old ≡ Some readings → result ≡ first_reading readings }
        ensures after { (readings : List ℕ) → to_come self.old ≡ Some readings → to_come self.new ≡ Some (readings_after readings) }
        ensures untold { to_come self.old ≡ None → to_come self.new ≡ None };

    /// A clock always has a reading to come.
    ghost nonempty: { (clock : Self) → to_come clock ≢ Some [] };
}

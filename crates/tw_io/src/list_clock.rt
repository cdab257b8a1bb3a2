//! A clock over a list of readings.

ghost use Rattle.std.specs.Prelude.{◌<◌, vec_len};

use crate::Clock;
use std::alloc::Global;
use tw_num::WantOfMemory;

/// A clock that answers readings from a list, and tells them. Once the list is spent it answers the last one again.
#[derive(Drop)]
pub struct ListClock {
    readings: Vec<u64>,
    at: usize,
    ghost nonempty: { at < vec_len readings },
}

impl ListClock {
    ghost use Rattle.std.specs.Prelude.{◌≡◌, Some, IfOk};
    ghost use Rattle.tw_io.specs.Clock.{readings_or_zero};

    /// A clock of these readings, or of the one reading 0 where there are none.
    pub fn new(alloc: Global, readings: &[u64]) -> Result<ListClock, WantOfMemory>
        ensures { IfOk result (λ clock. ⟦<ListClock as Clock>⟧.to_come clock ≡ Some (readings_or_zero readings.now)) }
    {
        let told = if readings.is_empty() { &[0] } else { readings };
        Ok(ListClock {
            readings: Vec::from_slice(alloc, told)?,
            at: 0,
        })
    }
}

impl Clock for ListClock {
    ghost use Rattle.std.specs.Prelude.{Some};
    ghost use Rattle.tw_io.specs.Forms.{readings_to_come};
    ghost use Rattle.std.proofs.Common.{arith, length-drop};

    ghost to_come = { λ c. Some (readings_to_come c) };

    ghost nonempty = { λ c none. Prim.grind (arith, c.nonempty, length-drop c.at c.readings.items) };

    fn now(&mut self) -> u64 {
        let reading = self.readings[self.at];
        if self.at + 1 < self.readings.len() {
            self.at += 1;
        }
        reading
    }
}

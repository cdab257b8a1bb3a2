//! The time of day.

ghost use Rattle.std.specs.Prelude.{◌≡◌, ◌/◌, ◌-◌, ◌^◌, min, IfOk, OnErr};
ghost use Rattle.std.specs.Duration.{as_nanos};

use std::time::Duration;
use std::{io, time};
use tw_io::Clock;

/// The system's time of day, in microseconds since 1970. Where the system's clock can't be read or stands before 1970,
/// the reading is 2^64 - 1.
#[derive(Drop)]
pub struct SystemClock<C> {
    system: C,
}

impl<C: time::Clock> SystemClock<C> {
    /// A clock of this handle's system.
    pub fn new(system: C) -> SystemClock<C> {
        SystemClock { system }
    }
}

impl<C: time::Clock> Clock for SystemClock<C> {
    ghost use Rattle.std.specs.Prelude.{None};

    ghost to_come = { λ _. None };

    ghost nonempty = { λ _ some. Prim.cc some };

    fn now(&mut self) -> u64 {
        microseconds(self.system.since_1970())
    }
}

/// The microseconds of this time, or 2^64 - 1 where there is none.
fn microseconds(time: io::Result<Duration>) -> u64
    ensures read { IfOk time (λ t. result ≡ min (as_nanos t / 1000) (2 ^ 64 - 1)) }
    ensures unread { OnErr time (result ≡ 2 ^ 64 - 1) }
{
    match time {
        Ok(time) => u64::try_from(time.as_micros()).unwrap_or(u64::MAX),
        Err(_) => u64::MAX,
    }
}

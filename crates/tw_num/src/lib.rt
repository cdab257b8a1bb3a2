//! Numbers of the time service: how much team time a number of clock ticks may stand for, intervals of team time that
//! age and meet, what a clock tells at one moment, and the error of a call that takes memory.
//!
//! Rules held here: a hardware clock drifts by at most `ppm` parts per million and its readings are rounded to a tick,
//! so elapsed ticks bound elapsed team time from both sides. The unit is one microsecond. The model of clocks is that
//! of Cristian and Fetzer, "The Timed Asynchronous Distributed System Model", 1999.
#![tactic(auto)]

mod elapsed;
mod interval;
mod memory;
mod moment;

pub use elapsed::{down, up};
pub use interval::{Disjoint, Interval};
pub use memory::WantOfMemory;
pub use moment::Moment;

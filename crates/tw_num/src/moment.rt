//! A moment of a process: what its clocks show. It is read once in each event, and handed on.

use crate::Interval;

/// What a process's own clock tells it at one moment.
#[derive(Clone, Copy)]
pub struct Moment {
    /// The reading of its hardware clock, in ticks.
    pub h: u64,
    /// Its reading of team time, in microseconds, where its clock is synchronised.
    pub reading: Option<u64>,
    /// What holds team time, in microseconds, where it knows an interval.
    pub interval: Option<Interval>,
}

//! The clock of one process: an interval that holds team time, and a reading of it, from a hardware clock that drifts.
//!
//! A process is given intervals that held team time at readings of its hardware clock. Each one is aged to the present
//! reading by the bound on the drift, and what all of them share holds team time now. So a clock can be synchronised
//! from outside by references that are rare, late and of unequal width.
//!
//! Rules held here:
//! - The clock answers what the whole list of given intervals would, and keeps one number for each side of it.
//! - There is a reading exactly while the interval is at most `2 * eps` wide. It is the middle, and it never falls.
//! - An interval that shares no number with the others is refused. From then on there is no interval and no reading,
//!   and each later one is refused with the same two intervals.
//!
//! External clock synchronisation by intervals is after Marzullo, "Maintaining the Time in a Distributed System", 1983,
//! and after Cristian and Fetzer, "The Timed Asynchronous Distributed System Model", 1999.
#![tactic(auto)]

mod keys;
mod team_clock;

pub use team_clock::TeamClock;
pub use tw_num::{Disjoint, Interval};

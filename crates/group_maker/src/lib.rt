//! The group that is made of a complete ballot.
//!
//! Rules held here: a group needs reports of a majority of informed processes, and of a majority whose reports go with the best
//! decision, its owner among them; these become its members, ascending. It goes on from the best decision's list, from the
//! position on up to which every member has it. That list is no shorter than the owner's and at most 64 positions ahead of what
//! the owner passed, and the owner has each payload that it lacks. It starts behind the start of that decision, behind every
//! lease that a report names, and behind every reading: no earlier group is believed in by then.
//!
//! Groups as majorities follow Mishra, Fetzer and Cristian's Timewheel in outline. Which reports go with a decision, the lease
//! and the start are this project's own.
#![tactic(auto)]

mod list;
mod making;
mod members;
mod start;

pub use making::{Made, make_group};

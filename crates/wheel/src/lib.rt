//! Slots of team time, who owns a group's number, the ring of a group's members, and which numbers a process may promise.
//!
//! Rules held here: each number of a group has one owner; a number is promised only near the present slot, and only above
//! what was promised before; the decider rotates over the ring of seats; when it is suspected, and when a process is stuck.
//!
//! The ring of members and its decider follow Mishra, Fetzer and Cristian's Timewheel in outline. Numbers by slots and the
//! window of what may be promised are this project's own.
#![tactic(auto)]

mod promises;
mod ring;
mod slots;

pub use promises::{BallotFault, ElectFault, may_promise};
pub use ring::{after, after_but, seat_after, stuck, suspect};
pub use slots::{next_owned, owner, slot_of};

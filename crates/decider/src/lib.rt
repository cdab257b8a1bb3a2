//! The rotating decider: whose turn it is to make a group's next decision, what that decision is, and the first checks of a
//! decision that is received.
//!
//! Rules held here: a next decision is due to the member after the last one's maker; its maker supports it; the window loses
//! what every member has; a decision is taken only above the last one, with a seat in it, and of the promised group.
//!
//! The decider that rotates over the members follows Mishra, Fetzer and Cristian's Timewheel in outline. The exact rules are
//! this project's own.
#![tactic(auto)]

mod making;
mod taking;

pub use making::{due, finish, next_draft};
pub use taking::{Path, TakeFault, first_check};

//! The list of updates of a process, as far as it keeps it: the ordering and acknowledgement list.
//!
//! Rules held here: which decisions go on a list; that a list grows by the entries of a decision's window, each with the
//! payload that is found for it; that the last 64 entries are kept, among them each one that isn't passed.
//!
//! A list of ordered updates with what each member acknowledged of it is that of Mishra, Fetzer and Cristian's Timewheel in
//! outline. The exact rules are this project's own.
#![tactic(auto)]

mod list;

pub use list::{ExtendFault, Oal};

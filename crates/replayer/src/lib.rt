//! The command `replay`: a schedule is read line by line, and one row is written for each step before the next line is read.
//!
//! Rules held here: which line ends a text and for which cause; which rows are written with which status.
#![tactic(auto)]

mod command;
mod row_room;
mod steps;

pub use command::replay;

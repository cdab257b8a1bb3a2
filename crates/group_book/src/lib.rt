//! Reports, and the ballots in which they are collected.
//!
//! A process that promises a number reports what it has, and gives its last decision along. The owner of the number collects
//! these promises in a ballot, to make a group of them.
//!
//! Rules held here: which report is the best one; which reports go with the best decision; how a ballot begins with its
//! owner's own promise and grows by others, or by what went round a ring; that its decision is the greatest of those that came.
//!
//! Groups that are made of reports of a majority are those of Timewheel in outline (Mishra, Fetzer and Cristian, "The
//! Timewheel Group Communication System", 2002). What goes with a decision is a rule of this project.
#![tactic(auto)]

mod ballots;
mod reports;

pub use ballots::{add, add_round, begin};
pub use reports::{best, consistent};
pub use tw_types::Ballot;

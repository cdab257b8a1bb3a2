//! A node: one process that runs over a clock and a link, and writes a record of all that it does.
//!
//! Rules held here: what a turn takes and gives, and in which order; that an event's record is written before its datagrams are sent;
//! what a client is answered; how a run ends.
#![tactic(auto)]

mod event;
mod node;
mod process;
mod sending;
mod spool;
mod text;

//! What updates are applied to: a machine that each process has, and the machine of today, a small table.
//!
//! Rules held here: a machine's content after a payload, and its answer, follow from its content before and the payload, and
//! from nothing else, so processes that apply the same payloads in the same order have the same content; a table has at most
//! 256 keys, and each payload puts a value, removes a key, or changes nothing.
//!
//! That processes agree by applying the same commands in the same order to machines alike is the state machine approach of
//! Lamport, "Time, Clocks, and the Ordering of Events in a Distributed System", 1978, and of Schneider, "Implementing
//! Fault-Tolerant Services Using the State Machine Approach", 1990. The table is this project's own.
#![tactic(auto)]

mod laws;
mod machine;
mod snapshot;
mod table;

pub use laws::{
    answers_have_their_causes, commands_have_payloads, one_payload_more,
    snapshots_are_of_one_table, snapshots_go_on, tables_are_maps,
};
pub use machine::{Applied, BadSnapshot, Machine};
pub use table::Table;

//! The ring of one failure: an election that goes round the members of a group whose next decider is silent.
//!
//! A decider that makes no decision in time is suspected by the others. The member after it begins a ballot of a number of its own and
//! sends its report to the next one; each that is willing promises the number, adds its report and hands all of them on, so that they
//! come back to the first, and one round is an election. One process is left out, the silent one.
//!
//! Rules held here: who begins a ring, and with which number; who promises in answer, why another doesn't, the first reason that
//! holds, and to whom what is handed on goes; when a ring has come round.
//!
//! The ring of a group that lost one decider follows Mishra, Fetzer and Cristian's Timewheel in outline. The number, the reports and
//! the answer are rules of this project.
#![tactic(auto)]

mod answering;
mod beginning;

pub use answering::answer_ring;
pub use beginning::{begin_ring, ring_complete};

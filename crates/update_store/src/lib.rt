//! Updates that wait at a process, and a decision that waits there for payloads.
//!
//! Rules held here: which updates are kept pending, and in which order they wait; what becomes of an update that comes; which
//! payloads are kept with a held decision, and which of its updates are holes; where the payload of an update is found.
//!
//! All memory is taken as a store is made.
#![tactic(auto)]

mod kept;
mod pending;
mod putting;
mod store;

pub use putting::Put;
pub use store::Store;

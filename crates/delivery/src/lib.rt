//! What a process delivers next of its list of updates.
//!
//! Rules held here: when a position fulfils an atomicity, as a decision tells; that the cursor moves over what is late or
//! fulfilled, and how each position passes; which unordered updates are delivered before their positions are passed.
//!
//! Deliveries in three orders with three atomicities are those of Mishra, Fetzer and Cristian's Timewheel in outline. The exact
//! rules are this project's own.
#![tactic(auto)]

mod atomicity;
mod laws;
mod next;

pub use atomicity::fulfils;
pub use laws::{atomicities_nest, deliveries_in_turn, early_behind_strict, runs_are_longest};
pub use next::{next_early, next_pass};

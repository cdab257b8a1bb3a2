//! Datagrams as bytes.
//!
//! Rules held here: what a body's fields may be; a datagram ends with its last field. Each datagram has one spelling, and
//! no other bytes are read as it.
#![tactic(auto)]

mod decisions;
mod entries;
mod items;
mod reading;
mod votes;
mod writing;

pub use reading::{blank, read, read_into};
pub use tw_types::WireFault;
pub use writing::write;

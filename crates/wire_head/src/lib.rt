//! The head of a datagram, and the fields that heads and bodies are made of.
//!
//! Rules held here: numbers are spelled with their highest byte first; what is absent is spelled as zeros; a reader goes
//! from left to right and answers the first fault that it meets.
#![tactic(auto)]

mod head;
pub mod reading;
pub mod writing;

pub use head::{read_head, write_head};

//! The clock and the socket of a real system. Nothing here tells what is to come or what was sent: what a system does,
//! no clause says.
//!
//! Rules held here:
//! - An error of the system is counted where it is told: one of `send` among the losses, each other among the faults.
//! - A link that isn't bound fails. A call that fails leaves it bound as it was.
//! - A clock that can't be read reads 2^64 - 1. A false reading is worse than none.
#![tactic(auto)]

mod clock;
mod link;

pub use clock::SystemClock;
pub use link::UdpLink;

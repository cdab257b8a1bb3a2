//! How long a received packet was on its way, at most: detected lateness.
//!
//! No process knows another's clock, and none knows how long a packet took. But the receiver can tell bounds of it, and a
//! packet whose least bound is at most the time-out was timely for sure. There are two bounds:
//! - The echo bound is of a round trip. The sender had heard the receiver at its own reading `b`, of a datagram that the
//!   receiver had sent at its reading `a`. So the packet took at most what the receiver's clock says of the whole trip, less
//!   what the sender's clock says of its wait.
//! - The interval bound is the upper end of the receiver's interval of team time, less the lower end of the sender's.
//!
//! Rules held here: which bounds a packet has; that it is rated by the lesser of them against the team's time-out, and not
//! at all where it has none; and that a bound is never below the true delay.
//!
//! The idea is that of the fail-aware datagram service of Fetzer and Cristian, 1997, and of "The Timed Asynchronous
//! Distributed System Model", 1999.
#![tactic(auto)]

mod laws;
mod rating;

pub use laws::bounds_cover_the_delay;
pub use rating::{Rating, echo_bound, rate};

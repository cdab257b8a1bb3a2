//! The outside of the group-communication service: where bytes come from and go to, what the time is, and how
//! datagrams travel. Each is a trait, so that one program runs over memory and over a real system.
//!
//! Rules held here:
//! - A source, a sink and a link each have a count of faults that never falls. A call fails only where the count rose
//!   in that call. A link counts its lost sends apart from its other faults.
//! - What an object tells of itself (bytes left, bytes taken, readings to come, where a link was bound, what was sent on
//!   it, what is to arrive) is optional, and exact where it is told. Each call changes its own part of it alone, and a
//!   call that fails changes none, but that a failed send still counts among the send calls.
//!
//! The forms in memory take all their memory when they are made. The forms over standard input and output tell no
//! content.
#![tactic(auto)]

mod addr;
mod arrivals;
mod bytes_in;
mod bytes_out;
mod clock;
mod failing;
mod line_reader;
mod link;
mod list_clock;
mod list_link;
mod outbox;
mod put;
mod sink;
mod source;
mod standard;
mod steady;
mod unread;

pub use addr::{Addr, Came};
pub use bytes_in::BytesIn;
pub use bytes_out::BytesOut;
pub use clock::Clock;
pub use line_reader::{Line, LineReader};
pub use link::{Link, LinkFailed};
pub use list_clock::ListClock;
pub use list_link::ListLink;
pub use sink::{Sink, WriteFailed};
pub use source::{ReadFailed, Source};
pub use standard::{StandardInput, StandardOutput};
pub use steady::{SteadyIn, SteadyLink, SteadyOut};

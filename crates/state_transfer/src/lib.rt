//! A snapshot goes over the wire in pieces, and is put together again.
//!
//! Rules held here: how a snapshot is cut into pieces of 1,024 bytes; which pieces join one collection, that of one sender, one position
//! and one total; when a collection is whole, and which bytes it has then; that pieces of another group, or of a longer list than the
//! one that is followed, change nothing.
//!
//! State transfer to a process that lost its memory is after Mishra, Fetzer and Cristian's Timewheel in outline; the pieces are this
//! project's own.
#![tactic(auto)]

mod incoming;
mod laws;
mod serving;

pub use incoming::{Incoming, Take};
pub use laws::pieces_make_their_snapshot;
pub use serving::serve_chunk;

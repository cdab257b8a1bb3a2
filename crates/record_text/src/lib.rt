//! The text of a node: its record is written, and the lines of its text and of its clients are read.
//!
//! Rules held here: an event's record is its input, what its row tells without the datagrams, and the bytes of each datagram; an
//! address has four numbers below 256 and a port above 0; a client's line is a send, a look, a stop, or unknown; a snapshot shows
//! the entries that it begins with, or none.
#![tactic(auto)]

mod client;
mod input;
mod node_line;
mod packet;
mod record;
mod shown;

pub use client::{Request, read_request, request_line};
pub use input::Input;
pub use node_line::{read_clock, read_peer};
pub use packet::{Packet, spelled_datagrams_are_read};
pub use record::{write_event, write_look, write_start};
pub use schedule_text::{Grammar, write_answer};
pub use shown::{show_entries, snapshots_show_their_entries};

//! The types that the whole service shares, and the conditions on them.
//!
//! Rules held here: which numbers a team may have; the one list of bytes that spells each datagram, and which datagrams
//! have a spelling.
#![tactic(auto)]

mod answer;
mod ballot;
mod copies;
mod datagram;
mod listed;
mod message;
mod outputs;
mod payloads;
mod row;
mod step;
mod team;

pub use answer::{Answer, ProposeFault, Reason};
pub use ballot::Ballot;
pub use datagram::{Body, Datagram, Echo, Head, Want, Why, WireFault};
pub use listed::Listed;
pub use message::{
    Atom, Decision, Entry, Kept, Kind, Member, Order, Report, Seat, Support, TimeMark, UpdateId,
};
pub use outputs::{Earlies, How, Mode, Outputs, Pass, Passes, Sends, View};
pub use payloads::Payloads;
pub use row::{Row, RowAnswer, RowLine};
pub use step::{Act, Cause, Step};
pub use team::{Team, TeamFault, maj};

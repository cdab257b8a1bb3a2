//! How a process answers an event or a send.

use crate::datagram::WireFault;
use crate::message::UpdateId;

/// Why an event is dropped.
#[derive(Clone, Copy, Debug)]
pub enum Reason {
    /// The bytes are no datagram that is taken.
    Wire(WireFault),
    /// The sender is no other process of the team, or the receiver is another.
    Stranger,
    /// The given interval shares no number with the process's own.
    Disjoint,
    /// Nothing bounds how long the datagram was under way.
    Unrated,
    /// The datagram may have been under way for so long, in microseconds, which is too long.
    Late(u64),
    /// The clock has no reading.
    Unsynced,
    /// What it tells is known already.
    Old,
    /// It isn't of a member of the group.
    NotMember,
    /// The process promised this number, which isn't below.
    Promised(u64),
    /// The process was restarted too short a time ago.
    Quarantine,
    /// The number is too far from the slot, or the sender doesn't own it.
    OutOfWindow,
    /// The process sees no reason for an election.
    Unwilling,
    /// The window doesn't reach the end of the process's list.
    Gap,
    /// The list would be too far ahead of what was passed.
    Behind,
    /// The payload of this update is missing.
    Missing(UpdateId),
    /// The content is of another group, or isn't wanted.
    Foreign,
    /// What is asked for isn't there.
    NotHeld,
}

/// Why a send of an update is refused.
#[derive(Clone, Copy)]
pub enum ProposeFault {
    /// The payload has more than 128 bytes.
    TooLong,
    /// The process isn't up to date, or isn't a member of its group.
    NotUpToDate,
    /// Eight updates of the process wait for their order.
    Full,
    /// The process has no number left for an update.
    Spent,
}

/// How an event ended.
#[derive(Clone, Copy, Debug)]
pub enum Answer {
    Done,
    Dropped(Reason),
}

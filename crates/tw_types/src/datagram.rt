//! Datagrams: a head that is the same for all, and a body of one of eight kinds.

use crate::message::{Decision, Kept, Report, UpdateId};
use arrayvec::ArrayVec;
use std::error::Error;
use std::fmt;
use tw_num::Interval;

/// What the sender of a datagram last heard from its receiver: for the receiver, a bound on how long the way takes.
#[derive(Clone, Copy, Debug, PartialEq, Eq)]
pub struct Echo {
    /// The `sent` of the datagram that the sender heard, a reading of the receiver's hardware clock.
    pub a: u64,
    /// When it heard it, a reading of the sender's hardware clock.
    pub b: u64,
}

/// The head of a datagram.
#[derive(Clone, Copy, Debug, PartialEq, Eq)]
pub struct Head {
    /// The process that sent it.
    pub from: u8,
    /// The process that it is sent to.
    pub to: u8,
    /// The sender's incarnation, a reading of its hardware clock, below 2^60.
    pub incarnation: u64,
    /// The sender's hardware clock when it sent this, below 2^60.
    pub sent: u64,
    /// The interval of team time that the sender knew at `sent`, in microseconds below 2^61.
    pub interval: Option<Interval>,
    pub echo: Option<Echo>,
}

/// Why an election is held.
#[derive(Clone, Copy, Debug, PartialEq, Eq)]
pub enum Why {
    /// No decision came for long.
    Stuck,
    /// A process asked to join the group of this number.
    Join(u64),
}

/// What is asked for.
#[derive(Clone, Copy, Debug, PartialEq, Eq)]
pub enum Want {
    /// The payload of an update.
    Update(UpdateId),
    /// The application's content, of a member of the group of this number.
    Table(u64),
}

/// What a datagram says.
#[derive(Debug, PartialEq, Eq, Drop)]
pub enum Body {
    /// An update and its payload. It isn't early and its entry isn't late.
    Update(Kept),
    /// A decision of a group.
    Decision(Decision),
    /// The decider is suspected: the round of an election over the ring of members.
    NoDecision {
        /// The number of the group that is to be made.
        number: u64,
        /// The group and turn of the starter's last decision.
        group: u64,
        turn: u64,
        /// The process that is suspected.
        skip: u8,
        /// What the members said so far.
        reports: ArrayVec<Report, 15>,
        /// The decision of the greatest group and turn among them.
        best: Decision,
    },
    /// An election is held in a slot.
    Election {
        number: u64,
        why: Why,
    },
    /// The answer to an election: the sender promises to follow no lesser number.
    Promise {
        number: u64,
        report: Report,
        /// The sender's last decision, where it is informed and has one.
        decision: Option<Decision>,
    },
    Ask(Want),
    /// A piece of the application's content.
    State {
        /// The sender's group.
        group: u64,
        /// How many updates of the list the content has in it.
        position: u64,
        /// The length of the whole content, in bytes, 1 to 4,096.
        total: u16,
        /// Where in it this piece begins, a multiple of 1,024.
        offset: u16,
        /// The lesser of 1,024 and what is left of the content.
        bytes: ArrayVec<u8, 1024>,
    },
    /// A sign of life, with the group, turn and length of a process that is ready to join.
    Sync {
        ready: Option<(u64, u64, u64)>,
    },
}

/// What one process sends to another.
#[derive(Debug, PartialEq, Eq, Drop)]
pub struct Datagram {
    pub head: Head,
    pub body: Body,
}

/// Why bytes are no datagram: the first fault from left to right.
#[derive(Clone, Copy, Debug, PartialEq, Eq)]
pub enum WireFault {
    /// The bytes end within a field.
    Short,
    /// Bytes follow the last field.
    Long,
    /// The version isn't 1.
    Version,
    /// The line isn't that of the team.
    Line,
    /// The kind isn't known.
    Kind,
    /// Another field has a value that isn't allowed. The number is the place of its first byte, from 0.
    Field(u16),
}

impl fmt::Display for WireFault {
    fn fmt<W: fmt::Write>(&self, f: &mut fmt::Formatter<W>) -> fmt::Result {
        match self {
            WireFault::Short => f.write_str("the datagram is too short"),
            WireFault::Long => f.write_str("the datagram is too long"),
            WireFault::Version => f.write_str("unknown version"),
            WireFault::Line => f.write_str("of another team line"),
            WireFault::Kind => f.write_str("unknown kind"),
            WireFault::Field(place) => write!(f, "a value that isn't allowed at byte {place}"),
        }
    }
}

impl Error for WireFault {}

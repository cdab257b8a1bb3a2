//! What datagrams speak of: members, updates, decisions and reports.

use arrayvec::ArrayVec;

/// A process in one of its lives.
#[derive(Clone, Copy, Debug, Default, PartialEq, Eq)]
pub struct Member {
    /// The process, 0 to `n - 1`.
    pub who: u8,
    /// The reading of its hardware clock at the start of this life, in ticks, below 2^60.
    pub incarnation: u64,
}

/// The name of an update: who sent it, in which life, and the how many-th of that life it is.
#[derive(Clone, Copy, Debug, Default, PartialEq, Eq)]
pub struct UpdateId {
    /// The process that sent it.
    pub who: u8,
    /// That process's incarnation then.
    pub incarnation: u64,
    /// Counted from 1, at most 4,294,967,294.
    pub seq: u32,
}

/// How the deliveries of an update are ordered at different members.
#[derive(Clone, Copy, Debug, Default, PartialEq, Eq)]
pub enum Order {
    /// In any order.
    #[default]
    Unordered,
    /// In one order at all members.
    Total,
    /// In one order at all members, that of the updates' stamps.
    Timed,
}

/// How many members must have an update before one delivers it.
#[derive(Clone, Copy, Debug, Default, PartialEq, Eq)]
pub enum Atom {
    /// The member itself.
    #[default]
    Weak,
    /// A majority of the team.
    Strong,
    /// All members of the group.
    Strict,
}

/// An update without its payload, as it stands in the list that a group's members deliver.
#[derive(Clone, Copy, Debug, Default, PartialEq, Eq)]
pub struct Entry {
    pub id: UpdateId,
    pub order: Order,
    pub atom: Atom,
    /// The sender's reading of team time when it sent the update, in microseconds, below 2^60.
    pub stamp: u64,
    /// A timed update that was ordered behind one with a later stamp. Only timed entries are late.
    pub late: bool,
}

/// An update with its payload.
#[derive(Debug, PartialEq, Eq, Drop)]
pub struct Kept {
    pub entry: Entry,
    /// It was delivered before its place in the list was known or reached.
    pub early: bool,
    /// The bytes that the sender gave, at most 128.
    pub payload: ArrayVec<u8, 128>,
}

/// What a member says of itself in a decision that it made.
#[derive(Clone, Copy, Debug, Default, PartialEq, Eq)]
pub struct Support {
    /// How many updates of the list it has.
    pub ack: u64,
    /// Its reading of team time then, in microseconds.
    pub at: u64,
}

/// A member of a group.
#[derive(Clone, Copy, Debug, Default, PartialEq, Eq)]
pub struct Seat {
    pub member: Member,
    /// The seq of this member's next update to be ordered, at least 1.
    pub next: u32,
    /// What it last said of itself. None until it made a decision of this group.
    pub support: Option<Support>,
}

/// The timed update that was ordered in time last. Marks are compared by stamp, then who, then seq.
#[derive(Clone, Copy, Debug, Default, PartialEq, Eq, PartialOrd, Ord)]
pub struct TimeMark {
    pub stamp: u64,
    pub who: u8,
    pub seq: u32,
}

/// A decision of a group: who its members are, and the end of the list of updates that they deliver.
#[derive(Debug, Default, PartialEq, Eq, Drop)]
pub struct Decision {
    /// The group's number, at least 1.
    pub group: u64,
    /// Counted from 0 in each group.
    pub turn: u64,
    /// The maker's reading of team time when it made this, in microseconds; also the `at` of its own support.
    pub made: u64,
    /// No member believes in this group before this team time, in microseconds, below 2^61.
    pub start: u64,
    /// The position of the window's first entry in the list.
    pub low: u64,
    /// The greatest mark among the timed entries of the list that aren't late.
    pub mark: TimeMark,
    /// The group's members, ascending by `who`: a majority of the team at least.
    pub seats: ArrayVec<Seat, 15>,
    /// The process that made this.
    pub maker: u8,
    /// The entries at positions from `low` on, up to the end of the list.
    pub window: ArrayVec<Entry, 32>,
}

/// What a process that reports is.
#[derive(Clone, Copy, Debug, Default, PartialEq, Eq)]
pub enum Kind {
    /// It has the list of updates, whole.
    #[default]
    Informed,
    /// It lost its memory and has been given what it needs to follow.
    Ready,
}

/// What a process tells of itself in an election.
#[derive(Clone, Copy, Debug, Default, PartialEq, Eq)]
pub struct Report {
    pub member: Member,
    pub kind: Kind,
    /// The group of the decision that it holds or follows, 0 for none.
    pub group: u64,
    /// That decision's turn.
    pub turn: u64,
    /// How many updates of the list it has.
    pub length: u64,
    /// Its last support's reading, in microseconds of team time. None if it gave none.
    pub support: Option<u64>,
    /// Its reading of team time now, in microseconds.
    pub reading: u64,
}

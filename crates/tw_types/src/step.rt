//! The steps that a schedule is made of, and why one can't be taken.

use crate::message::{Atom, Order};
use arrayvec::ArrayVec;

/// What a step of a schedule does.
#[derive(PartialEq, Eq, Drop)]
pub enum Act {
    /// The process starts for the first time.
    First,
    /// The process starts again, with its memory lost.
    Again,
    /// The process stops and loses its memory.
    Crash,
    /// Time passed at the process.
    Tick,
    /// The process receives the datagram of this number, counted from 1 over the whole schedule.
    Recv(u32),
    /// The process sends an update. A line may hold more bytes than an update may have.
    Send {
        order: Order,
        atom: Atom,
        payload: ArrayVec<u8, 1024>,
    },
    /// The process is given an interval that holds team time, in microseconds below 2^60, `lo` at most `hi`.
    Reference {
        lo: u64,
        hi: u64,
    },
    /// The process is asked what it says.
    Look,
}

/// One step of a schedule: at team time `t`, in microseconds below 2^60, process `who`, whose hardware clock reads `h`
/// ticks, below 2^60, acts.
#[derive(Drop)]
pub struct Step {
    pub t: u64,
    pub who: u8,
    pub h: u64,
    pub act: Act,
}

/// Why a line of a schedule can't be taken, in the order in which the causes are looked for.
#[derive(Clone, Copy, Debug)]
pub enum Cause {
    /// The line isn't of the schedule's form.
    Grammar,
    /// The team time falls.
    Time,
    /// The clock drifts by more than the team allows, against an earlier reading of the same process.
    Drift,
    /// A start of a process that runs, or that doesn't read above each of its earlier readings, or a second first start.
    Start,
    /// The process isn't running.
    NotRunning,
    /// The datagram wasn't sent yet, or went to another process.
    NoDatagram,
    /// The interval doesn't hold the team time of its step.
    Reference,
}

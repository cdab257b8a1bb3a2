//! What an event of a process gives beside its answer, and what a process says of itself.

use crate::datagram::Datagram;
use crate::listed::Listed;
use crate::message::{Decision, Kept};
use std::alloc::Global;
use tw_num::WantOfMemory;

/// How a position of the list is passed.
#[derive(Clone, Copy, Debug)]
pub enum How {
    /// It is delivered now.
    Now,
    /// It was delivered early, before its position was reached.
    Earlier,
    /// It is late, and delivered nowhere.
    Late,
}

/// A position of the list that was passed, with the update that stands there.
#[derive(Drop)]
pub struct Pass {
    /// Counted from 0.
    pub position: u64,
    pub kept: Kept,
    pub how: How,
}

/// How a process is started.
#[derive(Clone, Copy)]
pub enum Mode {
    /// For the first time: it knows of no group since there was none.
    First,
    /// After a crash: it lost its memory.
    Again,
}

/// What a process says of itself.
#[derive(Clone, Copy)]
pub struct View {
    /// The reading of its hardware clock at the start of this life, in ticks.
    pub incarnation: u64,
    /// Its reading of team time, in microseconds, where its clock is synchronised.
    pub reading: Option<u64>,
    /// It may believe its group at that reading.
    pub up: bool,
    /// The group and turn of its last decision, 0 and 0 for none.
    pub group: u64,
    pub turn: u64,
    /// How many updates of the list it has, and how many of them it passed.
    pub length: u64,
    pub passed: u64,
}

/// Datagrams, each with the process that it is for, in the order in which they are sent.
pub type Sends = Listed<(u8, Datagram), 64>;

/// Positions in the order in which they were passed.
pub type Passes = Listed<Pass, 64>;

/// Updates in the order in which they were delivered early.
pub type Earlies = Listed<Kept, 192>;

/// What an event of a process gives: the decision that it made, the datagrams that it sends, and its deliveries.
#[derive(Drop)]
pub struct Outputs {
    pub made: Option<Decision>,
    pub sends: Sends,
    pub passes: Passes,
    pub earlies: Earlies,
}

impl Outputs {
    ghost use Rattle.std.specs.Prelude.{◌≡◌, IfOk};
    ghost use Rattle.tw_types.specs.Outputs.{nothing};

    /// Nothing, with room for all that one event may give.
    pub fn new(alloc: Global) -> Result<Outputs, WantOfMemory>
        ensures { IfOk result (λ out. out ≡ nothing) }
    {
        Ok(Outputs {
            made: None,
            sends: Listed::new(alloc)?,
            passes: Listed::new(alloc)?,
            earlies: Listed::new(alloc)?,
        })
    }

    /// Takes all out. The room stays.
    pub fn clear(&mut self)
        ensures { self.new ≡ nothing }
    {
        self.made = None;
        self.sends.clear();
        self.passes.clear();
        self.earlies.clear();
    }
}

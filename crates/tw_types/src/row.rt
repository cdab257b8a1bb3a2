//! The row of a step: what is printed of it.

use crate::answer::{ProposeFault, Reason};
use crate::outputs::Outputs;
use arrayvec::ArrayVec;
use std::alloc::Global;
use std::marker::Model;
use std::mem;
use tw_num::WantOfMemory;

/// How a step ended.
#[derive(Clone, Copy)]
pub enum RowAnswer {
    /// A start.
    Start,
    /// A crash.
    Crash,
    /// A look.
    Look,
    /// An event that was taken.
    Done,
    /// A send that was taken, with the number of its update.
    Sent(u32),
    /// A send that was refused.
    Refused(ProposeFault),
    /// An event that was dropped.
    Dropped(Reason),
}

/// The first line of a row.
#[derive(Clone, Copy)]
pub struct RowLine {
    /// The number of the step, counted from 1.
    pub step: u32,
    pub who: u8,
    /// The reading of the process's hardware clock at the start of this life, in ticks; for a crash, of the life that ended.
    pub incarnation: u64,
    /// The process's reading of team time after the step, in microseconds, where its clock is synchronised.
    pub reading: Option<u64>,
    /// The process may believe its group at that reading.
    pub up: bool,
    /// The group and turn of its last decision, 0 and 0 for none.
    pub group: u64,
    pub turn: u64,
    /// How many updates of the list the process has, and how many of them it passed.
    pub length: u64,
    pub passed: u64,
    pub answer: RowAnswer,
}

/// What is printed of a step. Contracts see it as just that.
#[derive(Drop)]
pub struct Row {
    pub line: RowLine,
    /// What the step gave.
    pub out: Outputs,
    /// The number of the first datagram in `out.sends`, counted from 1 over the whole schedule.
    pub first: u32,
    /// The table, in ascending order of keys, where the step shows it.
    pub entries: ArrayVec<(u32, u64), 256>,
}

impl Model for Row {
    ghost use Rattle.tw_types.specs.Row.{Row as Printed};

    ghost Value = { Printed };

    ghost use Rattle.tw_types.specs.Printed.{row_printed};

    ghost view = { λ r. row_printed r.line r.out r.first r.entries.items };
}

impl Row {
    ghost use Rattle.std.specs.Prelude.{◌≡◌, ◌≤◌, length, IfOk};
    ghost use Rattle.tw_types.specs.Printed.{blank, row_printed};

    /// A row of nothing, with room for what a step may give.
    pub fn new(alloc: Global) -> Result<Row, WantOfMemory>
        ensures { IfOk result (λ r. r ≡ blank) }
    {
        Ok(Row {
            line: RowLine {
                step: 0,
                who: 0,
                incarnation: 0,
                reading: None,
                up: false,
                group: 0,
                turn: 0,
                length: 0,
                passed: 0,
                answer: RowAnswer::Done,
            },
            out: Outputs::new(alloc)?,
            first: 1,
            entries: ArrayVec::new(),
        })
    }

    /// Makes this the row of a step that gave `out` and shows these entries of a table. `first` is the number of the first datagram
    /// that the step sent. The outputs that the row had before are handed back in `out`.
    pub fn fill(&mut self, line: RowLine, out: &mut Outputs, first: u32, entries: &[(u32, u64)])
        requires { length entries.now ≤ 256 }
        ensures { self.new ≡ row_printed line out.old first entries.now }
    {
        self.line = line;
        mem::swap(&mut self.out, out);
        self.first = first;
        self.entries.clear();
        let _ = self.entries.try_extend_from_slice(entries);
    }
}

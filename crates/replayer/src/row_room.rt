//! The text of one row, in room that is taken once: a row is spelled there, and goes to a sink as a whole.

ghost use Rattle.std.specs.Prelude.{◌≡◌, ◌≤◌, ◌++◌, ℕ, List, Some, take, vec_len, OnOk, OnErr};
ghost use Rattle.tw_io.specs.Faults.{IsRisen};
ghost use Rattle.tw_machine.specs.RowText.{row_text};

use schedule_text::{write_all, write_row};
use std::alloc::Global;
use tw_io::{Sink, WriteFailed};
use tw_num::WantOfMemory;
use tw_types::Row;

/// The bytes of a row's text that are written at once. No row that is usual is longer: one of 256 entries and 64 sends fits.
const ROOM: usize = 65_536;

/// What was written since the room was cleared. A piece that doesn't fit fails.
#[derive(Drop)]
pub struct RowRoom {
    room: Vec<u8>,
    len: usize,
    faults: u64,
    ghost within: { len ≤ vec_len room },
}

impl RowRoom {
    ghost use Rattle.std.specs.Prelude.{[]};
    ghost use Rattle.replayer.specs.RowRoom.{kept};

    /// Room for a row's text.
    pub fn new(alloc: Global) -> Result<RowRoom, WantOfMemory> {
        Ok(RowRoom {
            room: vec![in alloc; 0; ROOM]?,
            len: 0,
            faults: 0,
        })
    }

    /// Forgets what was written.
    fn clear(&mut self)
        ensures { kept self.new ≡ [] }
    {
        self.len = 0;
    }

    /// What was written.
    fn bytes(&self) -> &[u8]
        ensures { result.now ≡ kept self.now }
    {
        &self.room[..self.len]
    }
}

impl Sink for RowRoom {
    ghost use Rattle.replayer.specs.RowRoom.{kept};

    ghost taken = { λ s. Some (kept s) };

    ghost faults = { λ s. s.faults };

    fn write(&mut self, piece: &[u8]) -> Result<usize, WriteFailed> {
        let count = piece.len();
        if self.room.len() - self.len < count {
            self.faults = self.faults.saturating_add(1);
            return Err(WriteFailed);
        }
        self.room[self.len..self.len + count].copy_from_slice(piece);
        self.len += count;
        Ok(count)
    }
}

/// Writes a row's text: in one call of the sink where it fits the room, and in several where it doesn't. An `Err` leaves a front of
/// the text written.
pub fn put_row<K: Sink>(row: &Row, room: &mut RowRoom, sink: &mut K) -> Result<(), WriteFailed>
    ensures written { OnOk result ((before : List ℕ) → K.taken sink.old ≡ Some before → K.taken sink.new ≡ Some (before ++ row_text row.now)) }
    ensures cut { OnErr result ((before : List ℕ) → K.taken sink.old ≡ Some before → (n : ℕ) × (K.taken sink.new ≡ Some (before ++ take n (row_text row.now)))) }
    ensures monotone { K.faults sink.old ≤ K.faults sink.new }
    ensures fault { OnErr result (IsRisen (K.faults sink.old) (K.faults sink.new)) }
{
    room.clear();
    match write_row(row, room) {
        Ok(()) => write_all(sink, room.bytes()),
        Err(_) => write_row(row, sink),
    }
}

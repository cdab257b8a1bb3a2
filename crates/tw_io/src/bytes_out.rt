//! A sink into memory, with a room, of which chosen calls fail.

ghost use Rattle.std.specs.Prelude.{◌≤◌, vec_len};

use crate::failing::Failing;
use crate::{Sink, WriteFailed};
use std::alloc::Global;
use tw_num::WantOfMemory;

/// A sink into memory with room for so many bytes. It tells the bytes taken.
#[derive(Drop)]
pub struct BytesOut {
    room: Vec<u8>,
    len: usize,
    failing: Failing,
    ghost within: { len ≤ vec_len room },
}

impl BytesOut {
    ghost use Rattle.std.specs.Prelude.{◌≡◌, [], Some, IfOk};
    ghost use Rattle.tw_io.specs.BytesOut.{plan, room_left};

    /// A sink with room for `room` bytes. Its calls of the numbers in `failing`, counted from 1, fail. So does the
    /// write of a nonempty piece once the room is spent.
    pub fn new(alloc: Global, room: usize, failing: &[u64]) -> Result<BytesOut, WantOfMemory>
        ensures taken { IfOk result (λ sink. ⟦<BytesOut as Sink>⟧.taken sink ≡ Some []) }
        ensures faults { IfOk result (λ sink. ⟦<BytesOut as Sink>⟧.faults sink ≡ 0) }
        ensures room { IfOk result (λ sink. room_left sink ≡ room) }
        ensures plan { IfOk result (λ sink. plan sink ≡ record { calls = 0; failing = failing.now }) }
    {
        Ok(BytesOut {
            room: vec![in alloc; 0; room]?,
            len: 0,
            failing: Failing::new(alloc, failing)?,
        })
    }

    /// All bytes taken so far.
    pub fn bytes(&self) -> &[u8]
        ensures { ⟦<BytesOut as Sink>⟧.taken self.now ≡ Some result.now }
    {
        &self.room[..self.len]
    }
}

impl Sink for BytesOut {
    ghost use Rattle.std.specs.Prelude.{◌≡◌, ◌==◌, ◌&&◌, ◌||◌, not, ◌≤◌, ◌-◌, ◌++◌, length, min, take, Some, is_err, IfOk, OnOk, OnErr};
    ghost use Rattle.tw_io.specs.BytesOut.{bytes_taken, room_left, plan, fault_count};
    ghost use Rattle.tw_io.specs.Failing.{fails_next, called};
    ghost use Rattle.tw_io.specs.Faults.{IsRisen};

    ghost taken = { λ s. Some (bytes_taken s) };

    ghost faults = { fault_count };

    /// Fails exactly where the plan says so, or a nonempty piece finds no room. Else it takes as much as fits.
    fn write(&mut self, piece: &[u8]) -> Result<usize, WriteFailed>
        ensures exact { is_err result ≡ (fails_next (plan self.old) || ((room_left self.old == 0) && not (length piece.now == 0))) }
        ensures plan { plan self.new ≡ called (plan self.old) }
        ensures count { IfOk result (λ n. n ≡ min (length piece.now) (room_left self.old)) }
        ensures takes { IfOk result (λ n. bytes_taken self.new ≡ bytes_taken self.old ++ take n piece.now) }
        ensures room { IfOk result (λ n. room_left self.new ≡ room_left self.old - n) }
        ensures err { OnErr result (bytes_taken self.new ≡ bytes_taken self.old) }
        ensures room_err { OnErr result (room_left self.new ≡ room_left self.old) }
        ensures passed { OnOk result (fault_count self.new ≡ fault_count self.old) }
        ensures monotone { fault_count self.old ≤ fault_count self.new }
        ensures cause { OnErr result (IsRisen (fault_count self.old) (fault_count self.new)) }
    {
        if self.failing.call() {
            return Err(WriteFailed);
        }
        let n = piece.len().min(self.room.len() - self.len);
        if n == 0 && !piece.is_empty() {
            self.failing.fault();
            return Err(WriteFailed);
        }
        self.room[self.len..self.len + n].copy_from_slice(&piece[..n]);
        self.len += n;
        Ok(n)
    }
}

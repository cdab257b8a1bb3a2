//! Room for a text that is written at once.

ghost use Rattle.std.specs.Prelude.{◌≡◌, ◌≤◌, ◌<◌, vec_len};

use std::alloc::Global;
use tw_io::{Sink, WriteFailed};
use tw_num::WantOfMemory;

/// How many bytes it has room for.
const ROOM: usize = 65_536;

/// A text of at most 65,536 bytes, whose room is taken when it is made. It fails as a sink only once it is full.
#[derive(Drop)]
pub struct Spool {
    room: Vec<u8>,
    len: usize,
    faults: u64,
    ghost room_is: { vec_len room ≡ 65536 },
    ghost within: { len ≤ vec_len room },
    ghost full: { 0 < faults → len ≡ 65536 },
}

impl Spool {
    ghost use Rattle.std.specs.Prelude.{◌≡◌, ◌<◌, [], Some, length, IfOk};
    ghost use Rattle.node_loop.specs.Spool.{spooled};

    /// An empty one.
    pub fn new(alloc: Global) -> Result<Spool, WantOfMemory>
        ensures { IfOk result (λ spool. spooled spool ≡ []) }
    {
        Ok(Spool {
            room: vec![in alloc; 0; ROOM]?,
            len: 0,
            faults: 0,
        })
    }

    /// Forgets its text.
    pub fn clear(&mut self)
        ensures text { spooled self.new ≡ [] }
        ensures faults { self.new.faults ≡ 0 }
    {
        self.len = 0;
        self.faults = 0;
    }

    /// Its text.
    pub fn bytes(&self) -> &[u8]
        ensures { result.now ≡ spooled self.now }
    {
        &self.room[..self.len]
    }
}

impl Sink for Spool {
    ghost use Rattle.std.specs.Prelude.{Some};
    ghost use Rattle.node_loop.specs.Spool.{spooled};

    ghost taken = { λ s. Some (spooled s) };

    ghost faults = { λ s. s.faults };

    fn write(&mut self, piece: &[u8]) -> Result<usize, WriteFailed> {
        let n = piece.len().min(ROOM - self.len);
        if n == 0 && !piece.is_empty() {
            self.faults = self.faults.saturating_add(1);
            return Err(WriteFailed);
        }
        self.room[self.len..self.len + n].copy_from_slice(&piece[..n]);
        self.len += n;
        Ok(n)
    }
}

//! Datagrams in memory that are to arrive. `ListLink` and `SteadyLink` take from it.

ghost use Rattle.std.specs.Prelude.{◌≡◌, ◌≤◌, length, drop, vec_len};
ghost use Rattle.tw_io.specs.Arrivals.{bytes_of_all};

use crate::Came;
use std::alloc::{AllocError, Global};

/// Datagrams that are to arrive, one at each call or none.
#[derive(Drop)]
pub(crate) struct Arrivals {
    items: Vec<Option<Came>>,
    bytes: Vec<u8>,
    next: usize,
    start: usize,
    ghost within: { next ≤ vec_len items },
    ghost begun: { start ≤ length bytes.items },
    ghost whole: { bytes_of_all (drop next items.items) ≡ length (drop start bytes.items) },
}

impl Arrivals {
    ghost use Rattle.std.specs.Prelude.{IfOk};
    ghost use Rattle.tw_io.specs.Arrivals.{datagrams};
    ghost use Rattle.tw_io.specs.ArrivalsLeft.{arrivals_left};
    ghost use Rattle.tw_io.specs.Link.{next_arrival, arrivals_after, came_of, StandsIn};

    pub(crate) fn new(
        alloc: Global,
        items: &[Option<Came>],
        bytes: &[u8],
    ) -> Result<Arrivals, AllocError>
        requires { bytes_of_all items.now ≡ length bytes.now }
        ensures { IfOk result (λ a. arrivals_left a ≡ datagrams items.now bytes.now) }
    {
        Ok(Arrivals {
            items: Vec::from_slice(alloc, items)?,
            bytes: Vec::from_slice(alloc, bytes)?,
            next: 0,
            start: 0,
        })
    }

    /// Takes the next one into the buffer, cut to 4096 bytes. None where there is none at this call.
    pub(crate) fn take(&mut self, buf: &mut [u8; 4096]) -> Option<Came>
        ensures came { result ≡ came_of (next_arrival (arrivals_left self.old)) }
        ensures bytes { StandsIn (next_arrival (arrivals_left self.old)) buf.new }
        ensures after { arrivals_left self.new ≡ arrivals_after (arrivals_left self.old) }
    {
        if self.next == self.items.len() {
            return None;
        }
        let item = self.items[self.next];
        self.next += 1;
        let came = item?;
        let len = came.len.min(4096);
        buf[..len].copy_from_slice(&self.bytes[self.start..self.start + len]);
        self.start += came.len;
        Some(Came {
            from: came.from,
            len,
        })
    }
}

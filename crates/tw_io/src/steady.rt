//! Forms in memory that never fail.

use crate::arrivals::Arrivals;
use crate::unread::Unread;
use crate::{Addr, Came, Link, LinkFailed, ReadFailed, Sink, Source, WriteFailed};
use std::alloc::Global;
use tw_num::WantOfMemory;

/// A source over bytes in memory that never fails. It tells the bytes left.
#[derive(Drop)]
pub struct SteadyIn {
    unread: Unread,
}

impl SteadyIn {
    ghost use Rattle.std.specs.Prelude.{◌≡◌, Some, IfOk};

    /// A source of these bytes.
    pub fn new(alloc: Global, bytes: &[u8]) -> Result<SteadyIn, WantOfMemory>
        ensures { IfOk result (λ source. ⟦<SteadyIn as Source>⟧.left source ≡ Some bytes.now) }
    {
        Ok(SteadyIn {
            unread: Unread::new(alloc, bytes)?,
        })
    }
}

impl Source for SteadyIn {
    ghost use Rattle.std.specs.Prelude.{Some};
    ghost use Rattle.tw_io.specs.Forms.{steady_bytes_left};

    ghost left = { λ s. Some (steady_bytes_left s) };

    ghost faults = { λ _. 0 };

    fn read(&mut self, buf: &mut [u8]) -> Result<usize, ReadFailed> {
        Ok(self.unread.read(buf))
    }
}

/// A sink that takes everything, keeps nothing and never fails. It does not tell what it took.
#[derive(Drop)]
pub struct SteadyOut;

impl SteadyOut {
    pub fn new() -> SteadyOut {
        SteadyOut
    }
}

impl Sink for SteadyOut {
    ghost use Rattle.std.specs.Prelude.{None};

    ghost taken = { λ _. None };

    ghost faults = { λ _. 0 };

    fn write(&mut self, piece: &[u8]) -> Result<usize, WriteFailed> {
        Ok(piece.len())
    }
}

/// A link that never fails. What is to arrive is given to it, and it tells that; it keeps nothing of what is bound or
/// sent, and does not tell it.
#[derive(Drop)]
pub struct SteadyLink {
    arrivals: Arrivals,
}

impl SteadyLink {
    ghost use Rattle.std.specs.Prelude.{◌≡◌, Some, IfOk, length};
    ghost use Rattle.tw_io.specs.Arrivals.{bytes_of_all, datagrams};

    /// A link on which these datagrams arrive, one at each `recv` or none, and nothing after their end. The bytes of
    /// each are the next `len` of `bytes`.
    pub fn new(
        alloc: Global,
        arrivals: &[Option<Came>],
        bytes: &[u8],
    ) -> Result<SteadyLink, WantOfMemory>
        requires { bytes_of_all arrivals.now ≡ length bytes.now }
        ensures { IfOk result (λ link. ⟦<SteadyLink as Link>⟧.arriving link ≡ Some (datagrams arrivals.now bytes.now)) }
    {
        Ok(SteadyLink {
            arrivals: Arrivals::new(alloc, arrivals, bytes)?,
        })
    }
}

impl Link for SteadyLink {
    ghost use Rattle.std.specs.Prelude.{None, Some};
    ghost use Rattle.tw_io.specs.Forms.{steady_arrivals};

    ghost binding = { λ _. None };

    ghost sends = { λ _. None };

    ghost arriving = { λ l. Some (steady_arrivals l) };

    ghost faults = { λ _. 0 };

    ghost losses = { λ _. 0 };

    fn bind(&mut self, _own: Addr) -> Result<(), LinkFailed> {
        Ok(())
    }

    fn send(&mut self, _to: Addr, _bytes: &[u8]) -> Result<(), LinkFailed> {
        Ok(())
    }

    fn recv(&mut self, buf: &mut [u8; 4096], _wait: u64) -> Result<Option<Came>, LinkFailed> {
        Ok(self.arrivals.take(buf))
    }
}

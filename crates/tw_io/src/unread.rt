//! Bytes that are read from the front. The sources in memory stand on it.

ghost use Rattle.std.specs.Prelude.{◌≤◌, vec_len};

use std::alloc::{AllocError, Global};

/// Bytes that are read once, from the first on.
#[derive(Drop)]
pub(crate) struct Unread {
    bytes: Vec<u8>,
    at: usize,
    ghost within: { at ≤ vec_len bytes },
}

impl Unread {
    ghost use Rattle.std.specs.Prelude.{◌≡◌, min, length, take, drop, IfOk};
    ghost use Rattle.tw_io.specs.Unread.{unread};

    pub(crate) fn new(alloc: Global, bytes: &[u8]) -> Result<Unread, AllocError>
        ensures { IfOk result (λ u. unread u ≡ bytes.now) }
    {
        Ok(Unread {
            bytes: Vec::from_slice(alloc, bytes)?,
            at: 0,
        })
    }

    /// Reads as many bytes as there are and fit.
    pub(crate) fn read(&mut self, buf: &mut [u8]) -> usize
        ensures count { result ≡ min (length buf.new) (length (unread self.old)) }
        ensures given { take result buf.new ≡ take result (unread self.old) }
        ensures rest { unread self.new ≡ drop result (unread self.old) }
    {
        let n = buf.len().min(self.bytes.len() - self.at);
        buf[..n].copy_from_slice(&self.bytes[self.at..self.at + n]);
        self.at += n;
        n
    }
}

//! A source over bytes in memory, of which chosen calls fail.

use crate::failing::Failing;
use crate::unread::Unread;
use crate::{ReadFailed, Source};
use std::alloc::Global;
use tw_num::WantOfMemory;

/// A source over bytes in memory. It tells the bytes left.
#[derive(Drop)]
pub struct BytesIn {
    unread: Unread,
    failing: Failing,
}

impl BytesIn {
    ghost use Rattle.std.specs.Prelude.{◌≡◌, Some, IfOk};
    ghost use Rattle.tw_io.specs.BytesIn.{plan};

    /// A source of these bytes. Its calls of the numbers in `failing`, counted from 1, fail.
    pub fn new(alloc: Global, bytes: &[u8], failing: &[u64]) -> Result<BytesIn, WantOfMemory>
        ensures left { IfOk result (λ source. ⟦<BytesIn as Source>⟧.left source ≡ Some bytes.now) }
        ensures faults { IfOk result (λ source. ⟦<BytesIn as Source>⟧.faults source ≡ 0) }
        ensures plan { IfOk result (λ source. plan source ≡ record { calls = 0; failing = failing.now }) }
    {
        Ok(BytesIn {
            unread: Unread::new(alloc, bytes)?,
            failing: Failing::new(alloc, failing)?,
        })
    }
}

impl Source for BytesIn {
    ghost use Rattle.std.specs.Prelude.{◌≡◌, ◌≤◌, length, min, take, drop, Some, is_err, IfOk, OnOk, OnErr};
    ghost use Rattle.tw_io.specs.BytesIn.{bytes_left, plan, fault_count};
    ghost use Rattle.tw_io.specs.Failing.{fails_next, called};
    ghost use Rattle.tw_io.specs.Faults.{IsRisen};

    ghost left = { λ s. Some (bytes_left s) };

    ghost faults = { fault_count };

    /// Fails exactly where the plan says so. Else it reads as much as there is and fits.
    fn read(&mut self, buf: &mut [u8]) -> Result<usize, ReadFailed>
        ensures exact { is_err result ≡ fails_next (plan self.old) }
        ensures plan { plan self.new ≡ called (plan self.old) }
        ensures count { IfOk result (λ n. n ≡ min (length buf.new) (length (bytes_left self.old))) }
        ensures given { IfOk result (λ n. take n buf.new ≡ take n (bytes_left self.old)) }
        ensures rest { IfOk result (λ n. bytes_left self.new ≡ drop n (bytes_left self.old)) }
        ensures err { OnErr result (bytes_left self.new ≡ bytes_left self.old) }
        ensures passed { OnOk result (fault_count self.new ≡ fault_count self.old) }
        ensures monotone { fault_count self.old ≤ fault_count self.new }
        ensures cause { OnErr result (IsRisen (fault_count self.old) (fault_count self.new)) }
    {
        if self.failing.call() {
            return Err(ReadFailed);
        }
        Ok(self.unread.read(buf))
    }
}

//! What a source is: bytes left, and a count of faults.

use std::error::Error;
use std::fmt;

/// A source could not be read. Its count of faults rose.
#[derive(Clone, Copy, Debug, PartialEq, Eq)]
pub struct ReadFailed;

impl fmt::Display for ReadFailed {
    fn fmt<W: fmt::Write>(&self, f: &mut fmt::Formatter<W>) -> fmt::Result {
        f.write_str("the source could not be read")
    }
}

impl Error for ReadFailed {}

/// Where bytes come from.
pub trait Source {
    ghost use Rattle.std.specs.Prelude.{◌≡◌, ◌<◌, ◌≤◌, ℕ, List, [], length, take, drop, Option, Some, None, IfOk, OnErr};
    ghost use Rattle.tw_io.specs.Faults.{IsRisen};

    /// The bytes left, where the source tells them.
    ghost left: { Self → Option (List ℕ) };

    /// How often the source has failed.
    ghost faults: { Self → ℕ };

    /// Puts the next bytes at the front of `buf` and answers how many, at most its length. 0 for a nonempty `buf` is
    /// the end of input. A failed call reads nothing, and raises the count of faults.
    fn read(&mut self, buf: &mut [u8]) -> Result<usize, ReadFailed>
        ensures within { IfOk result (λ n. n ≤ length buf.new) }
        ensures there { IfOk result (λ n. (bytes : List ℕ) → left self.old ≡ Some bytes → n ≤ length bytes) }
        ensures given { IfOk result (λ n. (bytes : List ℕ) → left self.old ≡ Some bytes → take n buf.new ≡ take n bytes) }
        ensures rest { IfOk result (λ n. (bytes : List ℕ) → left self.old ≡ Some bytes → left self.new ≡ Some (drop n bytes)) }
        ensures end { IfOk result (λ n. (bytes : List ℕ) → left self.old ≡ Some bytes → n ≡ 0 → 0 < length buf.new → bytes ≡ []) }
        ensures untold { left self.old ≡ None → left self.new ≡ None }
        ensures err { OnErr result (left self.new ≡ left self.old) }
        ensures monotone { faults self.old ≤ faults self.new }
        ensures cause { OnErr result (IsRisen (faults self.old) (faults self.new)) };
}

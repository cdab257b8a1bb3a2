//! What a sink is: bytes taken, and a count of faults.

use std::error::Error;
use std::fmt;

/// A sink could not be written. Its count of faults rose.
#[derive(Clone, Copy, Debug, PartialEq, Eq)]
pub struct WriteFailed;

impl fmt::Display for WriteFailed {
    fn fmt<W: fmt::Write>(&self, f: &mut fmt::Formatter<W>) -> fmt::Result {
        f.write_str("the sink could not be written")
    }
}

impl Error for WriteFailed {}

/// Where bytes go to.
pub trait Sink {
    ghost use Rattle.std.specs.Prelude.{◌≡◌, ◌<◌, ◌≤◌, ◌++◌, ℕ, List, length, take, Option, Some, None, IfOk, OnErr};
    ghost use Rattle.tw_io.specs.Faults.{IsRisen};

    /// All bytes taken so far, where the sink tells them.
    ghost taken: { Self → Option (List ℕ) };

    /// How often the sink has failed.
    ghost faults: { Self → ℕ };

    /// Takes the first bytes of `piece` and answers how many, at most its length. A failed call takes nothing, and
    /// raises the count of faults; so does one that takes 0 of a nonempty `piece`.
    fn write(&mut self, piece: &[u8]) -> Result<usize, WriteFailed>
        ensures within { IfOk result (λ n. n ≤ length piece.now) }
        ensures takes { IfOk result (λ n. (bytes : List ℕ) → taken self.old ≡ Some bytes → taken self.new ≡ Some (bytes ++ take n piece.now)) }
        ensures untold { taken self.old ≡ None → taken self.new ≡ None }
        ensures err { OnErr result (taken self.new ≡ taken self.old) }
        ensures monotone { faults self.old ≤ faults self.new }
        ensures cause { OnErr result (IsRisen (faults self.old) (faults self.new)) }
        ensures stuck { IfOk result (λ n. n ≡ 0 → 0 < length piece.now → IsRisen (faults self.old) (faults self.new)) };
}

//! Writing a piece to its end, or failing.

ghost use Rattle.std.specs.Prelude.{◌≡◌, ℕ, ◌≤◌, ◌++◌, List, Some, take, OnOk, OnErr};
ghost use Rattle.tw_io.specs.Faults.{IsRisen};

use tw_io::{Sink, WriteFailed};

/// Writes all of the bytes, in as many pieces as the sink takes them. An `Err` leaves a front of them written.
pub fn write_all<K: Sink>(sink: &mut K, bytes: &[u8]) -> Result<(), WriteFailed>
    ensures written { OnOk result ((before : List ℕ) → K.taken sink.old ≡ Some before → K.taken sink.new ≡ Some (before ++ bytes.now)) }
    ensures cut { OnErr result ((before : List ℕ) → K.taken sink.old ≡ Some before → (n : ℕ) × (K.taken sink.new ≡ Some (before ++ take n bytes.now))) }
    ensures monotone { K.faults sink.old ≤ K.faults sink.new }
    ensures fault { OnErr result (IsRisen (K.faults sink.old) (K.faults sink.new)) }
{
    let mut rest = bytes;
    while !rest.is_empty() {
        let count = sink.write(rest)?;
        if count == 0 {
            return Err(WriteFailed);
        }
        rest = &rest[count..];
    }
    Ok(())
}

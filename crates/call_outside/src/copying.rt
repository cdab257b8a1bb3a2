//! A copy of a source to a sink: what a caller may do that knows no more of them than their traits.

ghost use Rattle.std.specs.Prelude.{◌≡◌, ◌++◌, [], ℕ, List, Some};
ghost use Rattle.tw_io.specs.Faults.{IsRisen};

use tw_io::{ReadFailed, Sink, Source, WriteFailed};

/// How a copy ended.
#[derive(Clone, Copy, Debug)]
pub enum Copied {
    Whole,
    ReadFault,
    WriteFault,
    TooLong,
}

/// Copies a source to a sink, byte by byte.
pub fn copy<S: Source, K: Sink>(source: &mut S, sink: &mut K) -> Copied
    ensures to_the_end { result ≡ Copied.Whole → (bytes : List ℕ) → S.left source.old ≡ Some bytes → S.left source.new ≡ Some [] }
    ensures all_of_it { result ≡ Copied.Whole → (bytes before : List ℕ) → S.left source.old ≡ Some bytes → K.taken sink.old ≡ Some before → K.taken sink.new ≡ Some (before ++ bytes) }
    ensures read_fault { result ≡ Copied.ReadFault → IsRisen (S.faults source.old) (S.faults source.new) }
    ensures write_fault { result ≡ Copied.WriteFault → IsRisen (K.faults sink.old) (K.faults sink.new) }
{
    let mut byte = [0];
    for _ in 0..u64::MAX {
        match source.read(&mut byte) {
            Ok(0) => return Copied::Whole,
            Ok(_) => {}
            Err(ReadFailed) => return Copied::ReadFault,
        }
        match sink.write(&byte) {
            Ok(0) | Err(WriteFailed) => return Copied::WriteFault,
            Ok(_) => {}
        }
    }
    Copied::TooLong
}

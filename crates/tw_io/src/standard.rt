//! Standard input and standard output. Nothing else in this crate touches the system.

use crate::{ReadFailed, Sink, Source, WriteFailed};
use std::io::{Read, Write};

/// A source over a reader of the system, as standard input. It tells no content, and counts each error. The count stays
/// at the last value of a `u64`.
#[derive(Drop)]
pub struct StandardInput<R> {
    reader: R,
    faults: u64,
}

impl<R: Read> StandardInput<R> {
    ghost use Rattle.std.specs.Prelude.{◌≡◌};

    pub fn new(reader: R) -> StandardInput<R>
        ensures { ⟦<StandardInput<R> as Source>⟧.faults result ≡ 0 }
    {
        StandardInput { reader, faults: 0 }
    }
}

impl<R: Read> Source for StandardInput<R> {
    ghost use Rattle.std.specs.Prelude.{None};
    ghost use Rattle.tw_io.specs.Standard.{input_faults};

    ghost left = { λ _. None };

    ghost faults = { input_faults };

    fn read(&mut self, buf: &mut [u8]) -> Result<usize, ReadFailed> {
        let read = self.reader.read(buf);
        if read.is_err() {
            self.faults = self.faults.saturating_add(1);
        }
        read.map_err(|_| ReadFailed)
    }
}

/// A sink over a writer of the system, as standard output. It tells no content, and counts each error and each write
/// that took nothing of a nonempty piece. The count stays at the last value of a `u64`. It never flushes: give it a
/// writer that keeps nothing back.
#[derive(Drop)]
pub struct StandardOutput<W> {
    writer: W,
    faults: u64,
}

impl<W: Write> StandardOutput<W> {
    ghost use Rattle.std.specs.Prelude.{◌≡◌};

    pub fn new(writer: W) -> StandardOutput<W>
        ensures { ⟦<StandardOutput<W> as Sink>⟧.faults result ≡ 0 }
    {
        StandardOutput { writer, faults: 0 }
    }
}

impl<W: Write> Sink for StandardOutput<W> {
    ghost use Rattle.std.specs.Prelude.{None};
    ghost use Rattle.tw_io.specs.Standard.{output_faults};

    ghost taken = { λ _. None };

    ghost faults = { output_faults };

    fn write(&mut self, piece: &[u8]) -> Result<usize, WriteFailed> {
        let written = self.writer.write(piece);
        if written.is_err() || matches!(written, Ok(0)) && !piece.is_empty() {
            self.faults = self.faults.saturating_add(1);
        }
        written.map_err(|_| WriteFailed)
    }
}

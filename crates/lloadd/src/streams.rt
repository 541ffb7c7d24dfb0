ghost use Rattle.std.specs.Prelude.{None};

use lload_outside::{Given, Sink, Source, Taken};
use std::io;

/// A reader as a source, which counts its failures and tells nothing of its content.
#[derive(Drop)]
pub struct Input<R> {
    reader: R,
    faults: u64,
}

impl<R: io::Read> Input<R> {
    pub fn new(reader: R) -> Input<R> {
        Input { reader, faults: 0 }
    }
}

impl<R: io::Read> Source for Input<R> {
    ghost left = { λ _. None };

    ghost faults = { λ input. input.faults };

    fn read(&mut self, buf: &mut [u8]) -> Taken {
        match self.reader.read(buf) {
            Ok(0) => Taken::End,
            Ok(n) => Taken::Got(n),
            Err(_) => {
                self.faults = self.faults.saturating_add(1);
                Taken::Failed
            }
        }
    }
}

/// A writer as a sink, which counts its failures, and a write that takes nothing as one, and tells nothing of its
/// content.
#[derive(Drop)]
pub struct Output<W> {
    writer: W,
    faults: u64,
}

impl<W: io::Write> Output<W> {
    pub fn new(writer: W) -> Output<W> {
        Output { writer, faults: 0 }
    }
}

impl<W: io::Write> Sink for Output<W> {
    ghost written = { λ _. None };

    ghost faults = { λ output. output.faults };

    fn write(&mut self, piece: &[u8]) -> Given {
        if piece.is_empty() {
            return Given::Put(0);
        }
        match self.writer.write(piece) {
            Ok(n) if n > 0 => Given::Put(n),
            _ => {
                self.faults = self.faults.saturating_add(1);
                Given::Failed
            }
        }
    }
}

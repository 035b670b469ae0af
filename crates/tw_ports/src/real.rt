// A source over any reader and a sink over any writer of std.
ghost use Rattle.std.specs.Prelude.{◌≡◌, ◌<◌, ℕ, length};
ghost use Rattle.std.specs.declared.option.Option.TheVariants.{None};
ghost use Rattle.tw_ports.specs.Ports.{Writes, WriteCounts};
ghost use Rattle.tw_ports.specs.Real.{PassesOn};

use crate::{ReadAnswer, Sink, Source, WriteAnswer};
use std::io::{Read, Write};
use std::marker::Model;

/// A source over a reader. It tells what is left where the reader does; each error is a fault.
#[derive(Drop)]
pub struct ReaderSource<R> {
    inner: R,
    faults: u64,
}

// The reader, and how many reads failed.
impl<R> Model for ReaderSource<R> {
    ghost Value = { R × ℕ };

    ghost view = { λ s. (s.inner, s.faults) };
}

impl<R> ReaderSource<R> {
    /// A source of what the reader gives.
    pub fn new(inner: R) -> Self
        ensures { result ≡ (inner, 0) }
    {
        ReaderSource { inner, faults: 0 }
    }
}

impl<R: Read> Source for ReaderSource<R> {
    ghost left = { λ s. R.remaining s.0 };

    ghost faults = { λ s. s.1 };

    fn read(&mut self, piece: &mut [u8]) -> ReadAnswer {
        match self.inner.read(piece) {
            Ok(0) => ReadAnswer::End,
            Ok(count) => ReadAnswer::Got(count),
            Err(_) => {
                self.faults = self.faults.saturating_add(1);
                ReadAnswer::Failed
            }
        }
    }
}

/// A sink over a writer. It flushes after each write; an error, a failed flush and a write that takes nothing are
/// faults. It doesn't tell what was written: after a failed flush the writer may hold bytes that the answer disowns.
#[derive(Drop)]
pub struct WriterSink<W> {
    inner: W,
    faults: u64,
}

// The writer, and how many writes failed.
impl<W> Model for WriterSink<W> {
    ghost Value = { W × ℕ };

    ghost view = { λ s. (s.inner, s.faults) };
}

impl<W> WriterSink<W> {
    /// A sink that writes to the writer.
    pub fn new(inner: W) -> Self
        ensures { result ≡ (inner, 0) }
    {
        WriterSink { inner, faults: 0 }
    }
}

impl<W: Write> Sink for WriterSink<W> {
    ghost written = { λ s. None };

    ghost faults = { λ s. s.1 };

    fn write(&mut self, piece: &[u8]) -> WriteAnswer
        requires { 0 < length piece.now }
        ensures bytes { Writes None None result piece.now }
        ensures counts { WriteCounts self.old.1 self.new.1 result }
        ensures passes { PassesOn (W.contents self.old.0) (W.contents self.new.0) result piece.now }
    {
        match self.inner.write(piece) {
            Ok(count) if count > 0 && self.inner.flush().is_ok() => WriteAnswer::Took(count),
            _ => {
                self.faults = self.faults.saturating_add(1);
                WriteAnswer::Failed
            }
        }
    }
}

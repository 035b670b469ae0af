// The traits of a source and a sink.
ghost use Rattle.std.specs.Prelude.{◌<◌, List, ℕ, length};
ghost use Rattle.std.specs.declared.option.Option.{Option};
ghost use Rattle.tw_ports.specs.Ports.{Reads, Writes, ReadCounts, WriteCounts};

/// The answer to a read.
#[derive(Clone, Copy, Debug, PartialEq, Eq)]
pub enum ReadAnswer {
    /// So many bytes, at least one, stand at the front of the piece.
    Got(usize),
    /// Nothing is left.
    End,
    /// The read failed, and nothing was read.
    Failed,
}

/// The answer to a write.
#[derive(Clone, Copy, Debug, PartialEq, Eq)]
pub enum WriteAnswer {
    /// So many bytes, at least one, were written from the front of the piece.
    Took(usize),
    /// The write failed, and nothing was written.
    Failed,
}

/// Where bytes come from.
pub trait Source {
    /// The bytes that are left, where the source tells them.
    ghost left: { Self → Option (List ℕ) };

    /// How many reads have failed; the count stands still at `u64::MAX`.
    ghost faults: { Self → ℕ };

    /// Puts the next bytes at the front of the piece.
    fn read(&mut self, piece: &mut [u8]) -> ReadAnswer
        requires { 0 < length piece.old }
        ensures bytes { Reads (left self.old) (left self.new) result piece.new }
        ensures counts { ReadCounts (faults self.old) (faults self.new) result };
}

/// Where bytes go to.
pub trait Sink {
    /// The bytes that were written, where the sink tells them.
    ghost written: { Self → Option (List ℕ) };

    /// How many writes have failed; the count stands still at `u64::MAX`.
    ghost faults: { Self → ℕ };

    /// Takes bytes from the front of the piece.
    fn write(&mut self, piece: &[u8]) -> WriteAnswer
        requires { 0 < length piece.now }
        ensures bytes { Writes (written self.old) (written self.new) result piece.now }
        ensures counts { WriteCounts (faults self.old) (faults self.new) result };
}

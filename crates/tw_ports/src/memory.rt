// A source and a sink in memory that fail where they are told to.
ghost use Rattle.std.specs.Prelude.{◌≡◌, ◌≤◌, ◌<◌, [], length, drop};
ghost use Rattle.std.specs.declared.option.Option.TheVariants.{Some};
ghost use Rattle.tw_ports.specs.Ports.{Reads, Writes, ReadCounts, WriteCounts};
ghost use Rattle.tw_ports.specs.Memory.{Supply, Store, SupplyRead, StoreWrite};

use crate::slices::give;
use crate::{ReadAnswer, Sink, Source, WriteAnswer};
use std::alloc::Global;
use std::marker::Model;

/// Bytes in memory, of which one read gives at most `piece`. The calls whose numbers, from 1, stand in `fails` fail.
#[derive(Drop)]
pub struct MemSource {
    bytes: Vec<u8>,
    at: usize,
    piece: usize,
    fails: Vec<u64>,
    calls: u64,
    faults: u64,
}

impl Model for MemSource {
    ghost Value = { Supply };

    ghost view = { λ s. record { left = drop s.at s.bytes.items; piece = s.piece; fails = s.fails.items; calls = s.calls; faults = s.faults } };

    ghost invariant = { λ s. (s.at ≤ length s.bytes.items) × (0 < s.piece) };
}

impl MemSource {
    /// A source of these bytes.
    pub fn new(bytes: Vec<u8>, piece: usize, fails: Vec<u64>) -> MemSource
        requires { 0 < piece }
        ensures { result ≡ record { left = bytes.items; piece = piece; fails = fails.items; calls = 0; faults = 0 } }
    {
        MemSource {
            bytes,
            at: 0,
            piece,
            fails,
            calls: 0,
            faults: 0,
        }
    }
}

impl Source for MemSource {
    ghost left = { λ s. Some s.left };

    ghost faults = { λ s. s.faults };

    fn read(&mut self, piece: &mut [u8]) -> ReadAnswer
        requires { 0 < length piece.old }
        ensures bytes { Reads (Some self.old.left) (Some self.new.left) result piece.new }
        ensures counts { ReadCounts self.old.faults self.new.faults result }
        ensures exact { SupplyRead self.old self.new result piece.new }
    {
        self.calls = self.calls.saturating_add(1);
        if self.fails.contains(&self.calls) {
            self.faults = self.faults.saturating_add(1);
            return ReadAnswer::Failed;
        }
        let count = give(&self.bytes[self.at..], piece, self.piece);
        if count == 0 {
            return ReadAnswer::End;
        }
        self.at += count;
        ReadAnswer::Got(count)
    }
}

/// What was written, in memory. The calls whose numbers, from 1, stand in `fails` fail, and so does one for which
/// memory is wanting.
#[derive(Drop)]
pub struct MemSink {
    bytes: Vec<u8>,
    fails: Vec<u64>,
    calls: u64,
    faults: u64,
}

impl Model for MemSink {
    ghost Value = { Store };

    ghost view = { λ s. record { written = s.bytes.items; fails = s.fails.items; calls = s.calls; faults = s.faults } };
}

impl MemSink {
    /// A sink to which nothing was written.
    pub fn new(alloc: Global, fails: Vec<u64>) -> MemSink
        ensures { result ≡ record { written = []; fails = fails.items; calls = 0; faults = 0 } }
    {
        MemSink {
            bytes: Vec::new(alloc),
            fails,
            calls: 0,
            faults: 0,
        }
    }

    /// What was written.
    pub fn bytes(&self) -> &[u8]
        ensures { result.now ≡ self.now.written }
    {
        &self.bytes
    }
}

impl Sink for MemSink {
    ghost written = { λ s. Some s.written };

    ghost faults = { λ s. s.faults };

    fn write(&mut self, piece: &[u8]) -> WriteAnswer
        requires { 0 < length piece.now }
        ensures bytes { Writes (Some self.old.written) (Some self.new.written) result piece.now }
        ensures counts { WriteCounts self.old.faults self.new.faults result }
        ensures exact { StoreWrite self.old self.new result piece.now }
    {
        self.calls = self.calls.saturating_add(1);
        if self.fails.contains(&self.calls) || self.bytes.extend_from_slice(piece).is_err() {
            self.faults = self.faults.saturating_add(1);
            return WriteAnswer::Failed;
        }
        WriteAnswer::Took(piece.len())
    }
}

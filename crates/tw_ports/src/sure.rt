// A source and a sink in memory that never fail.
ghost use Rattle.std.specs.Prelude.{◌≡◌, ◌≤◌, ◌<◌, [], List, ℕ, length, take, drop, if◌then◌else◌, IfOk};
ghost use Rattle.std.specs.Option.{option_copied};
ghost use Rattle.std.specs.declared.option.Option.TheVariants.{None, Some};
ghost use Rattle.tw_ports.specs.Ports.{Reads, Writes, ReadCounts, WriteCounts};
ghost use Rattle.tw_ports.specs.Memory.{SureSupply, SureStore, SureRead, SureWrite};

use crate::slices::{give, put};
use crate::{ReadAnswer, Sink, Source, WriteAnswer};
use std::alloc::{AllocError, Global};
use std::marker::Model;

/// Bytes in memory, of which one read gives at most `piece`. No read fails.
#[derive(Drop)]
pub struct SureSource {
    bytes: Vec<u8>,
    at: usize,
    piece: usize,
}

impl Model for SureSource {
    ghost Value = { SureSupply };

    ghost view = { λ s. record { left = drop s.at s.bytes.items; piece = s.piece } };

    ghost invariant = { λ s. (s.at ≤ length s.bytes.items) × (0 < s.piece) };
}

impl SureSource {
    /// A source of these bytes.
    pub fn new(bytes: Vec<u8>, piece: usize) -> SureSource
        requires { 0 < piece }
        ensures { result ≡ record { left = bytes.items; piece = piece } }
    {
        SureSource {
            bytes,
            at: 0,
            piece,
        }
    }
}

impl Source for SureSource {
    ghost left = { λ s. Some s.left };

    ghost faults = { λ s. 0 };

    fn read(&mut self, piece: &mut [u8]) -> ReadAnswer
        requires { 0 < length piece.old }
        ensures bytes { Reads (Some self.old.left) (Some self.new.left) result piece.new }
        ensures counts { ReadCounts 0 0 result }
        ensures exact { SureRead self.old self.new result piece.new }
    {
        let count = give(&self.bytes[self.at..], piece, self.piece);
        if count == 0 {
            return ReadAnswer::End;
        }
        self.at += count;
        ReadAnswer::Got(count)
    }
}

/// A sink with a fixed room in memory. No write fails: a piece that doesn't fit in the room left is taken and dropped,
/// and from then on the sink tells nothing.
#[derive(Drop)]
pub struct SureSink {
    room: Vec<u8>,
    used: usize,
    is_whole: bool,
}

impl Model for SureSink {
    ghost Value = { SureStore };

    ghost view = { λ s. record { room = length s.room.items; written = if s.is_whole then Some (take s.used s.room.items) else None } };

    ghost invariant = { λ s. s.used ≤ length s.room.items };
}

impl SureSink {
    /// A sink for at most `room` bytes. It takes all its memory here.
    pub fn new(alloc: Global, room: usize) -> Result<SureSink, AllocError>
        ensures { IfOk result (λ s. s ≡ record { room = room; written = Some [] }) }
    {
        let room = vec![in alloc; 0; room]?;
        Ok(SureSink {
            room,
            used: 0,
            is_whole: true,
        })
    }

    /// What was written, or None where something was dropped.
    pub fn bytes(&self) -> Option<&[u8]>
        ensures { option_copied result ≡ self.now.written }
    {
        if !self.is_whole {
            return None;
        }
        Some(&self.room[..self.used])
    }
}

impl Sink for SureSink {
    ghost written = { λ s. s.written };

    ghost faults = { λ s. 0 };

    fn write(&mut self, piece: &[u8]) -> WriteAnswer
        requires { 0 < length piece.now }
        ensures bytes { Writes self.old.written self.new.written result piece.now }
        ensures counts { WriteCounts 0 0 result }
        ensures exact { SureWrite self.old self.new result piece.now }
    {
        if self.is_whole && piece.len() <= self.room.len() - self.used {
            put(&mut self.room, self.used, piece);
            self.used += piece.len();
        } else {
            self.is_whole = false;
        }
        WriteAnswer::Took(piece.len())
    }
}

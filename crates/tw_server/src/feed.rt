//! The bytes of a source, one by one.
ghost use Rattle.std.specs.Prelude.{◌≡◌, ◌≤◌, ◌<◌, ◌+◌, ◌≢◌, [], ◌∷◌, length, take, drop, IfOk};
ghost use Rattle.tw_server.specs.Feed.{Pending, GivesByte, Fills};
ghost use Rattle.tw_server.specs.Counts.{CountsReads};
ghost use Rattle.tw_server.specs.Limits.{input_limit};

use crate::limits::INPUT_MOST;
use std::alloc::{AllocError, Global};
use std::marker::Model;
use tw_ports::{ReadAnswer, Source};

/// The most bytes that one read is asked for.
const PIECE: usize = 4096;

/// Why nothing more is looked at.
#[derive(Clone, Copy, Debug, PartialEq, Eq)]
pub enum Stop {
    /// The input has ended.
    End,
    /// A read failed.
    Failed,
    /// A further byte is there after as many as one run may look at.
    Long,
}

/// What was read from a source and not yet looked at.
#[derive(Drop)]
pub struct Feed {
    piece: Vec<u8>,
    at: usize,
    upto: usize,
    seen: u64,
}

impl Model for Feed {
    ghost Value = { Pending };

    ghost view = { λ f. record { held = drop f.at (take f.upto f.piece.items); seen = f.seen } };

    ghost invariant = { λ f. (f.at ≤ f.upto) × (f.upto ≤ length f.piece.items) × (0 < length f.piece.items) × (f.seen ≤ input_limit) };
}

impl Feed {
    pub fn new(alloc: Global) -> Result<Feed, AllocError>
        ensures { IfOk result (λ f. f ≡ record { held = []; seen = 0 }) }
    {
        let piece = vec![in alloc; 0; PIECE]?;
        Ok(Feed {
            piece,
            at: 0,
            upto: 0,
            seen: 0,
        })
    }

    // Sees to it that something is held.
    fn fill<S: Source>(&mut self, source: &mut S) -> Result<(), Stop>
        ensures fills { Fills self.old (S.left source.old) self.new (S.left source.new) result }
        ensures counts { CountsReads (S.faults source.old) (S.faults source.new) result }
    {
        if self.at < self.upto {
            return Ok(());
        }
        self.at = 0;
        self.upto = 0;
        match source.read(&mut self.piece) {
            ReadAnswer::Got(count) => {
                self.upto = count;
                Ok(())
            }
            ReadAnswer::End => Err(Stop::End),
            ReadAnswer::Failed => Err(Stop::Failed),
        }
    }

    // Takes the first of the bytes that are held.
    fn next(&mut self) -> u8
        requires held { self.old.held ≢ [] }
        requires few { self.old.seen < input_limit }
        ensures first { self.old.held ≡ result ∷ self.new.held }
        ensures seen { self.new.seen ≡ self.old.seen + 1 }
    {
        let byte = self.piece[self.at];
        self.at += 1;
        self.seen += 1;
        byte
    }

    fn seen(&self) -> u64
        ensures value { result ≡ self.now.seen }
        ensures within { result ≤ input_limit }
    {
        self.seen
    }

    /// Looks at the next byte.
    pub fn byte<S: Source>(&mut self, source: &mut S) -> Result<u8, Stop>
        ensures byte { GivesByte self.old (S.left source.old) self.new (S.left source.new) result }
        ensures counts { CountsReads (S.faults source.old) (S.faults source.new) result }
    {
        if let Err(stop) = self.fill(source) {
            return Err(stop);
        }
        if self.seen() == INPUT_MOST {
            return Err(Stop::Long);
        }
        Ok(self.next())
    }
}

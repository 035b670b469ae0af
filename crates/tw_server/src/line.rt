//! A command line.
ghost use Rattle.std.specs.Prelude.{◌≡◌, ◌≤◌, [], List, ℕ, length, take, if◌then◌else◌, true, IfOk, Some, None};
ghost use Rattle.std.specs.Option.{option_copied};
ghost use Rattle.std.specs.declared.option.Option.{Option};
ghost use Rattle.tw_server.specs.Gather.{IsPushed, ReadsLine};
ghost use Rattle.tw_server.specs.Counts.{CountsReads};
ghost use Rattle.tw_server.specs.Limits.{line_limit};

use crate::feed::{Feed, Stop};
use crate::limits::LINE_MOST;
use std::alloc::{AllocError, Global};
use std::marker::Model;
use tw_ports::Source;

/// A line's bytes, unless there are too many. It takes all its memory when it is made.
#[derive(Drop)]
pub struct Line {
    room: Vec<u8>,
    len: usize,
    long: bool,
}

impl Model for Line {
    ghost Value = { Option (List ℕ) };

    ghost view = { λ s. if s.long then None else Some (take s.len s.room.items) };

    ghost invariant = { λ s. (s.len ≤ line_limit) × (length s.room.items ≡ line_limit) × (s.long ≡ true → s.len ≡ line_limit) };
}

impl Line {
    pub fn new(alloc: Global) -> Result<Line, AllocError>
        ensures { IfOk result (λ s. s ≡ Some []) }
    {
        let room = vec![in alloc; 0; LINE_MOST]?;
        Ok(Line {
            room,
            len: 0,
            long: false,
        })
    }

    /// The bytes, where they are not too many.
    pub fn body(&self) -> Option<&[u8]>
        ensures { option_copied result ≡ self.now }
    {
        if self.long {
            None
        } else {
            Some(&self.room[..self.len])
        }
    }

    fn clear(&mut self)
        ensures { self.new ≡ Some [] }
    {
        self.len = 0;
        self.long = false;
    }

    fn push(&mut self, byte: u8)
        ensures { IsPushed self.old byte self.new }
    {
        if self.len < LINE_MOST {
            self.room[self.len] = byte;
            self.len += 1;
        } else {
            self.long = true;
        }
    }
}

/// Reads a line. At `Err` it is as much of one as there is.
pub fn read_line<S: Source>(feed: &mut Feed, line: &mut Line, source: &mut S) -> Result<(), Stop>
    ensures line { ReadsLine feed.old (S.left source.old) feed.new (S.left source.new) line.new result }
    ensures counts { CountsReads (S.faults source.old) (S.faults source.new) result }
{
    line.clear();
    loop {
        match feed.byte(source) {
            Ok(b'\n') => return Ok(()),
            Ok(byte) => line.push(byte),
            Err(stop) => return Err(stop),
        }
    }
}

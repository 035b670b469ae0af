// Files of a file system.
ghost use Rattle.std.specs.Prelude.{◌≡◌, ◌≤◌, ◌<◌, ◌+◌, ℕ, length, IfOk};
ghost use Rattle.std.specs.IoError.{error_kind};
ghost use Rattle.std.specs.Io.KnownBytes.{ReadConsumes};
ghost use Rattle.std.specs.declared.option.Option.TheVariants.{None};
ghost use Rattle.tw_ports.specs.Files.{Within};
ghost use Rattle.tw_ports.specs.Disk.{unopened, unread, ReadsOpen};

use crate::{FileAnswer, Files};
use std::alloc::Global;
use std::io::{ErrorKind, Read};
use std::marker::Model;
use std::{fs, io, rt};

// How many bytes one read asks for at most.
const PIECE: usize = 4096;

/// The files of a file system, as a runtime of std gives it. A name is a path; a path at which nothing stands is absent,
/// and each other error is a fault but for want of memory. It doesn't tell what the files hold.
#[derive(Drop)]
pub struct DiskFiles<R> {
    system: R,
    faults: u64,
}

// The file system, and how many calls failed.
impl<R> Model for DiskFiles<R> {
    ghost Value = { R × ℕ };

    ghost view = { λ s. (s.system, s.faults) };
}

impl<R> DiskFiles<R> {
    /// A store of the files of this system.
    pub fn new(system: R) -> Self
        ensures { result ≡ (system, 0) }
    {
        DiskFiles { system, faults: 0 }
    }
}

impl<R: rt::Files> Files for DiskFiles<R> {
    ghost held = { λ s. None };

    ghost faults = { λ s. s.1 };

    fn read_file(&mut self, alloc: Global, name: &str, limit: usize) -> FileAnswer {
        let answer = match fs::open(&self.system, name) {
            Ok(mut file) => read_within(alloc, &mut file, limit),
            Err(error) => answer_unopened(&error),
        };
        if let FileAnswer::Failed = answer {
            self.faults = self.faults.saturating_add(1);
        }
        answer
    }
}

// The answer where a file can't be opened.
fn answer_unopened(error: &io::Error) -> FileAnswer
    ensures { result ≡ unopened (error_kind error.now) }
{
    match error.kind() {
        ErrorKind::NotFound => FileAnswer::Absent,
        ErrorKind::OutOfMemory => FileAnswer::NoMemory,
        _ => FileAnswer::Failed,
    }
}

// The answer where an open file can't be read.
fn answer_unread(error: &io::Error) -> FileAnswer
    ensures { result ≡ unread (error_kind error.now) }
{
    match error.kind() {
        ErrorKind::OutOfMemory => FileAnswer::NoMemory,
        _ => FileAnswer::Failed,
    }
}

// Reads into the front of the piece, and at most one byte more than there is room for.
fn read_piece<R: Read>(reader: &mut R, piece: &mut [u8], room: usize) -> io::Result<usize>
    requires { 0 < length piece.old }
    ensures bound { IfOk result (λ n. (n ≤ length piece.new) × (n ≤ room + 1)) }
    ensures bytes { ReadConsumes (R.remaining reader.old) (R.remaining reader.new) result piece.new }
{
    if room < piece.len() {
        reader.read(&mut piece[..room + 1])
    } else {
        reader.read(piece)
    }
}

// What is left of a reader, where it is at most the limit. One byte more than the limit is asked for, so that a longer
// file is known.
pub fn read_within<R: Read>(alloc: Global, reader: &mut R, limit: usize) -> FileAnswer
    ensures within { Within limit result }
    ensures reads { ReadsOpen (R.remaining reader.old) (R.remaining reader.new) limit result }
{
    let mut bytes = Vec::new(alloc);
    let mut piece = [0; PIECE];
    'pieces: loop {
        let room = limit - bytes.len();
        match read_piece(reader, &mut piece, room) {
            Ok(0) => return FileAnswer::Found(bytes),
            Ok(count) if count > room => return FileAnswer::TooLong,
            Ok(count) => {
                if bytes.extend_from_slice(&piece[..count]).is_err() {
                    return FileAnswer::NoMemory;
                }
            }
            Err(error) => return answer_unread(&error),
        }
    }
}

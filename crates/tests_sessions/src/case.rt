//! What a session is given, and what is wanted of it.
use std::alloc::{AllocError, Global};

/// What is written before the first answer.
const BANNER: &[u8] = b"Twelf 1.4 LF profile\n%% OK %%\n";

/// Which call of each port fails, by its number from 1; with 0 none does.
#[derive(Clone, Copy, Drop)]
pub struct Failing {
    pub read: u64,
    pub write: u64,
    pub file: u64,
}

impl Failing {
    /// This call of the sink fails, or else of the source.
    pub fn at(call: u64, writes: bool) -> Failing {
        Failing {
            read: if writes { 0 } else { call },
            write: if writes { call } else { 0 },
            file: 0,
        }
    }

    /// Whether any call fails.
    pub fn fails(&self) -> bool {
        self.read > 0 || self.write > 0 || self.file > 0
    }
}

/// A session: what it is given, and what is wanted of it.
#[derive(Drop)]
pub struct Case {
    pub name: String,
    /// The words behind the program's name.
    pub words: Vec<String>,
    /// The files that can be loaded, each with its name.
    pub files: Vec<(String, Vec<u8>)>,
    pub input: Vec<u8>,
    /// What is to be written.
    pub written: Vec<u8>,
    /// The exit status that is wanted.
    pub status: u64,
    /// How many bytes a read gives at most, or 0 where several sizes are tried.
    pub piece: u64,
    pub failing: Failing,
    /// Whether each read and each write is to fail in turn, too.
    pub in_turn: bool,
    /// How often the input is served over one session. What is wanted is wanted of the last time.
    pub times: u64,
}

impl Case {
    /// A session without words and input. It writes the banner alone.
    pub fn new(alloc: Global, name: &str) -> Result<Case, AllocError> {
        let name = String::from_str(alloc, name)?;
        let written = BANNER.to_vec(alloc)?;
        Ok(Case {
            name,
            words: Vec::new(alloc),
            files: Vec::new(alloc),
            input: Vec::new(alloc),
            written,
            status: 0,
            piece: 0,
            failing: Failing {
                read: 0,
                write: 0,
                file: 0,
            },
            in_turn: false,
            times: 1,
        })
    }

    /// Sets the number of this name, and says whether there is such a number.
    pub fn set(&mut self, name: &str, value: u64) -> bool {
        match name {
            "status" => self.status = value,
            "piece" => self.piece = value,
            "read" => self.failing.read = value,
            "write" => self.failing.write = value,
            "file" => self.failing.file = value,
            "times" => self.times = value,
            _ => return false,
        }
        true
    }
}

//! What is told, as far as there was memory for it.
use std::alloc::{AllocError, Global};

/// Bytes that are told. Where memory gave out they lack something, and then nothing of them is printed.
#[derive(Drop)]
pub struct Told {
    bytes: Vec<u8>,
    lacks: bool,
}

impl Told {
    /// Nothing is told yet.
    pub fn new(alloc: Global) -> Told {
        Told {
            bytes: Vec::new(alloc),
            lacks: false,
        }
    }

    /// Puts the bytes behind the others.
    pub fn put(&mut self, bytes: &[u8]) {
        self.lacks |= self.bytes.extend_from_slice(bytes).is_err();
    }

    /// All that was told.
    pub fn whole(self) -> Result<Vec<u8>, AllocError> {
        if self.lacks {
            Err(AllocError)
        } else {
            Ok(self.bytes)
        }
    }
}

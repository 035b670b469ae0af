//! A file system of slow files, of which only opening and reading work.
use std::alloc::Allocator;
use std::fs::{Metadata, OpenFile, OpenOptions};
use std::io::{Error, ErrorKind, Read, Result, Seek, SeekFrom, Write};
use std::rt::Files;

/// A file system. Under each name stands a file of so many bytes, and one of its reads fails, 0 for none.
#[derive(Drop)]
pub struct SlowDisk {
    pub length: u8,
    pub failing: u8,
}

/// An open file. Each read gives a byte.
#[derive(Drop)]
pub struct SlowFile {
    left: u8,
    reads: u8,
    failing: u8,
}

// What everything answers but opening and reading.
fn unsupported() -> Error {
    Error::from(ErrorKind::Unsupported)
}

impl Read for SlowFile {
    fn read(&mut self, buf: &mut [u8]) -> Result<usize> {
        self.reads = self.reads.saturating_add(1);
        if self.reads == self.failing {
            return Err(Error::from(ErrorKind::Other));
        }
        if self.left == 0 || buf.is_empty() {
            return Ok(0);
        }
        self.left -= 1;
        buf[0] = b'a';
        Ok(1)
    }
}

impl Write for SlowFile {
    fn write(&mut self, _buf: &[u8]) -> Result<usize> {
        Err(unsupported())
    }

    fn flush(&mut self) -> Result<()> {
        Err(unsupported())
    }
}

impl Seek for SlowFile {
    fn seek(&mut self, _to: SeekFrom) -> Result<u64> {
        Err(unsupported())
    }
}

impl OpenFile for SlowFile {
    fn metadata(&self) -> Result<Metadata> {
        Err(unsupported())
    }

    fn set_len(&self, _size: u64) -> Result<()> {
        Err(unsupported())
    }

    fn sync_all(&self) -> Result<()> {
        Err(unsupported())
    }

    fn sync_data(&self) -> Result<()> {
        Err(unsupported())
    }
}

impl Files for SlowDisk {
    type File = SlowFile;

    type Dir = SlowFile;

    fn open_file(&self, _how: &OpenOptions, _path: &str) -> Result<SlowFile> {
        Ok(SlowFile {
            left: self.length,
            reads: 0,
            failing: self.failing,
        })
    }

    fn open_dir(&self, _path: &str) -> Result<SlowFile> {
        Err(unsupported())
    }

    fn metadata(&self, _path: &str) -> Result<Metadata> {
        Err(unsupported())
    }

    fn symlink_metadata(&self, _path: &str) -> Result<Metadata> {
        Err(unsupported())
    }

    fn copy(&self, _from: &str, _to: &str) -> Result<u64> {
        Err(unsupported())
    }

    fn rename(&self, _from: &str, _to: &str) -> Result<()> {
        Err(unsupported())
    }

    fn remove_file(&self, _path: &str) -> Result<()> {
        Err(unsupported())
    }

    fn create_dir(&self, _path: &str) -> Result<()> {
        Err(unsupported())
    }

    fn remove_dir(&self, _path: &str) -> Result<()> {
        Err(unsupported())
    }

    fn remove_dir_all<B: Allocator>(&self, _alloc: B, _path: &str) -> Result<()> {
        Err(unsupported())
    }
}

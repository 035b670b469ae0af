//! Stores of files.
use crate::slow_disk::SlowDisk;
use crate::told::Told;
use std::alloc::{AllocError, Global};
use tw_ports::{DiskFiles, FileAnswer, Files, MemFiles, SureFiles};

// Tells what a store answers to this name within the limit.
fn answers<F: Files>(
    alloc: Global,
    out: &mut Told,
    files: &mut F,
    name: &str,
    limit: usize,
) -> Result<(), AllocError> {
    out.put(name.as_bytes());
    match files.read_file(alloc, name, limit) {
        FileAnswer::Found(bytes) => {
            out.put(b" is found: ");
            out.put(&bytes);
        }
        FileAnswer::Absent => out.put(b" is absent"),
        FileAnswer::TooLong => out.put(b" is too long"),
        FileAnswer::Failed => out.put(b" fails"),
        FileAnswer::NoMemory => return Err(AllocError),
    }
    out.put(b"\n");
    Ok(())
}

// Three files, two of them with one name.
fn three(alloc: Global) -> Result<Vec<(String, Vec<u8>)>, AllocError> {
    let mut held = Vec::new(alloc);
    for (name, text) in [("one", "abc"), ("two", ""), ("one", "second")] {
        held.push((
            String::from_str(alloc, name)?,
            text.as_bytes().to_vec(alloc)?,
        ))?;
    }
    Ok(held)
}

/// Tells what stores in memory answer.
pub fn in_memory(alloc: Global, out: &mut Told) -> Result<(), AllocError> {
    out.put(b"in a sure store\n");
    let mut files = SureFiles::new(three(alloc)?);
    answers(alloc, out, &mut files, "one", 3)?;
    answers(alloc, out, &mut files, "one", 2)?;
    answers(alloc, out, &mut files, "two", 0)?;
    answers(alloc, out, &mut files, "on", 9)?;
    out.put(b"in a store whose calls 1 and 4 fail\n");
    let mut files = MemFiles::new(three(alloc)?, vec![in alloc; 4, 1]?);
    answers(alloc, out, &mut files, "one", 3)?;
    answers(alloc, out, &mut files, "one", 3)?;
    answers(alloc, out, &mut files, "on", 3)?;
    answers(alloc, out, &mut files, "on", 3)?;
    answers(alloc, out, &mut files, "one", 2)
}

// Tells how a file of such a length is read that gives a byte at each read, of which this one fails.
fn slow(
    alloc: Global,
    out: &mut Told,
    length: u8,
    failing: u8,
    limit: usize,
) -> Result<(), AllocError> {
    let mut files = DiskFiles::new(SlowDisk { length, failing });
    answers(alloc, out, &mut files, "file", limit)
}

/// Tells how slow files are read.
pub fn slowly(alloc: Global, out: &mut Told) -> Result<(), AllocError> {
    out.put(b"on a slow disk\n");
    slow(alloc, out, 3, 0, 3)?;
    slow(alloc, out, 3, 0, 2)?;
    slow(alloc, out, 3, 3, 3)?;
    slow(alloc, out, 3, 4, 3)?;
    slow(alloc, out, 0, 0, 0)
}

/// Tells what the disk answers: for an empty file, one without end within two limits, one that isn't there, a folder, a path
/// through a file, and a file of ten bytes that just fits and doesn't.
pub fn on_disk(rt: HostRuntime, out: &mut Told) -> Result<(), AllocError> {
    let alloc = rt.alloc();
    let mut files = DiskFiles::new(rt);
    out.put(b"on the disk\n");
    answers(alloc, out, &mut files, "/dev/null", 0)?;
    answers(alloc, out, &mut files, "/dev/zero", 3)?;
    answers(alloc, out, &mut files, "/dev/zero", 9000)?;
    answers(alloc, out, &mut files, "/no such file", 9)?;
    answers(alloc, out, &mut files, "/", 9)?;
    answers(alloc, out, &mut files, "/dev/null/file", 9)?;
    answers(alloc, out, &mut files, "ten-bytes", 10)?;
    answers(alloc, out, &mut files, "ten-bytes", 9)
}

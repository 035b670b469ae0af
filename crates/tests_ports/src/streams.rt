//! Sources and sinks.
ghost use Rattle.std.specs.Prelude.{◌<◌};

use crate::told::Told;
use std::alloc::{AllocError, Global};
use std::io;
use tw_ports::{
    MemSink, MemSource, ReadAnswer, ReaderSource, Sink, Source, SureSink, SureSource, WriteAnswer,
    WriterSink,
};

const TEXT: &[u8] = b"abcde";

// Tells what a source answers to one read of 3 bytes, a failure as `!`, and says whether that was its end.
fn ends<S: Source>(out: &mut Told, source: &mut S) -> bool {
    let mut piece = [0; 3];
    match source.read(&mut piece) {
        ReadAnswer::Got(count) => {
            out.put(&piece[..count]);
            out.put(b"|");
            false
        }
        ReadAnswer::Failed => {
            out.put(b"!");
            false
        }
        ReadAnswer::End => true,
    }
}

// Tells what a source gives until its end, for at most 20 reads.
fn gives<S: Source>(out: &mut Told, what: &str, source: &mut S) {
    out.put(what.as_bytes());
    for _ in 0..20 {
        if ends(out, source) {
            break;
        }
    }
    out.put(b"\n");
}

// Tells what a sure source gives in such pieces.
fn sure_source(alloc: Global, out: &mut Told, what: &str, piece: usize) -> Result<(), AllocError>
    requires { 0 < piece }
{
    let mut source = SureSource::new(TEXT.to_vec(alloc)?, piece);
    gives(out, what, &mut source);
    Ok(())
}

// Tells what a source gives in such pieces of whose reads these fail.
fn source(
    alloc: Global,
    out: &mut Told,
    what: &str,
    piece: usize,
    fails: &[u64],
) -> Result<(), AllocError>
    requires { 0 < piece }
{
    let mut source = MemSource::new(TEXT.to_vec(alloc)?, piece, fails.to_vec(alloc)?);
    gives(out, what, &mut source);
    Ok(())
}

/// Tells what each source gives.
pub fn sources(alloc: Global, out: &mut Told) -> Result<(), AllocError> {
    sure_source(alloc, out, "a sure source, by 1: ", 1)?;
    sure_source(alloc, out, "a sure source, by 2: ", 2)?;
    sure_source(alloc, out, "a sure source, by 3: ", 3)?;
    sure_source(alloc, out, "a sure source, by 9: ", 9)?;
    source(
        alloc,
        out,
        "a source whose reads 1, 3 and 4 fail, by 2: ",
        2,
        &[1, 3, 4],
    )?;
    source(
        alloc,
        out,
        "a source whose reads don't fail, by 1: ",
        1,
        &[],
    )?;
    gives(
        out,
        "a source over a reader: ",
        &mut ReaderSource::new(TEXT),
    );
    Ok(())
}

// Tells how many bytes of a piece a sink takes.
fn taken(answer: WriteAnswer) -> &'static [u8] {
    match answer {
        WriteAnswer::Took(0) => b" 0",
        WriteAnswer::Took(1) => b" 1",
        WriteAnswer::Took(2) => b" 2",
        WriteAnswer::Took(3) => b" 3",
        WriteAnswer::Took(_) => b" ?",
        WriteAnswer::Failed => b" !",
    }
}

// Tells what a sink answers to each of these pieces.
fn takes<K: Sink>(out: &mut Told, what: &str, sink: &mut K, pieces: &[&[u8]]) {
    out.put(what.as_bytes());
    for piece in pieces {
        if !piece.is_empty() {
            out.put(taken(sink.write(*piece)));
        }
    }
    out.put(b"\n");
}

// Tells what a sink has.
fn has(out: &mut Told, bytes: Option<&[u8]>) {
    out.put(b"it has ");
    out.put(bytes.unwrap_or(b"no more to tell"));
    out.put(b"\n");
}

// A writer in memory that takes one byte less than it is given, and fails in the given call of `flush`.
#[derive(Drop)]
struct Sparing {
    held: Vec<u8>,
    flushes: u8,
    failing: u8,
}

impl io::Write for Sparing {
    fn write(&mut self, buf: &[u8]) -> io::Result<usize> {
        let count = buf.len().saturating_sub(1);
        self.held.extend_from_slice(&buf[..count])?;
        Ok(count)
    }

    fn flush(&mut self) -> io::Result<()> {
        self.flushes = self.flushes.saturating_add(1);
        if self.flushes == self.failing {
            return Err(io::Error::from(io::ErrorKind::Other));
        }
        Ok(())
    }
}

/// Tells how much each sink in memory takes, and what it has then.
pub fn sinks(alloc: Global, out: &mut Told) -> Result<(), AllocError> {
    let mut sink = MemSink::new(alloc, vec![in alloc; 2]?);
    takes(
        out,
        "a sink whose write 2 fails:",
        &mut sink,
        &[b"ab", b"cd", b"cd"],
    );
    has(out, Some(sink.bytes()));
    let mut sink = SureSink::new(alloc, 3)?;
    takes(out, "a sure sink for 3 bytes:", &mut sink, &[b"ab"]);
    has(out, sink.bytes());
    takes(out, "and then:", &mut sink, &[b"cd"]);
    has(out, sink.bytes());
    takes(out, "and then:", &mut sink, &[b"c"]);
    has(out, sink.bytes());
    Ok(())
}

/// Tells how much each sink over a writer takes.
pub fn writers(alloc: Global, out: &mut Told) {
    let mut sink = WriterSink::new(Vec::new(alloc));
    takes(out, "a sink over bytes:", &mut sink, &[b"ab", b"c"]);
    let mut sink = WriterSink::new(Sparing {
        held: Vec::new(alloc),
        flushes: 0,
        failing: 2,
    });
    let what = "a sink over a writer that takes a byte less, and whose flush 2 fails:";
    takes(out, what, &mut sink, &[b"abc", b"def", b"g", b"hi"]);
}

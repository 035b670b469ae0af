//! A session over ports in memory, and what came of it.
ghost use Rattle.std.specs.Prelude.{◌<◌};

use crate::case::{Case, Failing};
use std::alloc::{AllocError, Global};
use tw_ports::{MemFiles, MemSink, MemSource, SureFiles, SureSink, SureSource};
use tw_server::{Session, Status, exit_code, serve};

/// What came of a session: the exit status, and what was written.
#[derive(Drop)]
pub struct Told {
    pub status: u64,
    pub written: Vec<u8>,
}

impl Told {
    // What came of the session that ended now, in the place of what came of an earlier one.
    fn keep(&mut self, alloc: Global, status: &Status, written: &[u8]) -> Result<(), AllocError> {
        self.status = u64::from(exit_code(status));
        self.written = written.to_vec(alloc)?;
        Ok(())
    }

    /// Whether it is what is wanted.
    pub fn is_wanted(&self, case: &Case) -> bool {
        self.status == case.status && self.written == case.written
    }

    /// Whether it ends with this status, behind the front of what is wanted.
    pub fn stops(&self, case: &Case, status: u64) -> bool {
        self.status == status && case.written.starts_with(&self.written)
    }
}

/// Serves the input in such pieces over ports of which some calls fail.
pub fn served(
    alloc: Global,
    case: &Case,
    piece: usize,
    failing: Failing,
) -> Result<Told, AllocError>
    requires { 0 < piece }
{
    let mut session = Session::new(alloc)?;
    let mut files = MemFiles::new(held(alloc, case)?, vec![in alloc; failing.file]?);
    let mut told = nothing(alloc);
    for _ in 0..case.times {
        serve_once(
            alloc,
            case,
            piece,
            failing,
            &mut session,
            &mut files,
            &mut told,
        )?;
    }
    Ok(told)
}

// The same once, over this session.
fn serve_once(
    alloc: Global,
    case: &Case,
    piece: usize,
    failing: Failing,
    session: &mut Session,
    files: &mut MemFiles,
    told: &mut Told,
) -> Result<(), AllocError>
    requires { 0 < piece }
{
    let mut source = source_of(alloc, case, piece, failing.read)?;
    let mut sink = MemSink::new(alloc, vec![in alloc; failing.write]?);
    let words = case.words.as_slice();
    let status = serve(alloc, words, session, &mut source, &mut sink, files);
    told.keep(alloc, &status, sink.bytes())
}

// The input in such pieces, where this read fails.
fn source_of(
    alloc: Global,
    case: &Case,
    piece: usize,
    failing: u64,
) -> Result<MemSource, AllocError>
    requires { 0 < piece }
{
    let fails = vec![in alloc; failing]?;
    let input = case.input.to_vec(alloc)?;
    Ok(MemSource::new(input, piece, fails))
}

/// Serves the input in such pieces over ports that never fail. The sink has room for what is wanted and for no byte more.
pub fn served_surely(alloc: Global, case: &Case, piece: usize) -> Result<Told, AllocError>
    requires { 0 < piece }
{
    let mut session = Session::new(alloc)?;
    let mut files = SureFiles::new(held(alloc, case)?);
    let mut told = nothing(alloc);
    for _ in 0..case.times {
        serve_surely_once(alloc, case, piece, &mut session, &mut files, &mut told)?;
    }
    Ok(told)
}

// The same once, over this session.
fn serve_surely_once(
    alloc: Global,
    case: &Case,
    piece: usize,
    session: &mut Session,
    files: &mut SureFiles,
    told: &mut Told,
) -> Result<(), AllocError>
    requires { 0 < piece }
{
    let mut source = SureSource::new(case.input.to_vec(alloc)?, piece);
    let mut sink = SureSink::new(alloc, case.written.len())?;
    let words = case.words.as_slice();
    let status = serve(alloc, words, session, &mut source, &mut sink, files);
    let written = sink.bytes().unwrap_or(b"more than is wanted");
    told.keep(alloc, &status, written)
}

// What came of no session.
fn nothing(alloc: Global) -> Told {
    Told {
        status: 0,
        written: Vec::new(alloc),
    }
}

// The files of a session, for a store of them.
fn held(alloc: Global, case: &Case) -> Result<Vec<(String, Vec<u8>)>, AllocError> {
    let mut held = Vec::new(alloc);
    for file in &case.files {
        held.push(copy_of(alloc, file)?)?;
    }
    Ok(held)
}

fn copy_of(alloc: Global, file: &(String, Vec<u8>)) -> Result<(String, Vec<u8>), AllocError> {
    let bytes = file.1.to_vec(alloc)?;
    Ok((String::from_str(alloc, file.0.as_str())?, bytes))
}

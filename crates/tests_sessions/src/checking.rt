//! Whether a session goes as it is wanted, in whatever pieces it is read and over both kinds of ports.
ghost use Rattle.std.specs.Prelude.{◌<◌};

use crate::case::{Case, Failing};
use crate::serving::{Told, served, served_surely};
use std::io;

/// The exit status where a read fails, and the one where a write does.
const READ_FAULT: u64 = 2;

const WRITE_FAULT: u64 = 3;

/// More calls than a session makes whose reads and writes fail in turn.
const CALLS: u64 = 10_000;

/// Whether the session goes as it is wanted. Where it doesn't, a line says in which way.
pub fn holds(rt: &(impl Print + AllocGlobal), case: &Case) -> io::Result<bool> {
    if case.piece > 0 {
        return holds_in_pieces(rt, case, case.piece as usize);
    }
    Ok(
        holds_in_pieces(rt, case, 1)?
            && holds_in_pieces(rt, case, 2)?
            && holds_in_pieces(rt, case, 3)?
            && holds_in_pieces(rt, case, 4096)?,
    )
}

// Whether the session goes as it is wanted where a read gives so many bytes at most.
fn holds_in_pieces(rt: &(impl Print + AllocGlobal), case: &Case, piece: usize) -> io::Result<bool>
    requires { 0 < piece }
{
    Ok(
        holds_over_failing(rt, case, piece)?
            && (case.failing.fails() || holds_surely(rt, case, piece)?)
            && (!case.in_turn || stops(rt, case, piece, false)? && stops(rt, case, piece, true)?),
    )
}

// The same over ports of which the session's calls fail.
fn holds_over_failing(
    rt: &(impl Print + AllocGlobal),
    case: &Case,
    piece: usize,
) -> io::Result<bool>
    requires { 0 < piece }
{
    let told = served(rt.alloc(), case, piece, case.failing)?;
    judge(rt, case, piece, &told)
}

// The same over ports that never fail.
fn holds_surely(rt: &(impl Print + AllocGlobal), case: &Case, piece: usize) -> io::Result<bool>
    requires { 0 < piece }
{
    let told = served_surely(rt.alloc(), case, piece)?;
    judge(rt, case, piece, &told)
}

// Whether what came of a session is wanted. Where it isn't, a line says in which way.
fn judge(
    rt: &(impl Print + AllocGlobal),
    case: &Case,
    piece: usize,
    told: &Told,
) -> io::Result<bool> {
    if told.is_wanted(case) {
        Ok(true)
    } else {
        differs(rt, case, piece, told)
    }
}

// Whether each write that fails, or else each read, ends the session with its status, and what was written before it is
// the front of what is wanted.
fn stops(
    rt: &(impl Print + AllocGlobal),
    case: &Case,
    piece: usize,
    writes: bool,
) -> io::Result<bool>
    requires { 0 < piece }
{
    for call in 1..CALLS {
        match holds_at(rt, case, piece, call, writes)? {
            Some(holds) => return Ok(holds),
            None => (),
        }
    }
    Ok(false)
}

// Whether the session holds where the write of this number fails, or else the read. None where a later one is to fail, too.
fn holds_at(
    rt: &(impl Print + AllocGlobal),
    case: &Case,
    piece: usize,
    call: u64,
    writes: bool,
) -> io::Result<Option<bool>>
    requires { 0 < piece }
{
    let told = served(rt.alloc(), case, piece, Failing::at(call, writes))?;
    if call > 1 && told.is_wanted(case) {
        Ok(Some(true))
    } else if told.stops(case, if writes { WRITE_FAULT } else { READ_FAULT }) {
        Ok(None)
    } else {
        Ok(Some(differs(rt, case, piece, &told)?))
    }
}

// Says in which way a session differs from what is wanted.
fn differs(
    rt: &(impl Print + AllocGlobal),
    case: &Case,
    piece: usize,
    told: &Told,
) -> io::Result<bool> {
    let name = case.name.as_str();
    let status = told.status;
    let line = first_other_line(&told.written, &case.written);
    println!(rt; "{name}: in pieces of {piece} it ends with {status}, and line {line} is another")?;
    Ok(false)
}

// The number of the first line that is not the wanted one.
fn first_other_line(told: &[u8], wanted: &[u8]) -> usize {
    let mut line = 1usize;
    for (one, other) in told.iter().zip(wanted) {
        if *one != *other {
            break;
        }
        if *one == b'\n' {
            line = line.saturating_add(1);
        }
    }
    line
}

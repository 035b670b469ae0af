//! Declarations and queries that are read from texts.
use crate::texts::bytes_of;
use std::alloc::Global;
use tests_forms::FormFault;
use tw_fixity::FixTable;
use tw_lexer::{LexFault, Place, Tokens, lex};
use tw_parse::{ExtDecl, ExtQuery, SyntaxFault, parse_decl, parse_query};

/// How many bytes a text has at most here.
pub(crate) const LONGEST: usize = 1_000_000;

/// Where a text begins.
pub(crate) const START: Place = Place { line: 1, column: 1 };

fn fault_of(fault: LexFault) -> SyntaxFault {
    match fault {
        LexFault::Bad(at) => SyntaxFault::BadDecl(at),
        LexFault::TooMany(at) => SyntaxFault::BadDecl(at),
        LexFault::NoMemory => SyntaxFault::NoMemory,
    }
}

/// What the declaration that a text is is read as. No text is longer than a million bytes.
pub(crate) fn told_decl(
    alloc: Global,
    fixities: &FixTable,
    text: &str,
) -> Result<Result<ExtDecl, SyntaxFault>, FormFault> {
    let bytes = bytes_of(alloc, text)?;
    if bytes.len() >= LONGEST {
        return Err(FormFault::NoMeaning);
    }
    match lex(alloc, &bytes, 0, START) {
        Ok(tokens) => Ok(parse_decl(alloc, &tokens, &bytes, fixities)),
        Err(fault) => Ok(Err(fault_of(fault))),
    }
}

/// The same of a query.
pub(crate) fn told_query(
    alloc: Global,
    fixities: &FixTable,
    text: &str,
) -> Result<Result<ExtQuery, SyntaxFault>, FormFault> {
    let bytes = bytes_of(alloc, text)?;
    if bytes.len() >= LONGEST {
        return Err(FormFault::NoMeaning);
    }
    match lex(alloc, &bytes, 0, START) {
        Ok(tokens) => Ok(parse_query(alloc, &tokens, &bytes, fixities)),
        Err(fault) => Ok(Err(fault_of(fault))),
    }
}

/// The declaration that a text is. One that isn't read has no meaning.
pub(crate) fn read_decl(
    alloc: Global,
    fixities: &FixTable,
    text: &str,
) -> Result<ExtDecl, FormFault> {
    told_decl(alloc, fixities, text)?.or(Err(FormFault::NoMeaning))
}

/// The query that a text is.
pub(crate) fn read_query(
    alloc: Global,
    fixities: &FixTable,
    text: &str,
) -> Result<ExtQuery, FormFault> {
    told_query(alloc, fixities, text)?.or(Err(FormFault::NoMeaning))
}

/// The line that the bytes are.
pub(crate) fn line_of(alloc: Global, bytes: &[u8]) -> Result<String, FormFault> {
    Ok(String::from_utf8_lossy(alloc, bytes)?)
}

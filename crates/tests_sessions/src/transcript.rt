//! Transcripts: files of sessions, a line for each thing that is given or wanted. A line has a word, a space and a text.
//!
//! - `=`: a session begins, and has this name
//! - `row`: a session that a folder holds, by its name, and the names of the files in its `files/`
//! - `$`: one word behind the program's name
//! - `<`: a line of input
//! - `:`: a line of input behind the line `readDecl`
//! - `>`: a line that is to be written. The banner needs none
//! - `ok`, `no`: a line that is to be written, and behind it the line that ends a reply
//! - `@`: a file that can be loaded, by its name; its lines follow
//! - `|`: a line of that file
//! - `<.`, `>.`, `|.`: the same without an end of line
//! - `<*`, `>*`, `|*`: a number, and what comes so often, without an end of line
//! - `bare`: no banner is to be written
//! - `status`: the exit status, where it isn't 0
//! - `piece`: how many bytes a read gives at most, where it isn't tried with 1, 2, 3 and 4,096
//! - `read`, `write`, `file`: the number of the call that fails
//! - `in turn`: each read fails in turn, and each write
//! - `times`: how often the input is served over one session. What is to be written is so the last time
//!
//! A line that is empty or begins with `#` says nothing. In a text `\20` is the byte with these two hexadecimal digits.
use crate::case::Case;
use crate::escapes::{put_line, put_repeated, put_text};
use std::alloc::{AllocError, Global};
use std::io::ErrorKind;
use std::rt::Files;
use std::{fs, io};

/// Reads one line of a transcript behind these sessions, and says whether it is written as a line is.
pub fn read_line(
    rt: &(impl Files + AllocGlobal),
    cases: &mut Vec<Case>,
    line: &str,
) -> io::Result<bool> {
    let (word, text) = line.split_once(' ').unwrap_or((line, ""));
    match word {
        "" | "#" => Ok(true),
        "=" => Ok(begin(cases, Case::new(rt.alloc(), text)?)?),
        "row" => Ok(begin(cases, row(rt, text)?)?),
        _ => Ok(add_to_last(rt.alloc(), cases, word, text)?),
    }
}

// Puts the session behind the others.
fn begin(cases: &mut Vec<Case>, case: Case) -> Result<bool, AllocError> {
    cases.push(case)?;
    Ok(true)
}

// Adds what a line says to the newest session, and says whether there is one.
fn add_to_last(
    alloc: Global,
    cases: &mut Vec<Case>,
    word: &str,
    text: &str,
) -> Result<bool, AllocError> {
    match cases.last_mut() {
        Some(case) => add(alloc, case, word, text),
        None => Ok(false),
    }
}

// Adds what a line says to the session.
fn add(alloc: Global, case: &mut Case, word: &str, text: &str) -> Result<bool, AllocError> {
    match word {
        "<" | "<." | "<*" => put(alloc, &mut case.input, word, text),
        ">" | ">." | ">*" => put(alloc, &mut case.written, word, text),
        "|" | "|." | "|*" => put_in_file(alloc, &mut case.files, word, text),
        ":" => put_declaration(&mut case.input, text),
        "ok" => reply(&mut case.written, text, b"%% OK %%\n"),
        "no" => reply(&mut case.written, text, b"%% ABORT %%\n"),
        "$" => put_word(alloc, &mut case.words, text),
        "@" => begin_file(alloc, &mut case.files, text),
        _ => Ok(set(case, word, text)),
    }
}

// Puts a text behind the newest file, and says whether there is one.
fn put_in_file(
    alloc: Global,
    files: &mut Vec<(String, Vec<u8>)>,
    word: &str,
    text: &str,
) -> Result<bool, AllocError> {
    match files.last_mut() {
        Some(file) => put(alloc, &mut file.1, word, text),
        None => Ok(false),
    }
}

// Puts a declaration behind the input.
fn put_declaration(input: &mut Vec<u8>, text: &str) -> Result<bool, AllocError> {
    input.extend_from_slice(b"readDecl\n")?;
    put_line(input, text)
}

fn put_word(alloc: Global, words: &mut Vec<String>, word: &str) -> Result<bool, AllocError> {
    words.push(String::from_str(alloc, word)?)?;
    Ok(true)
}

// A file of this name begins.
fn begin_file(
    alloc: Global,
    files: &mut Vec<(String, Vec<u8>)>,
    name: &str,
) -> Result<bool, AllocError> {
    let name = String::from_str(alloc, name)?;
    files.push((name, Vec::new(alloc)))?;
    Ok(true)
}

// Puts a text behind the bytes: as a line, as it stands, or many times.
fn put(alloc: Global, bytes: &mut Vec<u8>, word: &str, text: &str) -> Result<bool, AllocError> {
    if word.ends_with('.') {
        put_text(bytes, text)
    } else if word.ends_with('*') {
        put_repeated(alloc, bytes, text)
    } else {
        put_line(bytes, text)
    }
}

// A reply of one line is to be written, with this line at its end.
fn reply(written: &mut Vec<u8>, text: &str, end: &[u8]) -> Result<bool, AllocError> {
    let is_read = put_line(written, text)?;
    written.extend_from_slice(end)?;
    Ok(is_read)
}

// Sets what a line of the session sets, and says whether there is such a thing.
fn set(case: &mut Case, word: &str, text: &str) -> bool {
    if word == "bare" {
        case.written.clear();
        return true;
    }
    if word == "in" {
        case.in_turn = true;
        return true;
    }
    match text.parse() {
        Ok(value) => case.set(word, value),
        Err(_) => false,
    }
}

// The session of a folder, with the names of its files behind the folder's name.
fn row(rt: &(impl Files + AllocGlobal), names: &str) -> io::Result<Case> {
    let (folder, _) = names.split_once(' ').unwrap_or((names, ""));
    let mut case = Case::new(rt.alloc(), folder)?;
    put_parts(rt, &mut case, folder)?;
    put_files(rt, &mut case.files, names)?;
    Ok(case)
}

// What a folder says of its session, but for the files that can be loaded.
fn put_parts(rt: &(impl Files + AllocGlobal), case: &mut Case, folder: &str) -> io::Result<()> {
    case.input = part(rt, folder, "input")?;
    case.written = part(rt, folder, "expected")?;
    put_words(rt.alloc(), &mut case.words, &part(rt, folder, "args")?)?;
    case.status = status_of(rt.alloc(), &part(rt, folder, "status")?)?;
    Ok(())
}

// The files of these names, behind the folder's name.
fn put_files(
    rt: &(impl Files + AllocGlobal),
    files: &mut Vec<(String, Vec<u8>)>,
    names: &str,
) -> io::Result<()> {
    let mut names = names.split(' ');
    let folder = names.next().unwrap_or("");
    for name in names {
        put_file(rt, files, folder, name)?;
    }
    Ok(())
}

// The bytes of a file in a folder, none where there is no such file.
fn part(rt: &(impl Files + AllocGlobal), folder: &str, name: &str) -> io::Result<Vec<u8>> {
    let path = format!(in rt.alloc(); "{folder}/{name}")?;
    match fs::read(rt, path) {
        Err(error) if error.kind() == ErrorKind::NotFound => Ok(Vec::new(rt.alloc())),
        answer => answer,
    }
}

// The words of a session, one a line.
fn put_words(alloc: Global, words: &mut Vec<String>, lines: &[u8]) -> Result<(), AllocError> {
    let lines = String::from_utf8_lossy(alloc, lines)?;
    for word in lines.lines() {
        put_word(alloc, words, word)?;
    }
    Ok(())
}

// The status of a session, 0 where none is given. What can't be read is no exit status, so that the session is told to differ.
fn status_of(alloc: Global, line: &[u8]) -> Result<u64, AllocError> {
    let line = String::from_utf8_lossy(alloc, line)?;
    Ok(match line.trim() {
        "" => 0,
        line => line.parse().unwrap_or(u64::MAX),
    })
}

// A file that the session can load.
fn put_file(
    rt: &(impl Files + AllocGlobal),
    files: &mut Vec<(String, Vec<u8>)>,
    folder: &str,
    name: &str,
) -> io::Result<()> {
    let path = format!(in rt.alloc(); "files/{name}")?;
    let bytes = part(rt, folder, path.as_str())?;
    let name = String::from_str(rt.alloc(), name)?;
    files.push((name, bytes))?;
    Ok(())
}

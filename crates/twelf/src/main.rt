//! The program: a session over standard input and output, and the files of the disk.
#![tactic(auto)]

use std::alloc::AllocError;
use std::env;
use std::io::ErrorKind;
use std::process::ExitCode;
use tw_ports::{DiskFiles, ReaderSource, WriterSink};
use tw_server::{Session, Status, exit_code, serve};

/// A word that no command line of the program has. It stands for words that are no text.
const NO_TEXT: &str = "--no-text";

// The words after the program's name.
fn words(rt: &HostRuntime) -> Result<Vec<String>, AllocError> {
    let alloc = rt.alloc();
    match env::args(rt) {
        Ok(all) => all.skip(1).collect(alloc),
        Err(error) if error.kind() == ErrorKind::OutOfMemory => Err(AllocError),
        Err(_) => {
            let mut words = Vec::new(alloc);
            words.push(String::from_str(alloc, NO_TEXT)?)?;
            Ok(words)
        }
    }
}

fn main(rt: HostRuntime) -> ExitCode {
    let alloc = rt.alloc();
    let Ok(mut session) = Session::new(alloc) else {
        return ExitCode::from(exit_code(&Status::NoMemory));
    };
    let Ok(words) = words(&rt) else {
        return ExitCode::from(exit_code(&Status::NoMemory));
    };
    let mut source = ReaderSource::new(rt.stdin());
    let mut sink = WriterSink::new(rt.stdout());
    let mut files = DiskFiles::new(rt);
    let status = serve(
        alloc,
        &words,
        &mut session,
        &mut source,
        &mut sink,
        &mut files,
    );
    ExitCode::from(exit_code(&status))
}

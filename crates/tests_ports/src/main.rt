//! Says what the ports give, take and answer, a line for each case.
#![tactic(auto)]

mod files;
mod slow_disk;
mod streams;
mod told;

use crate::told::Told;
use std::alloc::AllocError;
use std::io;

// What all of them say.
fn all_told(rt: HostRuntime) -> Result<Vec<u8>, AllocError> {
    let alloc = rt.alloc();
    let mut out = Told::new(alloc);
    streams::sources(alloc, &mut out)?;
    streams::sinks(alloc, &mut out)?;
    streams::writers(alloc, &mut out);
    files::in_memory(alloc, &mut out)?;
    files::slowly(alloc, &mut out)?;
    files::on_disk(rt, &mut out)?;
    out.whole()
}

fn main(rt: HostRuntime) -> io::Result<()> {
    let told = all_told(rt.clone()?)?;
    rt.write_all(&told)
}

//! Where bytes come from and go to: sources, sinks and stores of files, each of which counts its faults.
#![tactic(auto)]

mod disk;
mod files;
mod memory;
mod ports;
mod real;
mod slices;
mod sure;

pub use disk::DiskFiles;
pub use files::{FileAnswer, Files, MemFiles, SureFiles};
pub use memory::{MemSink, MemSource};
pub use ports::{ReadAnswer, Sink, Source, WriteAnswer};
pub use real::{ReaderSource, WriterSink};
pub use sure::{SureSink, SureSource};

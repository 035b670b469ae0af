//! Writing all of some bytes.
ghost use Rattle.std.specs.Prelude.{◌++◌};
ghost use Rattle.tw_server.specs.Counts.{CountsWrites};
ghost use Rattle.tw_server.specs.Written.{GainsReply};

use tw_ports::{Sink, WriteAnswer};

/// The sink has failed.
#[derive(Debug, Drop)]
pub struct Unwritten;

/// Writes all of the bytes, in as many writes as the sink needs.
pub fn write_all<K: Sink>(sink: &mut K, bytes: &[u8]) -> Result<(), Unwritten>
    ensures bytes { GainsReply (K.written sink.old) (K.written sink.new) bytes.now result }
    ensures counts { CountsWrites (K.faults sink.old) (K.faults sink.new) result }
{
    let mut at = 0;
    while at < bytes.len() {
        match sink.write(&bytes[at..]) {
            WriteAnswer::Took(count) => at += count,
            WriteAnswer::Failed => return Err(Unwritten),
        }
    }
    Ok(())
}

/// Writes some bytes, and others behind them.
pub fn write_both<K: Sink>(sink: &mut K, first: &[u8], second: &[u8]) -> Result<(), Unwritten>
    ensures bytes { GainsReply (K.written sink.old) (K.written sink.new) (first.now ++ second.now) result }
    ensures counts { CountsWrites (K.faults sink.old) (K.faults sink.new) result }
{
    match write_all(sink, first) {
        Ok(()) => write_all(sink, second),
        Err(error) => Err(error),
    }
}

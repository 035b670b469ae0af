//! Showing which families are below which.
ghost use Rattle.std.specs.Prelude.{◌≡◌, ◌<◌, IfOk, length};
ghost use Rattle.lf.specs.Entries.{signature_of};
ghost use Rattle.tw_decl.specs.View.{scene_of};
ghost use Rattle.tw_server.specs.Counts.{CountsWrites};
ghost use Rattle.tw_server.specs.Loaded.{IsSubordinationShown, Lists};
ghost use Rattle.tw_server.specs.Subordination.{ShowsBelow, below_line};

use crate::reply::{OK, Reply, write_reply};
use crate::word::add_word;
use crate::write::{Unwritten, write_all};
use std::alloc::{AllocError, Global};
use tw_decl::{Session, subordination};
use tw_ports::Sink;
use tw_subord::Subord;
use tw_terms::ConstId;

// The line of a family: `below b:`, and behind it these families.
fn below_line(
    alloc: Global,
    session: &Session,
    family: ConstId,
    families: &[u64],
) -> Result<Vec<u8>, AllocError>
    ensures { IfOk result (λ line. line.items ≡ below_line (scene_of session.now) family.0 families.now) }
{
    let mut line = b"below ".to_vec(alloc)?;
    add_word(&mut line, session, family)?;
    line.push(b':')?;
    for number in families {
        line.push(b' ')?;
        add_word(&mut line, session, ConstId(*number))?;
    }
    line.push(b'\n')?;
    Ok(line)
}

// What is shown of an entry: of a family its line, and else nothing.
fn entry_line(
    alloc: Global,
    session: &Session,
    subord: &Subord,
    id: ConstId,
) -> Result<Vec<u8>, AllocError>
    requires lists { Lists session.now subord.now }
    requires within { id.0 < length session.now.signature }
    ensures { IfOk result (λ line. ShowsBelow session.now id.0 ((signature_of session.now.signature).kinds id.0) line.items) }
{
    match session.signature().family_kind(id) {
        Some(_) => below_line(alloc, session, id, subord.families_below(id)),
        None => Ok(Vec::new(alloc)),
    }
}

/// Writes for each family those below it, in order.
pub fn show_subordination<K: Sink>(
    alloc: Global,
    session: &Session,
    sink: &mut K,
) -> Result<(), Unwritten>
    ensures reply { IsSubordinationShown session.now (K.written sink.old) (K.written sink.new) result }
    ensures counts { CountsWrites (K.faults sink.old) (K.faults sink.new) result }
{
    let Ok(subord) = subordination(alloc, session) else {
        return write_reply(sink, &Reply::NoMemory);
    };
    let count = session.signature().len();
    for number in 0..count {
        match entry_line(alloc, session, &subord, ConstId(number)) {
            Ok(line) => {
                if let Err(error) = write_all(sink, &line) {
                    return Err(error);
                }
            }
            Err(_) => return write_reply(sink, &Reply::NoMemory),
        }
    }
    write_all(sink, OK)
}

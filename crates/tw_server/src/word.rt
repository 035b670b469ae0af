//! The names of entries, as they are shown.
ghost use Rattle.std.specs.Prelude.{◌≡◌, ◌++◌, OnOk, option_map};
ghost use Rattle.lf.specs.Entries.{entry as entry_numbered};
ghost use Rattle.tw_decl.specs.View.{scene_of};
ghost use Rattle.tw_print.specs.Names.{constant_word, is_newest, is_plain, name_in};

use std::alloc::AllocError;
use tw_decl::Session;
use tw_terms::ConstId;

// The name of an entry, which is empty where no entry has this number.
fn name(session: &Session, id: ConstId) -> &[u8]
    ensures { result.now ≡ name_in (entry_numbered session.now.signature id.0) }
{
    match session.signature().entry(id) {
        Some(entry) => entry.name.as_bytes(),
        None => b"",
    }
}

// Whether this is the number of the newest entry of a name.
fn is_newest(newest: Option<ConstId>, id: ConstId) -> bool
    ensures { result ≡ is_newest (option_map (λ n. n.0) newest) id.0 }
{
    match newest {
        Some(newest) => newest.0 == id.0,
        None => false,
    }
}

// Whether an entry is the newest of its name.
fn is_plain(session: &Session, id: ConstId) -> bool
    ensures { result ≡ is_plain (scene_of session.now) id.0 }
{
    is_newest(session.signature().lookup_bytes(name(session, id)), id)
}

/// Adds the name of an entry to a line, between percent signs where a newer entry has it too.
pub fn add_word(line: &mut Vec<u8>, session: &Session, id: ConstId) -> Result<(), AllocError>
    ensures { OnOk result (line.new.items ≡ line.old.items ++ constant_word (scene_of session.now) id.0) }
{
    if is_plain(session, id) {
        return line.extend_from_slice(name(session, id));
    }
    line.push(b'%')?;
    line.extend_from_slice(name(session, id))?;
    line.push(b'%')?;
    Ok(())
}

//! Preferred names: what a declaration of them asks of its family, and its line.
ghost use Rattle.std.specs.Prelude.{◌≡◌, ◌++◌, IfOk, OnOk};
ghost use Rattle.lf.specs.Entries.{entry as entry_numbered};
ghost use Rattle.tw_print.specs.View.{preferences_of};
ghost use Rattle.tw_decl.specs.Preferences.{is_family, lower_word, preference_line};

use std::alloc::{AllocError, Global};
use tw_fixity::{Name, copy_option};
use tw_print::Preference;
use tw_signature::{Body, Signature};
use tw_terms::ConstId;

/// Whether the entry of this number is a family.
pub fn is_family(signature: &Signature, id: ConstId) -> bool
    ensures { result ≡ is_family (entry_numbered signature.now id.0) }
{
    match signature.entry(id) {
        Some(entry) => matches!(&entry.body, Body::Family(_)),
        None => false,
    }
}

// Puts the name for bound variables behind a line, if it is written.
fn push_lower(line: &mut Vec<u8>, lower: &Option<Name>) -> Result<(), AllocError>
    ensures { OnOk result (line.new.items ≡ line.old.items ++ lower_word lower.now) }
{
    if let Some(lower) = lower {
        line.push(b' ')?;
        line.extend_from_slice(lower.as_bytes())?;
    }
    Ok(())
}

/// The line of a declaration of preferred names. Fails only for want of memory.
pub fn preference_line(
    alloc: Global,
    family: &Name,
    upper: &Name,
    lower: &Option<Name>,
) -> Result<Vec<u8>, AllocError>
    ensures { IfOk result (λ line. line.items ≡ preference_line family.now upper.now lower.now) }
{
    let mut line = b"%name ".to_vec(alloc)?;
    line.extend_from_slice(family.as_bytes())?;
    line.push(b' ')?;
    line.extend_from_slice(upper.as_bytes())?;
    push_lower(&mut line, lower)?;
    line.extend_from_slice(b".\n")?;
    Ok(line)
}

/// The row of these names. Fails only for want of memory.
pub fn preference(
    alloc: Global,
    upper: &Name,
    lower: &Option<Name>,
) -> Result<Preference, AllocError>
    ensures { IfOk result (λ row. preferences_of row ≡ (upper.now, lower.now)) }
{
    Ok(Preference {
        upper: upper.copy(alloc)?,
        lower: copy_option(alloc, lower)?,
    })
}

//! Lines of entries, and texts of terms and types in contexts.
use crate::entries::read_entry;
use crate::reading::line_of;
use crate::typed::{read_typed_term, read_typed_type};
use crate::world::World;
use std::alloc::Global;
use tests_forms::FormFault;
use tw_print::{ShowEnv, show_decl, show_entry, show_term, show_type};
use tw_terms::ConstId;

/// Adds the entry of the forms, and gives its line, which has to be the same before and after. What is named `_` isn't added.
pub(crate) fn added(alloc: Global, world: &mut World, text: &str) -> Result<String, FormFault> {
    let entry = read_entry(alloc, world, text)?;
    let env = ShowEnv {
        sig: &world.signature,
        fixities: &world.fixities,
        names: &world.preferences,
        implicit: world.implicit,
    };
    let before = line_of(alloc, &show_entry(alloc, &env, &entry)?)?;
    if entry.name.as_bytes() == b"_".as_slice() {
        return Ok(before);
    }
    let number = world.signature.len();
    world.add(alloc, entry)?;
    let after = entry_line(alloc, world, ConstId(number))?;
    if before.as_str() == after.as_str() {
        Ok(before)
    } else {
        Ok(format!(in alloc; "{before} before, and {after} after")?)
    }
}

/// The line of the entry of this name.
pub(crate) fn entry(alloc: Global, world: &World, text: &str) -> Result<String, FormFault> {
    entry_line(alloc, world, world.names.constant(text)?)
}

fn entry_line(alloc: Global, world: &World, id: ConstId) -> Result<String, FormFault> {
    if id.0 >= world.signature.len() {
        return Err(FormFault::NoMeaning);
    }
    let env = ShowEnv {
        sig: &world.signature,
        fixities: &world.fixities,
        names: &world.preferences,
        implicit: world.implicit,
    };
    line_of(alloc, &show_decl(alloc, &env, id)?)
}

/// The text of a type in a context.
pub(crate) fn ty(alloc: Global, world: &mut World, text: &str) -> Result<String, FormFault> {
    let (context, ty) = read_typed_type(alloc, world, text)?;
    let env = ShowEnv {
        sig: &world.signature,
        fixities: &world.fixities,
        names: &world.preferences,
        implicit: world.implicit,
    };
    line_of(alloc, &show_type(alloc, &env, &context, &ty)?)
}

/// The text of a term in a context.
pub(crate) fn term(alloc: Global, world: &mut World, text: &str) -> Result<String, FormFault> {
    let (context, term, ty) = read_typed_term(alloc, world, text)?;
    let env = ShowEnv {
        sig: &world.signature,
        fixities: &world.fixities,
        names: &world.preferences,
        implicit: world.implicit,
    };
    line_of(alloc, &show_term(alloc, &env, &context, &term, &ty)?)
}

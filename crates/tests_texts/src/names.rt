//! What names name, and what is read off a text as it stands.
use crate::line::Line;
use crate::reading::read_decl;
use crate::reconstruction::mention_line;
use crate::world::World;
use std::alloc::{AllocError, Global};
use tests_forms::{FormFault, number_of};
use tw_fixity::{Name, Scope};
use tw_names::{binder_name, ends_in_type, first_mention, hints, named, nested};
use tw_parse::{ExtDecl, ExtTerm};
use tw_terms::Head;

// the type of a constant that is declared
fn declared(decl: &ExtDecl) -> Result<&ExtTerm, FormFault> {
    match decl {
        ExtDecl::Declare(_, _, ty) => Ok(ty),
        _ => Err(FormFault::NoMeaning),
    }
}

/// What the name names among the variables behind it, from the outermost; one that is written `_` has no name.
pub(crate) fn meaning(alloc: Global, world: &World, text: &str) -> Result<String, FormFault> {
    let (name, _) = text.split_once(' ').unwrap_or((text, ""));
    let name = Name::from_text(alloc, name)?;
    let scope = scope_of(alloc, text)?;
    head_line(alloc, named(&world.signature, &scope, &name))
}

// the variables behind the first word
fn scope_of(alloc: Global, text: &str) -> Result<Scope, AllocError> {
    let mut words = text.split(' ');
    words.next();
    let mut scope = Scope::new(alloc);
    for word in words {
        push_variable(alloc, &mut scope, word)?;
    }
    Ok(scope)
}

fn push_variable(alloc: Global, scope: &mut Scope, word: &str) -> Result<(), AllocError> {
    if word == "_" {
        scope.push(None)?;
    } else {
        scope.push(Some(Name::from_text(alloc, word)?))?;
    }
    Ok(())
}

fn head_line(alloc: Global, head: Option<Head>) -> Result<String, FormFault> {
    match head {
        Some(Head::Var(variable)) => Ok(format!(in alloc; "variable {variable}")?),
        Some(Head::Const(id)) => Ok(format!(in alloc; "constant {}", id.0)?),
        None => Ok(String::from_str(alloc, "none")?),
    }
}

/// The name that a binder gives its variable.
pub(crate) fn bound(alloc: Global, text: &str) -> Result<String, FormFault> {
    let written = Name::from_text(alloc, text)?;
    let name = binder_name(alloc, &written)?;
    let mut line = Line::new(alloc);
    line.put_name_or(&name, "none");
    Ok(line.whole()?)
}

/// The first unknown name of a definition, and where it stands.
pub(crate) fn unknown(alloc: Global, world: &World, text: &str) -> Result<String, FormFault> {
    let decl = read_decl(alloc, &world.fixities, text)?;
    match &decl {
        ExtDecl::Define(_, ty, term, _) => unknown_line(alloc, world, ty, term),
        _ => Err(FormFault::NoMeaning),
    }
}

fn unknown_line(
    alloc: Global,
    world: &World,
    ty: &Option<ExtTerm>,
    term: &ExtTerm,
) -> Result<String, FormFault> {
    let found = first_mention(alloc, &world.signature, ty, term)?;
    Ok(mention_line(alloc, &found)?)
}

/// How many quantifiers lead a type, and their names; `-` stands for no name.
pub(crate) fn quantified(alloc: Global, world: &World, text: &str) -> Result<String, FormFault> {
    let decl = read_decl(alloc, &world.fixities, text)?;
    let hints = hints(alloc, declared(&decl)?)?;
    Ok(hints_line(alloc, &hints)?)
}

fn hints_line(alloc: Global, hints: &[Option<Name>]) -> Result<String, AllocError> {
    let mut line = Line::new(alloc);
    line.put_number(hints.len() as u64);
    line.put(":");
    for hint in hints {
        line.put(" ");
        line.put_name_or(hint, "-");
    }
    line.whole()
}

/// Whether what is declared ends in `type`.
pub(crate) fn is_kind(alloc: Global, world: &World, text: &str) -> Result<String, FormFault> {
    let decl = read_decl(alloc, &world.fixities, text)?;
    let ends = ends_in_type(declared(&decl)?);
    Ok(format!(in alloc; "{ends}")?)
}

/// How many frames are left behind a call.
pub(crate) fn frames(alloc: Global, text: &str) -> Result<String, FormFault> {
    let count = u32::try_from(number_of(text)?).or(Err(FormFault::NoMeaning))?;
    match nested(count) {
        Ok(left) => Ok(format!(in alloc; "{left}")?),
        Err(_) => Ok(String::from_str(alloc, "none")?),
    }
}

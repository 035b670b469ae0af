//! What a line of a case does: it changes what stands before the questions, or it is a question itself.
use crate::world::World;
use crate::{
    equations, names, parsing, printing, reconstruction, resolution, shown, skeletons, tokens,
};
use std::alloc::Global;
use tests_forms::{Case, Field, FormFault};

/// Does what the line says, and gives what came out if it is a question.
pub(crate) fn done(
    alloc: Global,
    cases: &[Case],
    world: &mut World,
    field: &Field,
) -> Result<Option<String>, FormFault> {
    world.names.forget_all_but_constants(alloc);
    if field.word.as_str() == "in" {
        *world = World::new(alloc);
        settle(alloc, cases, world, field.text.as_str())?;
        return Ok(None);
    }
    if is_set(alloc, world, field)? {
        Ok(None)
    } else {
        Ok(Some(answer(alloc, world, field.word.as_str(), field.text.as_str())?))
    }
}

// The setting of this name, which stands once; what its questions answer is dropped.
fn settle(alloc: Global, cases: &[Case], world: &mut World, name: &str) -> Result<(), FormFault> {
    let mut count = 0u64;
    for case in cases {
        if case.kind.as_str() == "setting" && case.name.as_str() == name {
            count = count.saturating_add(1);
            settle_fields(alloc, world, &case.fields)?;
        }
    }
    if count == 1 {
        Ok(())
    } else {
        Err(FormFault::NoMeaning)
    }
}

fn settle_fields(alloc: Global, world: &mut World, fields: &[Field]) -> Result<(), FormFault> {
    for field in fields {
        world.names.forget_all_but_constants(alloc);
        settle_field(alloc, world, field)?;
    }
    Ok(())
}

fn settle_field(alloc: Global, world: &mut World, field: &Field) -> Result<(), FormFault> {
    if !is_set(alloc, world, field)? {
        answer(alloc, world, field.word.as_str(), field.text.as_str())?;
    }
    Ok(())
}

// Whether the line isn't a question; then it is done.
fn is_set(alloc: Global, world: &mut World, field: &Field) -> Result<bool, FormFault> {
    let text = field.text.as_str();
    match field.word.as_str() {
        "declare" => world.declare(alloc, text)?,
        "operators" => world.set_operators(alloc, text)?,
        "prefer" => world.prefer(alloc, text)?,
        "implicit" => world.set_implicit(text)?,
        _ => return Ok(false),
    }
    Ok(true)
}

// What came out of a question. These ones ask of nothing that is declared.
fn answer(alloc: Global, world: &mut World, word: &str, text: &str) -> Result<String, FormFault> {
    match word {
        "classes" => tokens::classes(alloc, text),
        "classes-from" => tokens::sixteen_classes(alloc, text),
        "tokens" => tokens::tokens(alloc, text),
        "count" => tokens::count(alloc, text),
        "declarations" => tokens::declarations(alloc, text),
        "token-behind" => tokens::token_behind(alloc, text),
        "cut" => tokens::cut(alloc, text),
        "said" => tokens::said(alloc, text),
        "binder" => names::bound(alloc, text),
        "frames" => names::frames(alloc, text),
        "outside" => shown::outer(alloc, text),
        "marks" => shown::marks(alloc, text),
        _ => answer_of_forms(alloc, world, word, text),
    }
}

// The same where the question is made of forms.
fn answer_of_forms(
    alloc: Global,
    world: &mut World,
    word: &str,
    text: &str,
) -> Result<String, FormFault> {
    match word {
        "add" => printing::added(alloc, world, text),
        "show-type" => printing::ty(alloc, world, text),
        "show-term" => printing::term(alloc, world, text),
        "equation" => equations::equation(alloc, world, text),
        "shown-in-term" => shown::in_term(alloc, world, text),
        "shown-in-type" => shown::in_type(alloc, world, text),
        "name-shown" => shown::named(alloc, world, text),
        _ => answer_of_text(alloc, world, word, text),
    }
}

// The same where it is a text.
fn answer_of_text(
    alloc: Global,
    world: &World,
    word: &str,
    text: &str,
) -> Result<String, FormFault> {
    match word {
        "decl" => parsing::decl(alloc, world, text),
        "read" => parsing::is_read(alloc, world, text),
        "query" => parsing::query(alloc, world, text),
        "meaning" => names::meaning(alloc, world, text),
        "unknown" => names::unknown(alloc, world, text),
        "hints" => names::quantified(alloc, world, text),
        "is-kind" => names::is_kind(alloc, world, text),
        "skeletons" => skeletons::of_decl(alloc, world, text),
        "skeletons-of-query" => skeletons::of_query(alloc, world, text),
        "resolve" => resolution::declaration(alloc, world, text),
        "resolve-goal" => resolution::goal(alloc, world, text),
        "resolve-alone" => resolution::alone(alloc, world, text),
        "reconstruct" => reconstruction::entry(alloc, world, text),
        "is-declared" => reconstruction::is_declared(alloc, world, text),
        "ask" => reconstruction::asked(alloc, world, text),
        "goal" => reconstruction::goal(alloc, world, text),
        "first-free" => reconstruction::first_free(alloc, world, text),
        "show" => printing::entry(alloc, world, text),
        _ => Err(FormFault::NoMeaning),
    }
}

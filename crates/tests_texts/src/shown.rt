//! Lists of variables that are shown. A variable has its number, from the innermost.
use crate::line::Line;
use crate::typed::{read_typed_term, read_typed_type};
use crate::world::World;
use std::alloc::{AllocError, Global};
use tests_forms::{Form, FormFault, number_of, read_closed_context, read_forms};
use tw_fixity::{Name, Scope};
use tw_print::ShowEnv;
use tw_shown::{name_shown, outside, shown_in_term, shown_in_type, shown_marks};
use tw_terms::Context;

fn list_line(alloc: Global, numbers: &[u64]) -> Result<String, FormFault> {
    let mut line = Line::new(alloc);
    for number in numbers {
        line.put_blank();
        line.put_number(*number);
    }
    Ok(line.whole()?)
}

/// The variables that a term shows.
#[tactic(auto, using(tw_print::proofs::Typed::context_showable, tw_print::proofs::Typed::type_showable, lf::proofs::ToSkeletons::typed_has_skeleton))]
pub(crate) fn in_term(alloc: Global, world: &mut World, text: &str) -> Result<String, FormFault> {
    let (context, term, ty) = read_typed_term(alloc, world, text)?;
    let env = ShowEnv {
        sig: &world.signature,
        fixities: &world.fixities,
        names: &world.preferences,
        implicit: world.implicit,
    };
    let shown = shown_in_term(alloc, &env, &context, &term, &ty)?;
    list_line(alloc, &shown)
}

/// The variables that a type shows.
#[tactic(auto, using(tw_print::proofs::Typed::context_showable, tw_print::proofs::Typed::type_showable))]
pub(crate) fn in_type(alloc: Global, world: &mut World, text: &str) -> Result<String, FormFault> {
    let (context, ty) = read_typed_type(alloc, world, text)?;
    let env = ShowEnv {
        sig: &world.signature,
        fixities: &world.fixities,
        names: &world.preferences,
        implicit: world.implicit,
    };
    let shown = shown_in_type(alloc, &env, &context, &ty)?;
    list_line(alloc, &shown)
}

// The numbers that the forms are.
fn numbers_of(alloc: Global, forms: &[Form]) -> Result<Vec<u64>, FormFault> {
    let mut numbers = Vec::new(alloc);
    for form in forms {
        numbers.push(number_at(form)?)?;
    }
    Ok(numbers)
}

fn number_at(form: &Form) -> Result<u64, FormFault> {
    number_of(form.word().ok_or(FormFault::NoMeaning)?)
}

// The same of a text.
fn read_numbers(alloc: Global, text: &str) -> Result<Vec<u64>, FormFault> {
    let forms = read_forms(alloc, text)?;
    numbers_of(alloc, &forms)
}

/// Of the numbers behind the first, which are outside of so many innermost variables, and as what.
pub(crate) fn outer(alloc: Global, text: &str) -> Result<String, FormFault> {
    let numbers = read_numbers(alloc, text)?;
    outer_line(alloc, &numbers)
}

fn outer_line(alloc: Global, numbers: &[u64]) -> Result<String, FormFault> {
    let (count, shown) = numbers.split_first().ok_or(FormFault::NoMeaning)?;
    let outside = outside(alloc, shown, *count)?;
    list_line(alloc, &outside)
}

/// For each of so many innermost variables as the first number says whether it is among the others.
pub(crate) fn marks(alloc: Global, text: &str) -> Result<String, FormFault> {
    let numbers = read_numbers(alloc, text)?;
    let (count, shown) = numbers
        .as_slice()
        .split_first()
        .ok_or(FormFault::NoMeaning)?;
    let marks = shown_marks(alloc, shown, *count as usize)?;
    Ok(marks_line(alloc, &marks)?)
}

fn marks_line(alloc: Global, marks: &[bool]) -> Result<String, AllocError> {
    let mut line = Line::new(alloc);
    for mark in marks {
        line.put(if *mark { "+" } else { "-" });
    }
    line.whole()
}

// The names that the forms are; `_` is none.
fn names_of(alloc: Global, forms: &[Form]) -> Result<Vec<Option<Name>>, FormFault> {
    let mut names = Vec::new(alloc);
    for form in forms {
        names.push(name_at(alloc, form)?)?;
    }
    Ok(names)
}

fn name_at(alloc: Global, form: &Form) -> Result<Option<Name>, FormFault> {
    match form.word() {
        Some("_") => Ok(None),
        Some(word) => Ok(Some(Name::from_text(alloc, word)?)),
        None => Err(FormFault::NoMeaning),
    }
}

/// Of `(CONTEXT) (SHOWN ..) (NAME ..) (TAKEN ..)`, with the names from the innermost variable on: the names of all variables, after those that are shown got theirs.
pub(crate) fn named(alloc: Global, world: &mut World, text: &str) -> Result<String, FormFault> {
    let forms = read_forms(alloc, text)?;
    let [
        Form::Group(context),
        Form::Group(shown),
        Form::Group(names),
        Form::Group(taken),
    ] = forms.as_slice()
    else {
        return Err(FormFault::NoMeaning);
    };
    let context = read_closed_context(alloc, &mut world.names, context.as_slice())?;
    let shown = numbers_of(alloc, shown.as_slice())?;
    let names = all_named(alloc, world, &context, &shown, names, taken)?;
    Ok(names_line(alloc, &names)?)
}

// The names of all variables of the context.
fn all_named(
    alloc: Global,
    world: &World,
    context: &Context,
    shown: &[u64],
    names: &[Form],
    taken: &[Form],
) -> Result<Vec<Option<Name>>, FormFault> {
    let mut names = names_of(alloc, names)?;
    let scope = scope_of(alloc, taken)?;
    let env = ShowEnv {
        sig: &world.signature,
        fixities: &world.fixities,
        names: &world.preferences,
        implicit: world.implicit,
    };
    name_shown(alloc, &env, context, shown, &mut names, scope)?;
    Ok(names)
}

fn scope_of(alloc: Global, forms: &[Form]) -> Result<Scope, FormFault> {
    let mut scope = Scope::new(alloc);
    for form in forms {
        scope.push(name_at(alloc, form)?)?;
    }
    Ok(scope)
}

fn names_line(alloc: Global, names: &[Option<Name>]) -> Result<String, AllocError> {
    let mut line = Line::new(alloc);
    for name in names {
        line.put_blank();
        line.put_name_or(name, "_");
    }
    line.whole()
}

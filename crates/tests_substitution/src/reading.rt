//! Terms, types and skeletons read from the words of a case.
use std::alloc::Global;
use tests_forms::{Case, FormFault, Names, number_of, read_forms};
use tw_putting::open_skeleton;
use tw_terms::{Open, OpenContext, OpenSpine, OpenTy, Skeleton};

/// The term that a word of the case says.
pub(crate) fn read_term(
    alloc: Global,
    names: &mut Names,
    case: &Case,
    word: &str,
) -> Result<Open, FormFault> {
    let form = case.form(alloc, word)?;
    tests_forms::read_term(alloc, names, &form)
}

/// The type that a word of the case says.
pub(crate) fn read_type(
    alloc: Global,
    names: &mut Names,
    case: &Case,
    word: &str,
) -> Result<OpenTy, FormFault> {
    let form = case.form(alloc, word)?;
    tests_forms::read_type(alloc, names, &form)
}

/// The arguments that the word `arguments` says.
pub(crate) fn read_arguments(
    alloc: Global,
    names: &mut Names,
    case: &Case,
) -> Result<OpenSpine, FormFault> {
    let forms = read_forms(alloc, case.text("arguments")?)?;
    tests_forms::read_spine(alloc, names, &forms)
}

/// The number that a word of the case says.
pub(crate) fn read_number(case: &Case, word: &str) -> Result<u64, FormFault> {
    number_of(case.text(word)?)
}

/// The skeleton of the type that the word `of` says.
pub(crate) fn read_skeleton(
    alloc: Global,
    names: &mut Names,
    case: &Case,
) -> Result<Skeleton, FormFault> {
    let ty = read_type(alloc, names, case, "of")?;
    Ok(open_skeleton(alloc, &ty)?)
}

/// The skeletons of the variables that a word of the case says, the newest first. The variables stay in scope.
pub(crate) fn read_skeletons(
    alloc: Global,
    names: &mut Names,
    case: &Case,
    word: &str,
) -> Result<Vec<Skeleton>, FormFault> {
    let context = read_context(alloc, names, case, word)?;
    skeletons_of(alloc, &context)
}

fn read_context(
    alloc: Global,
    names: &mut Names,
    case: &Case,
    word: &str,
) -> Result<OpenContext, FormFault> {
    let forms = read_forms(alloc, case.text(word)?)?;
    tests_forms::read_context(alloc, names, &forms)
}

fn skeletons_of(alloc: Global, context: &OpenContext) -> Result<Vec<Skeleton>, FormFault> {
    let mut skeletons = Vec::new(alloc);
    for variable in 0..context.len() as u64 {
        add_skeleton(alloc, context, variable, &mut skeletons)?;
    }
    Ok(skeletons)
}

// Adds the skeleton of the variable.
fn add_skeleton(
    alloc: Global,
    context: &OpenContext,
    variable: u64,
    skeletons: &mut Vec<Skeleton>,
) -> Result<(), FormFault> {
    match context.get(variable) {
        Some(ty) => {
            skeletons.push(open_skeleton(alloc, ty)?)?;
            Ok(())
        }
        None => Err(FormFault::NoMeaning),
    }
}

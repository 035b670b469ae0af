//! Cases of a term in the place of a variable, or on arguments.
use crate::reading::{read_arguments, read_skeleton, read_skeletons, read_term, read_type};
use crate::showing::{put_found, put_found_type};
use crate::substitution::{Around, applied, instantiated, substituted, substituted_type};
use std::alloc::Global;
use tests_forms::{Case, Form, FormFault, Names, read_forms};
use tw_terms::{Open, OpenTy, Skeleton};

/// What is put in, the type of the variable that it is put in for, and the skeletons of the inner variables.
#[derive(Drop)]
struct Argument {
    arg: Open,
    ty: OpenTy,
    inner: Vec<Skeleton>,
}

/// Adds what comes out of a case whose terms stand in the context of the outer variables, the variable and the inner ones.
pub(crate) fn put_answer(
    alloc: Global,
    around: Around<'_>,
    names: &mut Names,
    case: &Case,
    line: &mut String,
) -> Result<(), FormFault> {
    match case.kind.as_str() {
        "apply" => put_applied(alloc, around, names, case, line),
        _ => put_argument(alloc, around, names, case, line),
    }
}

// The term `term`, of the type `of`, on `arguments`.
fn put_applied(
    alloc: Global,
    around: Around<'_>,
    names: &mut Names,
    case: &Case,
    line: &mut String,
) -> Result<(), FormFault> {
    let ty = read_type(alloc, names, case, "of")?;
    put_applied_at(alloc, around, names, case, &ty, line)
}

fn put_applied_at(
    alloc: Global,
    around: Around<'_>,
    names: &mut Names,
    case: &Case,
    ty: &OpenTy,
    line: &mut String,
) -> Result<(), FormFault> {
    let term = read_term(alloc, names, case, "term")?;
    let spine = read_arguments(alloc, names, case)?;
    let found = applied(alloc, around, &term, &spine, ty);
    put_found(alloc, line, names, &found)
}

// The argument `arg` for the variable that `variable` names and types.
fn put_argument(
    alloc: Global,
    around: Around<'_>,
    names: &mut Names,
    case: &Case,
    line: &mut String,
) -> Result<(), FormFault> {
    let arg = read_term(alloc, names, case, "arg")?;
    let scope = names.scope();
    let argument = read_argument(alloc, names, case, arg)?;
    let around = Around {
        signature: around.signature,
        store: around.store,
        inner: &argument.inner,
        outer: around.outer,
    };
    put_body(alloc, around, names, case, scope, &argument, line)
}

// The variable and then the inner variables come into scope.
fn read_argument(
    alloc: Global,
    names: &mut Names,
    case: &Case,
    arg: Open,
) -> Result<Argument, FormFault> {
    let ty = read_variable(alloc, names, case)?;
    let inner = read_skeletons(alloc, names, case, "inner")?;
    Ok(Argument { arg, ty, inner })
}

// The type of the variable, which comes into scope.
fn read_variable(alloc: Global, names: &mut Names, case: &Case) -> Result<OpenTy, FormFault> {
    let forms = read_forms(alloc, case.text("variable")?)?;
    variable_of(alloc, names, &forms)
}

fn variable_of(alloc: Global, names: &mut Names, forms: &[Form]) -> Result<OpenTy, FormFault> {
    match forms {
        [Form::Word(name), form] => {
            let ty = tests_forms::read_type(alloc, names, form)?;
            names.push_variable(alloc, name.as_str())?;
            Ok(ty)
        }
        _ => Err(FormFault::NoMeaning),
    }
}

fn put_body(
    alloc: Global,
    around: Around<'_>,
    names: &mut Names,
    case: &Case,
    scope: usize,
    argument: &Argument,
    line: &mut String,
) -> Result<(), FormFault> {
    match case.kind.as_str() {
        "substitute" if case.text("term")?.is_empty() => {
            put_type(alloc, around, names, case, scope, argument, line)
        }
        "substitute" => put_term(alloc, around, names, case, scope, argument, line),
        _ => put_instance(alloc, around, names, case, scope, argument, line),
    }
}

fn put_term(
    alloc: Global,
    around: Around<'_>,
    names: &mut Names,
    case: &Case,
    scope: usize,
    argument: &Argument,
    line: &mut String,
) -> Result<(), FormFault> {
    let made = read_skeleton(alloc, names, case)?;
    let body = read_term(alloc, names, case, "term")?;
    leave_variable(alloc, names, case, scope)?;
    let found = substituted(alloc, around, &body, &made, &argument.arg, &argument.ty);
    put_found(alloc, line, names, &found)
}

fn put_type(
    alloc: Global,
    around: Around<'_>,
    names: &mut Names,
    case: &Case,
    scope: usize,
    argument: &Argument,
    line: &mut String,
) -> Result<(), FormFault> {
    let body = read_type(alloc, names, case, "type")?;
    leave_variable(alloc, names, case, scope)?;
    let found = substituted_type(alloc, around, &body, &argument.arg, &argument.ty);
    put_found_type(alloc, line, names, &found)
}

fn put_instance(
    alloc: Global,
    around: Around<'_>,
    names: &mut Names,
    case: &Case,
    scope: usize,
    argument: &Argument,
    line: &mut String,
) -> Result<(), FormFault> {
    let body = read_type(alloc, names, case, "type")?;
    leave_variable(alloc, names, case, scope)?;
    let found = instantiated(alloc, around, &body, &argument.arg, &argument.ty);
    put_found_type(alloc, line, names, &found)
}

// The scope of the outer variables, so many, and the inner ones.
fn leave_variable(
    alloc: Global,
    names: &mut Names,
    case: &Case,
    scope: usize,
) -> Result<(), FormFault> {
    names.leave_scope(scope);
    let forms = read_forms(alloc, case.text("inner")?)?;
    push_names(alloc, names, &forms)
}

fn push_names(alloc: Global, names: &mut Names, forms: &[Form]) -> Result<(), FormFault> {
    for variable in forms.chunks(2) {
        push_name(alloc, names, variable)?;
    }
    Ok(())
}

fn push_name(alloc: Global, names: &mut Names, variable: &[Form]) -> Result<(), FormFault> {
    match variable {
        [Form::Word(name), _] => Ok(names.push_variable(alloc, name.as_str())?),
        _ => Err(FormFault::NoMeaning),
    }
}

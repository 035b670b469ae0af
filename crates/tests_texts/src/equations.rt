//! Texts of equations.
use crate::reading::line_of;
use crate::world::World;
use std::alloc::Global;
use tests_forms::{Form, FormFault, Names, read_context, read_forms, read_term, read_type};
use tw_equation::show_equation;
use tw_fixity::Name;
use tw_metas::{Equation, LeftEquation};
use tw_print::ShowEnv;
use tw_terms::{OpenContext, OpenTy};

// The name of a metavariable that is written `(NAME TYPE)`, and its type.
fn parts(form: &Form) -> Result<(&str, &Form), FormFault> {
    match form.parts() {
        Some((name, [ty])) => Ok((name, ty)),
        _ => Err(FormFault::NoMeaning),
    }
}

// The equation `((META TYPE) ..) (CONTEXT) TERM = TERM : TYPE`. A metavariable whose word begins with `?` has no name. Types may mention all of them.
fn read_equation(alloc: Global, names: &mut Names, text: &str) -> Result<LeftEquation, FormFault> {
    let forms = read_forms(alloc, text)?;
    let [
        Form::Group(metas),
        Form::Group(context),
        left,
        Form::Word(equals),
        right,
        Form::Word(colon),
        ty,
    ] = forms.as_slice()
    else {
        return Err(FormFault::NoMeaning);
    };
    if equals.as_str() != "=" || colon.as_str() != ":" {
        return Err(FormFault::NoMeaning);
    }
    let given = names_of(alloc, names, metas)?;
    let metas = types_of(alloc, names, metas)?;
    let equation = equation_of(alloc, names, context, left, right, ty)?;
    Ok(LeftEquation {
        metas,
        names: given,
        equation,
    })
}

// The names of the metavariables, which words name from then on.
fn names_of(
    alloc: Global,
    names: &mut Names,
    metas: &[Form],
) -> Result<Vec<Option<Name>>, FormFault> {
    let mut given = Vec::new(alloc);
    for meta in metas {
        given.push(name_of(alloc, names, meta)?)?;
    }
    Ok(given)
}

fn name_of(alloc: Global, names: &mut Names, meta: &Form) -> Result<Option<Name>, FormFault> {
    let (name, _) = parts(meta)?;
    names.add_meta(alloc, name)?;
    if name.starts_with('?') {
        Ok(None)
    } else {
        Ok(Some(Name::from_text(alloc, name)?))
    }
}

// The types of the metavariables, each in the empty context.
fn types_of(
    alloc: Global,
    names: &mut Names,
    metas: &[Form],
) -> Result<Vec<(OpenContext, OpenTy)>, FormFault> {
    let mut types = Vec::new(alloc);
    for meta in metas {
        types.push((OpenContext::new(alloc), type_of(alloc, names, meta)?))?;
    }
    Ok(types)
}

fn type_of(alloc: Global, names: &mut Names, meta: &Form) -> Result<OpenTy, FormFault> {
    let (_, ty) = parts(meta)?;
    read_type(alloc, names, ty)
}

fn equation_of(
    alloc: Global,
    names: &mut Names,
    context: &[Form],
    left: &Form,
    right: &Form,
    ty: &Form,
) -> Result<Equation, FormFault> {
    let context = read_context(alloc, names, context)?;
    let left = read_term(alloc, names, left)?;
    let right = read_term(alloc, names, right)?;
    let ty = read_type(alloc, names, ty)?;
    Ok(Equation {
        context,
        left,
        right,
        ty,
    })
}

/// The text of the equation.
pub(crate) fn equation(alloc: Global, world: &mut World, text: &str) -> Result<String, FormFault> {
    let left = read_equation(alloc, &mut world.names, text)?;
    let env = ShowEnv {
        sig: &world.signature,
        fixities: &world.fixities,
        names: &world.preferences,
        implicit: world.implicit,
    };
    line_of(alloc, &show_equation(alloc, &env, &left)?)
}

//! Terms and types with metavariables, from forms.
use crate::cases::Case;
use crate::fault::FormFault;
use crate::forms::{Form, read_forms};
use crate::names::Names;
use std::alloc::Global;
use tw_terms::{Open, OpenContext, OpenSpine, OpenTy};

/// The term that the form means.
#[cycle(reading)]
pub fn read_term(alloc: Global, names: &mut Names, form: &Form) -> Result<Open, FormFault> {
    match form {
        Form::Word(word) => read_root(alloc, names, word.as_str(), &[]),
        Form::Group(forms) => match forms.as_slice() {
            [mark, name, body] if mark.text() == "\\" && !name.text().is_empty() => {
                read_lambda(alloc, names, name.text(), body)
            }
            [head, rest @ ..] => read_root(alloc, names, head.text(), rest),
            [] => Err(FormFault::NoMeaning),
        },
    }
}

// The head of this name on what the forms mean.
#[cycle(reading)]
fn read_root(
    alloc: Global,
    names: &mut Names,
    word: &str,
    rest: &[Form],
) -> Result<Open, FormFault> {
    let head = names.head(word)?;
    let mut args = Vec::new(alloc);
    match read_args(alloc, names, rest, &mut args) {
        Ok(()) => Ok(Open::Root(head, OpenSpine { args })),
        Err(fault) => Err(fault),
    }
}

#[cycle(reading)]
fn read_lambda(
    alloc: Global,
    names: &mut Names,
    name: &str,
    body: &Form,
) -> Result<Open, FormFault> {
    names.push_variable(alloc, name)?;
    let body = read_term(alloc, names, body);
    names.pop_variable();
    Ok(Open::Lam(Box::new(alloc, body?)?))
}

/// The arguments that the forms mean.
pub fn read_spine(
    alloc: Global,
    names: &mut Names,
    forms: &[Form],
) -> Result<OpenSpine, FormFault> {
    let mut args = Vec::new(alloc);
    match read_args(alloc, names, forms, &mut args) {
        Ok(()) => Ok(OpenSpine { args }),
        Err(fault) => Err(fault),
    }
}

#[cycle(reading)]
fn read_args(
    alloc: Global,
    names: &mut Names,
    forms: &[Form],
    args: &mut Vec<Open>,
) -> Result<(), FormFault> {
    for form in forms {
        args.push(read_term(alloc, names, form)?)?;
    }
    Ok(())
}

/// The type that the form means.
#[cycle(reading_types)]
pub fn read_type(alloc: Global, names: &mut Names, form: &Form) -> Result<OpenTy, FormFault> {
    match form {
        Form::Word(word) => read_atom(alloc, names, word.as_str(), &[]),
        Form::Group(forms) => match forms.as_slice() {
            [mark, name, domain, range] if mark.text() == ">" && !name.text().is_empty() => {
                let domain = read_type(alloc, names, domain)?;
                product(alloc, domain, read_range(alloc, names, name.text(), range)?)
            }
            [family, rest @ ..] => read_atom(alloc, names, family.text(), rest),
            [] => Err(FormFault::NoMeaning),
        },
    }
}

// The family of this name on what the forms mean.
fn read_atom(
    alloc: Global,
    names: &mut Names,
    word: &str,
    rest: &[Form],
) -> Result<OpenTy, FormFault> {
    let family = names.constant(word)?;
    Ok(OpenTy::Atom(family, read_spine(alloc, names, rest)?))
}

// the type under a variable of this name
#[cycle(reading_types)]
fn read_range(
    alloc: Global,
    names: &mut Names,
    name: &str,
    form: &Form,
) -> Result<OpenTy, FormFault> {
    names.push_variable(alloc, name)?;
    let range = read_type(alloc, names, form);
    names.pop_variable();
    range
}

fn product(alloc: Global, domain: OpenTy, range: OpenTy) -> Result<OpenTy, FormFault> {
    let domain = Box::new(alloc, domain)?;
    Ok(OpenTy::Pi(domain, Box::new(alloc, range)?))
}

/// The context of names and types in turn, the outermost first. Its variables stay in scope.
pub fn read_context(
    alloc: Global,
    names: &mut Names,
    forms: &[Form],
) -> Result<OpenContext, FormFault> {
    let mut context = OpenContext::new(alloc);
    match read_variables(alloc, names, forms, &mut context) {
        Ok(()) => Ok(context),
        Err(fault) => Err(fault),
    }
}

fn read_variables(
    alloc: Global,
    names: &mut Names,
    forms: &[Form],
    context: &mut OpenContext,
) -> Result<(), FormFault> {
    if forms.len() % 2 != 0 {
        return Err(FormFault::NoMeaning);
    }
    for place in 0..forms.len() / 2 {
        read_variable(
            alloc,
            names,
            &forms[2 * place],
            &forms[2 * place + 1],
            context,
        )?;
    }
    Ok(())
}

fn read_variable(
    alloc: Global,
    names: &mut Names,
    name: &Form,
    ty: &Form,
    context: &mut OpenContext,
) -> Result<(), FormFault> {
    let Some(name) = name.word() else {
        return Err(FormFault::NoMeaning);
    };
    context.push(read_type(alloc, names, ty)?)?;
    Ok(names.push_variable(alloc, name)?)
}

/// The types of the metavariables of a case, each by a field `meta NAME TYPE`, whose type may mention those before it. They have these names from then on.
pub fn read_metas(alloc: Global, names: &mut Names, case: &Case) -> Result<Vec<OpenTy>, FormFault> {
    let mut types = Vec::new(alloc);
    match read_each_meta(alloc, names, case, &mut types) {
        Ok(()) => Ok(types),
        Err(fault) => Err(fault),
    }
}

fn read_each_meta(
    alloc: Global,
    names: &mut Names,
    case: &Case,
    types: &mut Vec<OpenTy>,
) -> Result<(), FormFault> {
    for field in &case.fields {
        if field.word.as_str() == "meta" {
            let forms = read_forms(alloc, field.text.as_str())?;
            read_meta(alloc, names, &forms, types)?;
        }
    }
    Ok(())
}

fn read_meta(
    alloc: Global,
    names: &mut Names,
    forms: &[Form],
    types: &mut Vec<OpenTy>,
) -> Result<(), FormFault> {
    if forms.len() != 2 || forms[0].text().is_empty() {
        return Err(FormFault::NoMeaning);
    }
    types.push(read_type(alloc, names, &forms[1])?)?;
    Ok(names.add_meta(alloc, forms[0].text())?)
}

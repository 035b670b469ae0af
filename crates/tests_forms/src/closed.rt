//! Terms and types without metavariables, kinds and skeletons, from forms.
use crate::fault::FormFault;
use crate::forms::Form;
use crate::names::Names;
use crate::open::{read_spine, read_term, read_type};
use std::alloc::{AllocError, Global};
use tw_terms::{Context, Head, Kind, Open, OpenHead, OpenSpine, OpenTy, Skeleton, Spine, Term, Ty};

/// The term, where it has no metavariable.
#[cycle(closing)]
pub fn closed_term(alloc: Global, term: &Open) -> Result<Term, FormFault> {
    match term {
        Open::Lam(body) => Ok(Term::Lam(Box::new(alloc, closed_term(alloc, body)?)?)),
        Open::Root(head, spine) => {
            let head = closed_head(*head)?;
            let mut args = Vec::new(alloc);
            match close_args(alloc, &spine.args, &mut args) {
                Ok(()) => Ok(Term::Root(head, Spine { args })),
                Err(fault) => Err(fault),
            }
        }
    }
}

fn closed_head(head: OpenHead) -> Result<Head, FormFault> {
    match head {
        OpenHead::Const(id) => Ok(Head::Const(id)),
        OpenHead::Var(variable) => Ok(Head::Var(variable)),
        OpenHead::Meta(_) => Err(FormFault::NoMeaning),
    }
}

#[cycle(closing)]
fn close_args(alloc: Global, open: &[Open], args: &mut Vec<Term>) -> Result<(), FormFault> {
    for arg in open {
        args.push(closed_term(alloc, arg)?)?;
    }
    Ok(())
}

/// The arguments, where they have no metavariable.
pub fn closed_spine(alloc: Global, spine: &OpenSpine) -> Result<Spine, FormFault> {
    let mut args = Vec::new(alloc);
    match close_args(alloc, &spine.args, &mut args) {
        Ok(()) => Ok(Spine { args }),
        Err(fault) => Err(fault),
    }
}

/// The type, where it has no metavariable.
pub fn closed_type(alloc: Global, ty: &OpenTy) -> Result<Ty, FormFault> {
    match ty {
        OpenTy::Pi(domain, range) => {
            let domain = Box::new(alloc, closed_type(alloc, domain)?)?;
            Ok(Ty::Pi(domain, Box::new(alloc, closed_type(alloc, range)?)?))
        }
        OpenTy::Atom(family, spine) => Ok(Ty::Atom(*family, closed_spine(alloc, spine)?)),
    }
}

/// The same term as one that could have metavariables.
#[cycle(opening)]
pub fn opened_term(alloc: Global, term: &Term) -> Result<Open, AllocError> {
    match term {
        Term::Lam(body) => Ok(Open::Lam(Box::new(alloc, opened_term(alloc, body)?)?)),
        Term::Root(head, spine) => {
            let mut args = Vec::new(alloc);
            match open_args(alloc, &spine.args, &mut args) {
                Ok(()) => Ok(Open::Root(opened_head(*head), OpenSpine { args })),
                Err(error) => Err(error),
            }
        }
    }
}

fn opened_head(head: Head) -> OpenHead {
    match head {
        Head::Const(id) => OpenHead::Const(id),
        Head::Var(variable) => OpenHead::Var(variable),
    }
}

#[cycle(opening)]
fn open_args(alloc: Global, closed: &[Term], args: &mut Vec<Open>) -> Result<(), AllocError> {
    for arg in closed {
        args.push(opened_term(alloc, arg)?)?;
    }
    Ok(())
}

/// The same arguments as ones that could have metavariables.
pub fn opened_spine(alloc: Global, spine: &Spine) -> Result<OpenSpine, AllocError> {
    let mut args = Vec::new(alloc);
    match open_args(alloc, &spine.args, &mut args) {
        Ok(()) => Ok(OpenSpine { args }),
        Err(error) => Err(error),
    }
}

/// The same type as one that could have metavariables.
pub fn opened_type(alloc: Global, ty: &Ty) -> Result<OpenTy, AllocError> {
    match ty {
        Ty::Pi(domain, range) => {
            let domain = Box::new(alloc, opened_type(alloc, domain)?)?;
            Ok(OpenTy::Pi(domain, Box::new(alloc, opened_type(alloc, range)?)?))
        }
        Ty::Atom(family, spine) => Ok(OpenTy::Atom(*family, opened_spine(alloc, spine)?)),
    }
}

/// The term without metavariables that the form means.
pub fn read_closed_term(alloc: Global, names: &mut Names, form: &Form) -> Result<Term, FormFault> {
    closed_term(alloc, &read_term(alloc, names, form)?)
}

/// The arguments without metavariables that the forms mean.
pub fn read_closed_spine(
    alloc: Global,
    names: &mut Names,
    forms: &[Form],
) -> Result<Spine, FormFault> {
    closed_spine(alloc, &read_spine(alloc, names, forms)?)
}

/// The type without metavariables that the form means.
pub fn read_closed_type(alloc: Global, names: &mut Names, form: &Form) -> Result<Ty, FormFault> {
    closed_type(alloc, &read_type(alloc, names, form)?)
}

/// The kind that the form means.
#[cycle(reading_kinds)]
pub fn read_kind(alloc: Global, names: &mut Names, form: &Form) -> Result<Kind, FormFault> {
    match form {
        Form::Word(word) if word.as_str() == "type" => Ok(Kind::Star),
        Form::Word(_) => Err(FormFault::NoMeaning),
        Form::Group(forms) => match forms.as_slice() {
            [mark, name, domain, range] if mark.text() == ">" && !name.text().is_empty() => {
                let domain = read_closed_type(alloc, names, domain)?;
                product(alloc, domain, read_range(alloc, names, name.text(), range)?)
            }
            _ => Err(FormFault::NoMeaning),
        },
    }
}

// the kind under a variable of this name
#[cycle(reading_kinds)]
fn read_range(
    alloc: Global,
    names: &mut Names,
    name: &str,
    form: &Form,
) -> Result<Kind, FormFault> {
    names.push_variable(alloc, name)?;
    let range = read_kind(alloc, names, form);
    names.pop_variable();
    range
}

fn product(alloc: Global, domain: Ty, range: Kind) -> Result<Kind, FormFault> {
    let domain = Box::new(alloc, domain)?;
    Ok(Kind::Pi(domain, Box::new(alloc, range)?))
}

/// The skeleton that the form means: a family, or `(-> a b)`.
pub fn read_skeleton(alloc: Global, names: &Names, form: &Form) -> Result<Skeleton, FormFault> {
    match form {
        Form::Word(family) => Ok(Skeleton::Base(names.constant(family.as_str())?)),
        Form::Group(forms) => match forms.as_slice() {
            [mark, domain, range] if mark.text() == "->" => {
                let domain = read_skeleton(alloc, names, domain)?;
                arrow(alloc, domain, read_skeleton(alloc, names, range)?)
            }
            _ => Err(FormFault::NoMeaning),
        },
    }
}

fn arrow(alloc: Global, domain: Skeleton, range: Skeleton) -> Result<Skeleton, FormFault> {
    let domain = Box::new(alloc, domain)?;
    Ok(Skeleton::Arrow(domain, Box::new(alloc, range)?))
}

/// The context without metavariables, of names and types in turn, the outermost first. Its variables stay in scope.
pub fn read_closed_context(
    alloc: Global,
    names: &mut Names,
    forms: &[Form],
) -> Result<Context, FormFault> {
    let mut context = Context::new(alloc);
    match read_variables(alloc, names, forms, &mut context) {
        Ok(()) => Ok(context),
        Err(fault) => Err(fault),
    }
}

fn read_variables(
    alloc: Global,
    names: &mut Names,
    forms: &[Form],
    context: &mut Context,
) -> Result<(), FormFault> {
    if forms.len() % 2 != 0 {
        return Err(FormFault::NoMeaning);
    }
    for place in 0..forms.len() / 2 {
        read_variable(
            alloc,
            names,
            &forms[2 * place],
            &forms[2 * place + 1],
            context,
        )?;
    }
    Ok(())
}

fn read_variable(
    alloc: Global,
    names: &mut Names,
    name: &Form,
    ty: &Form,
    context: &mut Context,
) -> Result<(), FormFault> {
    let Some(name) = name.word() else {
        return Err(FormFault::NoMeaning);
    };
    context.push(read_closed_type(alloc, names, ty)?)?;
    Ok(names.push_variable(alloc, name)?)
}

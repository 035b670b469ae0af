//! What is written, from forms. A word may end in its place, as `vec@5` in the first line and `vec@2:5` in the second; without one it stands at the first column.
//!
//! `(\ x A M)` has the type of x, and `(\_ x a M)` its skeleton, and so `(> x A B)` and `(>_ x a B)`. `(_ a)` is a hole of the skeleton, `(-> A B)` an arrow and
//! `(: M A)` an ascription. Free variables are the metavariables among the names.
use std::alloc::Global;
use tests_forms::{Case, Form, FormFault, Names, number_of, read_forms, read_skeleton};
use tw_lexer::Place;
use tw_terms::{OpenHead, Skeleton};
use tw_written::{Written, WrittenBody, WrittenDomain, WrittenKind, WrittenType};

/// The word, and where it stands.
fn placed(word: &str) -> Result<(&str, Place), FormFault> {
    let Some((name, at)) = word.split_once('@') else {
        return Ok((word, Place { line: 1, column: 1 }));
    };
    let (line, column) = match at.split_once(':') {
        Some((line, column)) => (line, column),
        None => ("1", at),
    };
    Ok((
        name,
        Place {
            line: count_of(line)?,
            column: count_of(column)?,
        },
    ))
}

fn count_of(word: &str) -> Result<u32, FormFault> {
    u32::try_from(number_of(word)?).or(Err(FormFault::NoMeaning))
}

// the word that the forms begin with, without its place, and where it stands; no word where they begin otherwise
fn mark_of(forms: &[Form]) -> Result<(&str, Place), FormFault> {
    match forms {
        [Form::Word(word), ..] => placed(word.as_str()),
        _ => Ok(("", Place { line: 1, column: 1 })),
    }
}

// Whether the mark is one of the two binders, and a word stands behind it.
fn binds(mark: &str, binders: [&str; 2], name: &Form) -> bool {
    !name.text().is_empty() && (mark == binders[0] || mark == binders[1])
}

/// The term that the form means.
#[cycle(writing)]
fn term(alloc: Global, names: &mut Names, form: &Form) -> Result<Written, FormFault> {
    match form {
        Form::Word(word) => named(names, word.as_str()),
        Form::Group(forms) => {
            let (mark, at) = mark_of(forms.as_slice())?;
            match forms.as_slice() {
                [_, name, bound, body] if binds(mark, ["\\", "\\_"], name) => {
                    let domain = domain_of(alloc, names, mark == "\\_", bound, at)?;
                    function(alloc, domain, term_under(alloc, names, name.text(), body)?)
                }
                [_, skeleton] if mark == "_" => {
                    Ok(Written::Hole(read_skeleton(alloc, names, skeleton)?, at))
                }
                [_, inner, ty] if mark == ":" => {
                    let inner = term(alloc, names, inner)?;
                    ascribed(alloc, inner, written_type(alloc, names, ty)?)
                }
                [head, args @ ..] => {
                    let head = term(alloc, names, head)?;
                    applied(alloc, head, arguments(alloc, names, args)?)
                }
                [] => Err(FormFault::NoMeaning),
            }
        }
    }
}

// The term under a variable of this name.
#[cycle(writing)]
fn term_under(
    alloc: Global,
    names: &mut Names,
    name: &str,
    form: &Form,
) -> Result<Written, FormFault> {
    names.push_variable(alloc, name)?;
    let body = term(alloc, names, form);
    names.pop_variable();
    body
}

fn function(alloc: Global, domain: WrittenDomain, body: Written) -> Result<Written, FormFault> {
    Ok(Written::Function(domain, Box::new(alloc, body)?))
}

// What is bound: its type, or its skeleton.
#[cycle(writing)]
fn domain_of(
    alloc: Global,
    names: &mut Names,
    of_skeleton: bool,
    bound: &Form,
    at: Place,
) -> Result<WrittenDomain, FormFault> {
    if of_skeleton {
        return Ok(WrittenDomain::OfSkeleton(read_skeleton(alloc, names, bound)?, at));
    }
    let ty = written_type(alloc, names, bound)?;
    Ok(WrittenDomain::OfType(Box::new(alloc, ty)?))
}

fn ascribed(alloc: Global, inner: Written, ty: WrittenType) -> Result<Written, FormFault> {
    let inner = Box::new(alloc, inner)?;
    Ok(Written::Ascribed(inner, Box::new(alloc, ty)?))
}

// what the word names, where it stands
fn named(names: &Names, word: &str) -> Result<Written, FormFault> {
    let (name, at) = placed(word)?;
    match names.head(name)? {
        OpenHead::Var(variable) => Ok(Written::Bound(variable)),
        OpenHead::Const(id) => Ok(Written::Declared(id, at)),
        OpenHead::Meta(free) => Ok(Written::Free(free.0, at)),
    }
}

/// The terms that the forms mean.
#[cycle(writing)]
fn arguments(alloc: Global, names: &mut Names, forms: &[Form]) -> Result<Vec<Written>, FormFault> {
    let mut args = Vec::new(alloc);
    match add_arguments(alloc, names, forms, &mut args) {
        Ok(()) => Ok(args),
        Err(fault) => Err(fault),
    }
}

#[cycle(writing)]
fn add_arguments(
    alloc: Global,
    names: &mut Names,
    forms: &[Form],
    args: &mut Vec<Written>,
) -> Result<(), FormFault> {
    for form in forms {
        args.push(term(alloc, names, form)?)?;
    }
    Ok(())
}

// the term on the arguments
fn applied(alloc: Global, head: Written, args: Vec<Written>) -> Result<Written, FormFault> {
    let mut whole = head;
    for arg in args {
        whole = applied_once(alloc, whole, arg)?;
    }
    Ok(whole)
}

fn applied_once(alloc: Global, head: Written, arg: Written) -> Result<Written, FormFault> {
    let arg = Box::new(alloc, arg)?;
    Ok(Written::Applied(Box::new(alloc, head)?, arg))
}

/// The type that the form means.
#[cycle(writing)]
fn written_type(alloc: Global, names: &mut Names, form: &Form) -> Result<WrittenType, FormFault> {
    match form {
        Form::Word(word) => family(names, word.as_str()),
        Form::Group(forms) => {
            let (mark, at) = mark_of(forms.as_slice())?;
            match forms.as_slice() {
                [_, name, bound, range] if binds(mark, [">", ">_"], name) => {
                    let domain = domain_of(alloc, names, mark == ">_", bound, at)?;
                    quantified(alloc, domain, type_under(alloc, names, name.text(), range)?)
                }
                [_, skeleton] if mark == "_" => {
                    Ok(WrittenType::Hole(read_skeleton(alloc, names, skeleton)?, at))
                }
                [_, from, to] if mark == "->" => {
                    let from = written_type(alloc, names, from)?;
                    arrow(alloc, from, written_type(alloc, names, to)?)
                }
                [_, inner, of] if mark == ":" => {
                    let inner = written_type(alloc, names, inner)?;
                    ascribed_type(alloc, inner, kind(alloc, names, of)?)
                }
                [head, args @ ..] => {
                    let head = written_type(alloc, names, head)?;
                    applied_family(alloc, head, arguments(alloc, names, args)?)
                }
                [] => Err(FormFault::NoMeaning),
            }
        }
    }
}

// The type under a variable of this name.
#[cycle(writing)]
fn type_under(
    alloc: Global,
    names: &mut Names,
    name: &str,
    form: &Form,
) -> Result<WrittenType, FormFault> {
    names.push_variable(alloc, name)?;
    let range = written_type(alloc, names, form);
    names.pop_variable();
    range
}

fn quantified(
    alloc: Global,
    domain: WrittenDomain,
    range: WrittenType,
) -> Result<WrittenType, FormFault> {
    Ok(WrittenType::Quantified(domain, Box::new(alloc, range)?))
}

fn arrow(alloc: Global, from: WrittenType, to: WrittenType) -> Result<WrittenType, FormFault> {
    let from = Box::new(alloc, from)?;
    Ok(WrittenType::Arrow(from, Box::new(alloc, to)?))
}

fn ascribed_type(
    alloc: Global,
    inner: WrittenType,
    of: WrittenKind,
) -> Result<WrittenType, FormFault> {
    let inner = Box::new(alloc, inner)?;
    Ok(WrittenType::Ascribed(inner, Box::new(alloc, of)?))
}

// the family that the word names, where it stands
fn family(names: &Names, word: &str) -> Result<WrittenType, FormFault> {
    let (name, at) = placed(word)?;
    Ok(WrittenType::Family(names.constant(name)?, at))
}

// the type on the arguments
fn applied_family(
    alloc: Global,
    head: WrittenType,
    args: Vec<Written>,
) -> Result<WrittenType, FormFault> {
    let mut whole = head;
    for arg in args {
        whole = family_applied_once(alloc, whole, arg)?;
    }
    Ok(whole)
}

fn family_applied_once(
    alloc: Global,
    head: WrittenType,
    arg: Written,
) -> Result<WrittenType, FormFault> {
    let arg = Box::new(alloc, arg)?;
    Ok(WrittenType::Applied(Box::new(alloc, head)?, arg))
}

/// The kind that the form means.
#[cycle(writing)]
fn kind(alloc: Global, names: &mut Names, form: &Form) -> Result<WrittenKind, FormFault> {
    match form {
        Form::Word(word) if word.as_str() == "type" => Ok(WrittenKind::Star),
        Form::Word(_) => Err(FormFault::NoMeaning),
        Form::Group(forms) => {
            let (mark, at) = mark_of(forms.as_slice())?;
            match forms.as_slice() {
                [_, name, bound, range] if binds(mark, [">", ">_"], name) => {
                    let domain = domain_of(alloc, names, mark == ">_", bound, at)?;
                    quantified_kind(alloc, domain, kind_under(alloc, names, name.text(), range)?)
                }
                [_, from, to] if mark == "->" => {
                    let from = written_type(alloc, names, from)?;
                    kind_arrow(alloc, from, kind(alloc, names, to)?)
                }
                _ => Err(FormFault::NoMeaning),
            }
        }
    }
}

// The kind under a variable of this name.
#[cycle(writing)]
fn kind_under(
    alloc: Global,
    names: &mut Names,
    name: &str,
    form: &Form,
) -> Result<WrittenKind, FormFault> {
    names.push_variable(alloc, name)?;
    let range = kind(alloc, names, form);
    names.pop_variable();
    range
}

fn quantified_kind(
    alloc: Global,
    domain: WrittenDomain,
    range: WrittenKind,
) -> Result<WrittenKind, FormFault> {
    Ok(WrittenKind::Quantified(domain, Box::new(alloc, range)?))
}

fn kind_arrow(alloc: Global, from: WrittenType, to: WrittenKind) -> Result<WrittenKind, FormFault> {
    let from = Box::new(alloc, from)?;
    Ok(WrittenKind::Arrow(from, Box::new(alloc, to)?))
}

// The term of a case on an argument so many times, where the word `on` says how many and which.
fn read_written(alloc: Global, names: &mut Names, case: &Case) -> Result<Written, FormFault> {
    let form = case.form(alloc, "term")?;
    let on = read_forms(alloc, case.text("on")?)?;
    let written = term(alloc, names, &form)?;
    match on.as_slice() {
        [] => Ok(written),
        [count, arg] => on_argument(alloc, names, written, number_of(count.text())?, arg),
        _ => Err(FormFault::NoMeaning),
    }
}

fn on_argument(
    alloc: Global,
    names: &mut Names,
    written: Written,
    count: u64,
    arg: &Form,
) -> Result<Written, FormFault> {
    let mut args = Vec::new(alloc);
    match add_repeated(alloc, names, count, arg, &mut args) {
        Ok(()) => applied(alloc, written, args),
        Err(fault) => Err(fault),
    }
}

fn add_repeated(
    alloc: Global,
    names: &mut Names,
    count: u64,
    arg: &Form,
    args: &mut Vec<Written>,
) -> Result<(), FormFault> {
    for _ in 0..count {
        args.push(term(alloc, names, arg)?)?;
    }
    Ok(())
}

fn is_abbreviation(case: &Case) -> bool {
    let mut abbrev = false;
    for field in &case.fields {
        abbrev |= field.word.as_str() == "abbrev";
    }
    abbrev
}

fn read_family(alloc: Global, names: &mut Names, case: &Case) -> Result<WrittenBody, FormFault> {
    let form = case.form(alloc, "kind")?;
    Ok(WrittenBody::Family(kind(alloc, names, &form)?))
}

// The type that this word of the case says.
fn read_typed(
    alloc: Global,
    names: &mut Names,
    case: &Case,
    word: &str,
) -> Result<WrittenType, FormFault> {
    let form = case.form(alloc, word)?;
    written_type(alloc, names, &form)
}

fn read_definition(
    alloc: Global,
    names: &mut Names,
    case: &Case,
) -> Result<WrittenBody, FormFault> {
    let abbrev = is_abbreviation(case);
    let written = read_written(alloc, names, case)?;
    if case.text("of")?.is_empty() {
        return Ok(WrittenBody::Definition(written, abbrev));
    }
    Ok(WrittenBody::DefinitionOf(written, read_typed(alloc, names, case, "of")?, abbrev))
}

/// What the case declares: by the word `kind` a family, by `type` a constant, by `term` a definition, whose type the word `of` says, if any, and which is an
/// abbreviation where the word `abbrev` stands.
pub(crate) fn read_body(
    alloc: Global,
    names: &mut Names,
    case: &Case,
) -> Result<WrittenBody, FormFault> {
    if !case.text("kind")?.is_empty() {
        return read_family(alloc, names, case);
    }
    if !case.text("type")?.is_empty() {
        return Ok(WrittenBody::Constant(read_typed(alloc, names, case, "type")?));
    }
    read_definition(alloc, names, case)
}

/// The skeletons of the free variables of a case, each by a field `free NAME SKELETON`.
pub(crate) fn read_frees(
    alloc: Global,
    names: &mut Names,
    case: &Case,
) -> Result<Vec<Skeleton>, FormFault> {
    let mut skeletons = Vec::new(alloc);
    match read_each_free(alloc, names, case, &mut skeletons) {
        Ok(()) => Ok(skeletons),
        Err(fault) => Err(fault),
    }
}

fn read_each_free(
    alloc: Global,
    names: &mut Names,
    case: &Case,
    skeletons: &mut Vec<Skeleton>,
) -> Result<(), FormFault> {
    for field in &case.fields {
        if field.word.as_str() == "free" {
            let forms = read_forms(alloc, field.text.as_str())?;
            read_free(alloc, names, &forms, skeletons)?;
        }
    }
    Ok(())
}

fn read_free(
    alloc: Global,
    names: &mut Names,
    forms: &[Form],
    skeletons: &mut Vec<Skeleton>,
) -> Result<(), FormFault> {
    if forms.len() != 2 || forms[0].text().is_empty() {
        return Err(FormFault::NoMeaning);
    }
    skeletons.push(read_skeleton(alloc, names, &forms[1])?)?;
    Ok(names.add_meta(alloc, forms[0].text())?)
}

//! Patterns, inversion and pruning. The local context of a case has the variables that it lists.
use std::alloc::{AllocError, Global};
use tests_forms::{
    Case, FormFault, Names, begin_part, number_of, read_forms, read_spine, read_term, read_type,
    show_term, show_type,
};
use tw_prune::{
    Inverted, Pruned, differences, invert, lambdas_over, losses, occurs_inside, pattern_of,
    prune_type,
};
use tw_terms::{MetaId, Open, OpenHead, OpenTy};

/// What came of the case.
pub(crate) fn inversion(
    alloc: Global,
    names: &mut Names,
    case: &Case,
) -> Result<String, FormFault> {
    case.has_only(&[
        "locals",
        "pattern",
        "other",
        "term",
        "arguments",
        "meta",
        "type",
        "place",
    ])?;
    for form in &read_forms(alloc, case.text("locals")?)? {
        names.push_variable(alloc, form.word().ok_or(FormFault::NoMeaning)?)?;
    }
    let mut line = String::new(alloc);
    match case.kind.as_str() {
        "invert" => inverted(alloc, &mut line, names, case)?,
        "losses" => lost(alloc, &mut line, names, case)?,
        "pattern" => pattern(alloc, &mut line, names, case)?,
        "occurs" => occurs(alloc, &mut line, names, case)?,
        "prune" => pruned(alloc, &mut line, names, case)?,
        _ => differ(alloc, &mut line, names, case)?,
    }
    Ok(line)
}

fn term_of(alloc: Global, names: &mut Names, case: &Case) -> Result<Open, FormFault> {
    read_term(alloc, names, &case.form(alloc, "term")?)
}

// the variables that the word lists
fn variables_of(
    alloc: Global,
    names: &Names,
    case: &Case,
    word: &str,
) -> Result<Vec<u64>, FormFault> {
    let mut variables = Vec::new(alloc);
    for form in &read_forms(alloc, case.text(word)?)? {
        match names.head(form.word().ok_or(FormFault::NoMeaning)?)? {
            OpenHead::Var(variable) => variables.push(variable)?,
            OpenHead::Const(_) | OpenHead::Meta(_) => return Err(FormFault::NoMeaning),
        }
    }
    Ok(variables)
}

fn show_place(
    line: &mut String,
    names: &Names,
    meta: MetaId,
    place: u64,
) -> Result<(), AllocError> {
    names.show_head(line, OpenHead::Meta(meta))?;
    write!(line, " at {}", place)
}

fn inverted(
    alloc: Global,
    line: &mut String,
    names: &mut Names,
    case: &Case,
) -> Result<(), FormFault> {
    let pattern = variables_of(alloc, names, case, "pattern")?;
    let term = term_of(alloc, names, case)?;
    match invert(alloc, &pattern, names.scope() as u64, &term)? {
        Inverted::Inverted(body) => {
            names.leave_scope(0);
            line.push_str("inverted")?;
            for _ in 0..pattern.len() {
                names.push_made(alloc)?;
            }
            line.push(' ')?;
            show_term(alloc, line, names, &body)?;
        }
        Inverted::Drop(meta, place) => {
            line.push_str("drops ")?;
            show_place(line, names, meta, place)?;
        }
        Inverted::Never => line.push_str("never")?,
        Inverted::Outside => line.push_str("outside")?,
    }
    Ok(())
}

fn lost(alloc: Global, line: &mut String, names: &mut Names, case: &Case) -> Result<(), FormFault> {
    let pattern = variables_of(alloc, names, case, "pattern")?;
    let term = term_of(alloc, names, case)?;
    for loss in &losses(alloc, &pattern, names.scope() as u64, &term)? {
        begin_part(line)?;
        show_place(line, names, loss.meta, loss.place)?;
    }
    Ok(())
}

fn pattern(
    alloc: Global,
    line: &mut String,
    names: &mut Names,
    case: &Case,
) -> Result<(), FormFault> {
    let forms = read_forms(alloc, case.text("arguments")?)?;
    let spine = read_spine(alloc, names, &forms)?;
    match pattern_of(alloc, names.scope() as u64, &spine)? {
        Some(variables) => {
            line.push_str("pattern")?;
            for variable in &variables {
                line.push(' ')?;
                names.show_head(line, OpenHead::Var(*variable))?;
            }
        }
        None => line.push_str("no pattern")?,
    }
    Ok(())
}

fn occurs(
    alloc: Global,
    line: &mut String,
    names: &mut Names,
    case: &Case,
) -> Result<(), FormFault> {
    let meta = names.meta(case.text("meta")?)?;
    let term = term_of(alloc, names, case)?;
    if occurs_inside(alloc, meta, names.scope() as u64, &term)? {
        line.push_str("occurs")?;
    } else {
        line.push_str("doesn't occur")?;
    }
    Ok(())
}

fn pruned(
    alloc: Global,
    line: &mut String,
    names: &mut Names,
    case: &Case,
) -> Result<(), FormFault> {
    let ty = read_type(alloc, names, &case.form(alloc, "type")?)?;
    let meta = names.meta(case.text("meta")?)?;
    match prune_type(alloc, &ty, number_of(case.text("place")?)?)? {
        Some(pruned) => show_pruned(alloc, line, names, &ty, meta, pruned),
        None => Ok(line.push_str("no type")?),
    }
}

// the new type, and the value that the new metavariable gives the old one
fn show_pruned(
    alloc: Global,
    line: &mut String,
    names: &mut Names,
    ty: &OpenTy,
    meta: MetaId,
    pruned: Pruned,
) -> Result<(), FormFault> {
    show_type(alloc, line, names, &pruned.ty)?;
    begin_part(line)?;
    let body = Open::Root(OpenHead::Meta(meta), pruned.spine);
    let value = lambdas_over(alloc, ty, body)?;
    show_term(alloc, line, names, &value)?;
    Ok(())
}

fn differ(
    alloc: Global,
    line: &mut String,
    names: &mut Names,
    case: &Case,
) -> Result<(), FormFault> {
    let pattern = variables_of(alloc, names, case, "pattern")?;
    let other = variables_of(alloc, names, case, "other")?;
    line.push_str("at")?;
    for place in &differences(alloc, &pattern, &other)? {
        write!(line, " {}", *place)?;
    }
    Ok(())
}

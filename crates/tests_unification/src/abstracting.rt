//! What stands for free metavariables: positions, quantifiers in order, terms and types over them.
use std::alloc::{AllocError, Global};
use tests_forms::{
    Case, FormFault, Names, begin_part, read_forms, read_spine, read_term, read_type,
    show_closed_spine, show_closed_term, show_closed_type,
};
use tw_abstract::{
    Candidate, Positions, generalized_spine, generalized_term, generalized_type, note_spine,
    note_term, note_type, quantifier_order, sole_metavariable,
};
use tw_terms::{MetaId, OpenHead};

/// What came of the case.
pub(crate) fn abstraction(
    alloc: Global,
    names: &mut Names,
    case: &Case,
) -> Result<String, FormFault> {
    let mut line = String::new(alloc);
    match case.kind.as_str() {
        "positions" => places(alloc, &mut line, names, case)?,
        "generalize" => generalized(alloc, &mut line, names, case)?,
        "order" => order(alloc, &mut line, names, case)?,
        "note" => noted(alloc, &mut line, names, case)?,
        _ => sole(alloc, &mut line, names, case)?,
    }
    Ok(line)
}

// the metavariables that the word lists
pub(crate) fn metas_of(
    alloc: Global,
    names: &Names,
    case: &Case,
    word: &str,
) -> Result<Vec<MetaId>, FormFault> {
    let mut metas = Vec::new(alloc);
    for form in &read_forms(alloc, case.text(word)?)? {
        metas.push(names.meta(form.word().ok_or(FormFault::NoMeaning)?)?)?;
    }
    Ok(metas)
}

// the metavariables, each after a space, the outermost first
fn show_metas(line: &mut String, names: &Names, metas: &[MetaId]) -> Result<(), AllocError> {
    for meta in metas {
        if !line.is_empty() {
            line.push(' ')?;
        }
        names.show_head(line, OpenHead::Meta(*meta))?;
    }
    Ok(())
}

// the variable that each metavariable that is asked for becomes, and how many there are
fn places(
    alloc: Global,
    line: &mut String,
    names: &mut Names,
    case: &Case,
) -> Result<(), FormFault> {
    case.has_only(&["metas", "pushed", "asked"])?;
    let mut positions = Positions::of(alloc, &metas_of(alloc, names, case, "metas")?)?;
    for meta in &metas_of(alloc, names, case, "pushed")? {
        positions.push(*meta)?;
    }
    write!(line, "{}", positions.metas().len())?;
    for meta in &metas_of(alloc, names, case, "asked")? {
        begin_part(line)?;
        names.show_head(line, OpenHead::Meta(*meta))?;
        match positions.variable(*meta) {
            Some(variable) => write!(line, " is {}", variable)?,
            None => line.push_str(" is none")?,
        }
    }
    Ok(())
}

// What is generalized stands under the variables of the metavariables, which are shown by their numbers, and of the binders that the case lists.
fn generalized(
    alloc: Global,
    line: &mut String,
    names: &mut Names,
    case: &Case,
) -> Result<(), FormFault> {
    case.has_only(&["metas", "binders", "term", "type", "arguments"])?;
    let metas = metas_of(alloc, names, case, "metas")?;
    let positions = Positions::of(alloc, &metas)?;
    for meta in &metas {
        names.push_variable(alloc, format!(in alloc; "x{}", meta.0)?.as_str())?;
    }
    let bound = read_forms(alloc, case.text("binders")?)?;
    for form in &bound {
        names.push_variable(alloc, form.word().ok_or(FormFault::NoMeaning)?)?;
    }
    let binders = bound.len() as u64;
    for field in &case.fields {
        match field.word.as_str() {
            "term" => {
                let term = read_term(alloc, names, &case.form(alloc, "term")?)?;
                match generalized_term(alloc, &positions, binders, &term)? {
                    Some(term) => show_closed_term(alloc, line, names, &term)?,
                    None => line.push_str("no term")?,
                }
            }
            "type" => {
                let ty = read_type(alloc, names, &case.form(alloc, "type")?)?;
                match generalized_type(alloc, &positions, binders, &ty)? {
                    Some(ty) => show_closed_type(alloc, line, names, &ty)?,
                    None => line.push_str("no type")?,
                }
            }
            "arguments" => {
                let forms = read_forms(alloc, field.text.as_str())?;
                let spine = read_spine(alloc, names, &forms)?;
                match generalized_spine(alloc, &positions, binders, &spine)? {
                    Some(spine) => {
                        line.push_str("arguments")?;
                        show_closed_spine(alloc, line, names, &spine)?;
                    }
                    None => line.push_str("no arguments")?,
                }
            }
            _ => (),
        }
    }
    Ok(())
}

// the order of the candidates, each by a field `candidate META TYPE`
fn order(
    alloc: Global,
    line: &mut String,
    names: &mut Names,
    case: &Case,
) -> Result<(), FormFault> {
    case.has_only(&["candidate"])?;
    let mut candidates = Vec::new(alloc);
    for field in &case.fields {
        let forms = read_forms(alloc, field.text.as_str())?;
        match forms.as_slice() {
            [meta, ty] => {
                let meta = names.meta(meta.word().ok_or(FormFault::NoMeaning)?)?;
                let ty = read_type(alloc, names, ty)?;
                candidates.push(Candidate::new(alloc, meta, &ty)?)?;
            }
            _ => return Err(FormFault::NoMeaning),
        }
    }
    match quantifier_order(alloc, &candidates)? {
        Some(positions) => show_metas(line, names, positions.metas())?,
        None => line.push_str("no order")?,
    }
    Ok(())
}

// the metavariables of the terms, types and arguments, in order of first occurrence
fn noted(
    alloc: Global,
    line: &mut String,
    names: &mut Names,
    case: &Case,
) -> Result<(), FormFault> {
    let mut found = Positions::new(alloc);
    for field in &case.fields {
        let forms = read_forms(alloc, field.text.as_str())?;
        match (field.word.as_str(), forms.as_slice()) {
            ("term", [form]) => note_term(&mut found, &read_term(alloc, names, form)?)?,
            ("type", [form]) => note_type(&mut found, &read_type(alloc, names, form)?)?,
            ("arguments", forms) => note_spine(&mut found, &read_spine(alloc, names, forms)?)?,
            _ => return Err(FormFault::NoMeaning),
        }
    }
    show_metas(line, names, found.metas())?;
    Ok(())
}

fn sole(alloc: Global, line: &mut String, names: &mut Names, case: &Case) -> Result<(), FormFault> {
    case.has_only(&["term"])?;
    let term = read_term(alloc, names, &case.form(alloc, "term")?)?;
    match sole_metavariable(&term)? {
        Some(meta) => names.show_head(line, OpenHead::Meta(meta))?,
        None => line.push_str("none")?,
    }
    Ok(())
}

//! Sets of equations, and what solving makes of them.
ghost use Rattle.std.specs.Prelude.{[], map, IfOk};
ghost use Rattle.std.specs.Bool.{OnFalse, OnTrue};
ghost use Rattle.lf.specs.Entries.{signature_of};
ghost use Rattle.lf.specs.Subordination.{Member};
ghost use Rattle.tw_metas.specs.Named.{named_of};
ghost use Rattle.tw_putting.specs.Ready.{IsReady};
ghost use Rattle.tw_putting.specs.Whole.{AreDistinct};
ghost use Rattle.tw_unify.specs.Answers.{StaysReady};
ghost use Rattle.tests_ready.specs.Checked.{IsNew};
ghost use Rattle.tw_metas.specs.View.{equation_of};

use std::alloc::{AllocError, Global};
use tests_forms::{
    Case, Form, FormFault, Names, begin_part, read_context, read_forms, read_metas, read_term,
    read_type, show_term, show_type,
};
use tests_ready::{are_ready, declared};
use tw_fixity::Name;
use tw_metas::{Equation, LeftEquation, Store};
use tw_signature::Signature;
use tw_terms::{MetaId, OpenContext, OpenHead};
use tw_unify::{
    Unified, UnifyFault, Walk, all_left_over_are_left, left_equation, solve, solve_more,
};

/// What is asked for isn't typed in a way that can be told.
pub(crate) const NOT_ASKED: &str = "can't be asked";

/// The equations of a case, each by a field `equation LEFT = RIGHT : TYPE`.
pub(crate) fn read_equations(
    alloc: Global,
    names: &mut Names,
    context: &OpenContext,
    case: &Case,
) -> Result<Vec<Equation>, FormFault> {
    let mut equations = Vec::new(alloc);
    for field in &case.fields {
        if field.word.as_str() == "equation" {
            let forms = read_forms(alloc, field.text.as_str())?;
            match forms.as_slice() {
                [left, Form::Word(equals), right, Form::Word(colon), ty]
                    if equals.as_str() == "=" && colon.as_str() == ":" => {
                    equations.push(Equation {
                        context: context.copy(alloc)?,
                        left: read_term(alloc, names, left)?,
                        right: read_term(alloc, names, right)?,
                        ty: read_type(alloc, names, ty)?,
                    })?;
                }
                _ => return Err(FormFault::NoMeaning),
            }
        }
    }
    Ok(equations)
}

/// What came of the equations: the answer, the equations that are left, and the values that are asked for. They are solved in a new store, or solved on there, and once more where some are left.
pub(crate) fn solved(
    alloc: Global,
    signature: &Signature,
    names: &mut Names,
    case: &Case,
) -> Result<String, FormFault> {
    case.has_only(&["meta", "locals", "equation", "named", "values"])?;
    let types = read_metas(alloc, names, case)?;
    let locals = read_forms(alloc, case.text("locals")?)?;
    let context = read_context(alloc, names, &locals)?;
    let equations = read_equations(alloc, names, &context, case)?;
    let mut store = declared(alloc, &types)?;
    if !are_ready(alloc, signature, &store, &equations)? {
        return Ok(String::from_str(alloc, NOT_ASKED)?);
    }
    let on = case.kind.as_str() == "more";
    let answer = solve_or_on(alloc, &mut store, signature, equations, on);
    let mut line = String::new(alloc);
    match answer {
        Ok(Unified::Solved) if store.equations().is_empty() => line.push_str("solved")?,
        Ok(Unified::Solved) => line.push_str("solved with equations")?,
        Ok(Unified::Never) => line.push_str("never")?,
        Ok(Unified::Left) => show_left(alloc, &mut line, signature, names, &store, case)?,
        Err(UnifyFault::TooDeep) => line.push_str("too deep")?,
        Err(UnifyFault::NoMemory) => return Err(FormFault::NoMemory),
    }
    names.leave_scope(0);
    show_values(alloc, &mut line, names, &store, case)?;
    Ok(line)
}

/// Solves in a store in which nothing stands, or solves on there.
fn solve_or_on(
    alloc: Global,
    store: &mut Store,
    signature: &Signature,
    equations: Vec<Equation>,
    on: bool,
) -> Result<Unified, UnifyFault>
    requires new { IsNew store.old.now }
    requires ready { IsReady (signature_of signature.now) (map equation_of equations.items) store.old.now }
    ensures { IfOk result (λ a. StaysReady a (signature_of signature.now) store.new.now) }
{
    if on {
        solve_twice(alloc, store, signature, equations)
    } else {
        solve(alloc, store, signature, equations)
    }
}

/// Solves on in a store in which nothing stands, and once more with no new equation where some are left.
fn solve_twice(
    alloc: Global,
    store: &mut Store,
    signature: &Signature,
    equations: Vec<Equation>,
) -> Result<Unified, UnifyFault>
    requires new { IsNew store.old.now }
    requires ready { IsReady (signature_of signature.now) (map equation_of equations.items) store.old.now }
    ensures { IfOk result (λ a. StaysReady a (signature_of signature.now) store.new.now) }
{
    let mut met = Walk::new(alloc);
    match solve_more(alloc, store, signature, equations, &mut met)? {
        Unified::Left => {
            all_left_over_are_left();
            solve_more(alloc, store, signature, Vec::new(alloc), &mut met)
        }
        other => Ok(other),
    }
}

// The metavariables that are shown by their names: those that the case lists, or else all that it declares.
fn read_named(alloc: Global, names: &Names, case: &Case) -> Result<Vec<(MetaId, Name)>, FormFault> {
    let mut named = Vec::new(alloc);
    for field in &case.fields {
        let listed = field.word.as_str() == "named";
        if listed || (field.word.as_str() == "meta" && case.text("named")?.is_empty()) {
            let forms = read_forms(alloc, field.text.as_str())?;
            let words = if listed { forms.len() } else { 1 };
            for form in forms.iter().take(words) {
                let word = form.word().ok_or(FormFault::NoMeaning)?;
                named.push((names.meta(word)?, Name::from_text(alloc, word)?))?;
            }
        }
    }
    Ok(named)
}

/// Whether no metavariable has two names.
fn are_distinct(named: &[(MetaId, Name)]) -> bool
    ensures { OnTrue result (AreDistinct (map (λ n. n.0) (map named_of named.now))) }
{
    let mut place = named.len();
    while place > 0 {
        place -= 1;
        if is_named(&named[place + 1..], named[place].0) {
            return false;
        }
    }
    true
}

/// Whether the metavariable has a name.
fn is_named(named: &[(MetaId, Name)], meta: MetaId) -> bool
    ensures { OnFalse result (Member meta.0 (map (λ n. n.0) (map named_of named.now)) → ⊥) }
{
    for (other, _) in named {
        if other.0 == meta.0 {
            return true;
        }
    }
    false
}

// how many equations are left, and each as it is shown
fn show_left(
    alloc: Global,
    line: &mut String,
    signature: &Signature,
    names: &mut Names,
    store: &Store,
    case: &Case,
) -> Result<(), FormFault>
    requires { IsReady (signature_of signature.now) [] store.now.now }
{
    let named = read_named(alloc, names, case)?;
    if !are_distinct(&named) {
        return Err(FormFault::NoMeaning);
    }
    let told = !case.text("named")?.is_empty();
    let count = store.equations().len();
    write!(line, "left {}", count)?;
    for at in 0..count {
        begin_part(line)?;
        match left_equation(alloc, store, signature, at, &named) {
            Ok(left) => show_equation(alloc, line, names, &left, told)?,
            Err(UnifyFault::TooDeep) => line.push_str("too deep")?,
            Err(UnifyFault::NoMemory) => return Err(FormFault::NoMemory),
        }
    }
    Ok(())
}

// The equation in the local context, whose first variables are in scope, and before it the types of its metavariables where they are told. A metavariable without
// a name has its number among those of the equation.
fn show_equation(
    alloc: Global,
    line: &mut String,
    names: &mut Names,
    left: &LeftEquation,
    told: bool,
) -> Result<(), FormFault> {
    let scope = names.scope();
    let before = names.replace_metas(shown_metas(alloc, left)?);
    if told {
        show_types(alloc, line, names, left)?;
    }
    let equation = &left.equation;
    for _ in scope..equation.context.len() {
        names.push_made(alloc)?;
    }
    show_term(alloc, line, names, &equation.left)?;
    line.push_str(" = ")?;
    show_term(alloc, line, names, &equation.right)?;
    line.push_str(" : ")?;
    show_type(alloc, line, names, &equation.ty)?;
    names.leave_scope(scope);
    names.replace_metas(before);
    Ok(())
}

fn show_types(
    alloc: Global,
    line: &mut String,
    names: &mut Names,
    left: &LeftEquation,
) -> Result<(), AllocError> {
    for (place, (_, ty)) in left.metas.iter().enumerate() {
        names.show_head(line, OpenHead::Meta(MetaId(place as u64)))?;
        line.push_str(" : ")?;
        show_type(alloc, line, names, ty)?;
        line.push_str(", ")?;
    }
    Ok(())
}

fn shown_metas(alloc: Global, left: &LeftEquation) -> Result<Vec<String>, AllocError> {
    let mut metas = Vec::new(alloc);
    for (place, name) in left.names.iter().enumerate() {
        metas.push(match name {
            Some(name) => word_of(alloc, name)?,
            None => format!(in alloc; "?{place}")?,
        })?;
    }
    Ok(metas)
}

fn word_of(alloc: Global, name: &Name) -> Result<String, AllocError> {
    let mut word = String::new(alloc);
    for byte in name.as_bytes() {
        word.push(char::from(*byte))?;
    }
    Ok(word)
}

// the values of the metavariables that the case asks for
pub(crate) fn show_values(
    alloc: Global,
    line: &mut String,
    names: &mut Names,
    store: &Store,
    case: &Case,
) -> Result<(), FormFault> {
    for form in &read_forms(alloc, case.text("values")?)? {
        let word = form.word().ok_or(FormFault::NoMeaning)?;
        let meta = names.meta(word)?;
        begin_part(line)?;
        line.push_str(word)?;
        match store.value(meta) {
            Some(value) => {
                line.push_str(" = ")?;
                show_term(alloc, line, names, value)?;
            }
            None if store.about(meta).is_some() => line.push_str(" is open")?,
            None => line.push_str(" isn't there")?,
        }
    }
    Ok(())
}

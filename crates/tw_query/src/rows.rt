//! The lines of an answer: the variables that are shown, with their values and the types of these.
ghost use Rattle.std.specs.Prelude.{◌≡◌, ◌++◌, List, IfOk, OnOk, map, option_map, slice_get};
ghost use Rattle.lf.specs.Syntax.{LfType};
ghost use Rattle.lf.specs.Typing.{Signature};
ghost use Rattle.lf_unification.specs.Offering.{pi_over};
ghost use Rattle.tw_metas.specs.State.{joined};
ghost use Rattle.tw_signature.specs.Goal.{goal_of};
ghost use Rattle.tw_terms.specs.View.{term_of, type_of};
ghost use Rattle.tw_query.specs.Rows.{FitAlong, Suffices, option_list, row_of, types_needed};
ghost use Rattle.tw_query.specs.Text.{at, row_in, rows_of, types_along};

use std::alloc::{AllocError, Global};
use tw_fixity::Name;
use tw_print::instantiated;
use tw_search::{Answer, place_of};
use tw_signature::Goal;
use tw_terms::{Context, Term, Ty, skeleton};

/// A line of an answer: the name of a variable of the query, its value, and the type by which it is shown.
#[derive(Drop)]
pub(crate) struct Row<'a> {
    pub(crate) name: &'a Name,
    pub(crate) value: &'a Term,
    pub(crate) ty: Ty,
}

/// The lines for the variables that are shown, in the order of the text, and for the proof, if it has a name.
pub(crate) fn rows<'a>(
    alloc: Global,
    goal: &'a Goal,
    answer: &'a Answer,
) -> Result<Vec<Row<'a>>, AllocError>
    requires { (Σ : Signature) × (F : List LfType) × FitAlong Σ F (pi_over goal.now.variables (type_of goal.now.goal)) (map term_of answer.now.values.items) }
    ensures { IfOk result (λ v. map row_of v.items ≡ rows_of (goal_of goal.now) (map term_of answer.now.values.items) (option_map term_of answer.now.proof)) }
{
    let over = type_over(alloc, &goal.variables, goal.goal.copy(alloc)?)?;
    let types = types_along(alloc, over, &answer.values, needed(goal)?)?;
    let mut rows = Vec::new(alloc);
    for variable in &goal.shown {
        let place = place_of(&goal.variables, *variable);
        let row = line(
            alloc,
            name_of(goal, *variable),
            value_at(&answer.values, place),
            type_at(&types, place),
        )?;
        add(&mut rows, row)?;
    }
    let place = Some(goal.variables.len() as u64);
    let row = line(
        alloc,
        name_in(&goal.proof),
        proof_in(&answer.proof),
        type_at(&types, place),
    )?;
    add(&mut rows, row)?;
    Ok(rows)
}

/// How many types the lines may need: one for each variable, and one more where the proof has a name. Fails where no context in memory is so long.
fn needed(goal: &Goal) -> Result<usize, AllocError>
    ensures { IfOk result (λ n. n ≡ types_needed (goal_of goal.now)) }
{
    let count = goal.variables.len();
    match &goal.proof {
        Some(_) => count.checked_add(1).ok_or(AllocError),
        None => Ok(count),
    }
}

/// The type under a quantifier for each variable of the context.
fn type_over(alloc: Global, context: &Context, ty: Ty) -> Result<Ty, AllocError>
    ensures { IfOk result (λ a. type_of a ≡ pi_over context.now (type_of ty)) }
{
    let mut over = ty;
    for variable in 0..context.len() as u64 {
        match context.get(variable) {
            Some(domain) => {
                let domain = Box::new(alloc, domain.copy(alloc)?)?;
                over = Ty::Pi(domain, Box::new(alloc, over)?);
            }
            None => unreachable!(),
        }
    }
    Ok(over)
}

/// The types of terms that are put in for the quantifiers of a type, and the type that is left; no more than are needed.
fn types_along(alloc: Global, ty: Ty, terms: &[Term], needed: usize) -> Result<Vec<Ty>, AllocError>
    requires { (Σ : Signature) × (F : List LfType) × FitAlong Σ F (type_of ty) (map term_of terms.now) }
    ensures { IfOk result (λ v. Suffices needed (map type_of v.items) (types_along (type_of ty) (map term_of terms.now))) }
{
    let mut types = Vec::new(alloc);
    let mut left = ty;
    for term in terms {
        match left {
            Ty::Pi(domain, range) => {
                let shape = skeleton(alloc, &domain)?;
                types.push(Box::into_inner(domain))?;
                if types.len() == needed {
                    return Ok(types);
                }
                left = instantiated(alloc, &range, term, &shape)?;
            }
            Ty::Atom(_, _) => unreachable!(),
        }
    }
    types.push(left)?;
    Ok(types)
}

/// The name of a variable of the goal, if it has one.
fn name_of(goal: &Goal, variable: u64) -> Option<&Name>
    ensures { option_map (λ n. n.now) result ≡ joined (slice_get goal.now.names.items variable) }
{
    match goal.names.get(variable as usize) {
        Some(name) => name_in(name),
        None => None,
    }
}

fn name_in(name: &Option<Name>) -> Option<&Name>
    ensures { option_map (λ n. n.now) result ≡ name.now }
{
    match name {
        Some(name) => Some(name),
        None => None,
    }
}

/// The value at a place, the outermost variable's first.
fn value_at(values: &[Term], place: Option<u64>) -> Option<&Term>
    ensures { option_map (λ t. term_of t.now) result ≡ at (map term_of values.now) place }
{
    values.get(place? as usize)
}

/// The proof, where it was read.
fn proof_in(proof: &Option<Term>) -> Option<&Term>
    ensures { option_map (λ t. term_of t.now) result ≡ option_map term_of proof.now }
{
    match proof {
        Some(proof) => Some(proof),
        None => None,
    }
}

/// The type at a place.
fn type_at(types: &[Ty], place: Option<u64>) -> Option<&Ty>
    ensures { option_map (λ t. type_of t.now) result ≡ at (map type_of types.now) place }
{
    types.get(place? as usize)
}

/// A line, where there are a name, a term and a type.
fn line<'a>(
    alloc: Global,
    name: Option<&'a Name>,
    value: Option<&'a Term>,
    ty: Option<&Ty>,
) -> Result<Option<Row<'a>>, AllocError>
    ensures { IfOk result (λ r. option_list r ≡ row_in (option_map (λ n. n.now) name.entry) (option_map (λ t. term_of t.now) value.entry) (option_map (λ t. type_of t.now) ty.entry)) }
{
    let Some(name) = name else {
        return Ok(None);
    };
    let Some(value) = value else {
        return Ok(None);
    };
    let Some(ty) = ty else {
        return Ok(None);
    };
    let ty = ty.copy(alloc)?;
    Ok(Some(Row { name, value, ty }))
}

/// One more line, if there is one.
fn add<'a>(rows: &mut Vec<Row<'a>>, row: Option<Row<'a>>) -> Result<(), AllocError>
    ensures { OnOk result (map row_of rows.new.items ≡ map row_of rows.old.items ++ option_list row.entry) }
{
    if let Some(row) = row {
        rows.push(row)?;
    }
    Ok(())
}

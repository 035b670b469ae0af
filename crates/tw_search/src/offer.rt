//! A head offered to a goal: it is applied to new metavariables, the hole is bound to it, and what is left are equations.
ghost use Rattle.std.specs.Prelude.{◌≡◌, List, [], ◌∷◌, ◌++◌, IfOk, IsErrOf, OnOk, length, map};
ghost use Rattle.lf.specs.Depth.{depth_limit};
ghost use Rattle.lf.specs.Entries.{signature_of};
ghost use Rattle.lf.specs.Syntax.{Spine};
ghost use Rattle.lf_checks.specs.Parts.{shape};
ghost use Rattle.lf_unification.specs.Offering.{lambda_over, local_arguments as local_arguments_of};
ghost use Rattle.lf_unification.specs.Search.{OfferedHeadHasType};
ghost use Rattle.lf_unification.specs.Unifiers as unifiers;
ghost use Rattle.tw_metas.specs.State.{IsUnbound};
ghost use Rattle.tw_metas.specs.View.{equation_of};
ghost use Rattle.tw_putting.specs.Ready.{IsLater};
ghost use Rattle.tw_terms.specs.OpenView.{open_head_of, open_spine_of, open_term_of};
ghost use Rattle.tw_terms.specs.View.{head_of};
ghost use Rattle.tw_search.specs.Goals.{IsHeadFor, StandsAtGoal};
ghost use Rattle.tw_search.specs.HeadTypes.{head_type_of};
ghost use Rattle.tw_search.specs.Offers.{EquationsFit, HasEquations, OffersNew, offered_arguments, unmarked as unmarked_of};
ghost use Rattle.tw_open.specs.Deep.{HasDeepType};
ghost use Rattle.tw_open.specs.Fits.{TypeStands};
ghost use Rattle.tw_open.specs.View.{made_with};
ghost use Rattle.tw_search.specs.Taking.{numbers_from};

use crate::goal::{OpenGoal, indices};
use crate::head_type::{HeadType, placed_arguments, target_arguments};
use crate::taking::{Taken, take_all};
use std::alloc::{AllocError, Global};
use tw_hered::HeredFault;
use tw_metas::{Equation, Store};
use tw_open::kind_equations;
use tw_signature::Signature;
use tw_terms::{Head, MetaId, Open, OpenContext, OpenHead, OpenSpine};

/// What was offered: the new metavariables, the local variables that each of them stands on, and the holes of the head's subgoals, in the order of its quantifiers.
#[derive(Drop)]
pub(crate) struct Offered {
    pub(crate) metas: Vec<MetaId>,
    pub(crate) arguments: OpenSpine,
    pub(crate) subgoals: Vec<MetaId>,
}

/// Offers a head of this type to the goal; `variables` says which of its quantifiers are variables. The hole is bound to the head on new metavariables, one for each quantifier. Fails only for want of memory.
pub(crate) fn offer<'a>(
    alloc: Global,
    store: &mut Store,
    signature: &Signature,
    goal: &OpenGoal,
    head: Head,
    ty: HeadType<'a>,
    variables: &[bool],
) -> Result<Offered, AllocError>
    requires goal { StandsAtGoal (signature_of signature.now) store.old.now goal.now }
    requires head { IsHeadFor (signature_of signature.now) goal.now (head_of head) }
    requires typed { OfferedHeadHasType (signature_of signature.now) goal.now.locals (head_of head) (head_type_of ty) }
    requires variables { variables.now ≡ shape (head_type_of ty) }
    ensures ok { IfOk result (λ o. OffersNew (signature_of signature.now) store.old.now goal.now (head_of head) (head_type_of ty.entry) o.metas.items o.subgoals.items store.new.now) }
    ensures metas { IfOk result (λ o. map (λ m. m.0) o.metas.items ≡ numbers_from (length store.old.now.declared) (head_type_of ty.entry)) }
    ensures arguments { IfOk result (λ o. open_spine_of o.arguments ≡ local_arguments_of goal.now.locals) }
    ensures story { IsLater store.old store.new }
{
    signature.is_canonical();
    let taken = take_all(alloc, store, &goal.locals, ty, variables.len())?;
    let subgoals = unmarked(alloc, variables, &taken.metas)?;
    let Taken {
        spine,
        metas,
        arguments,
    } = taken;
    let root = Open::Root(head_opened(head), spine);
    let value = lambdas(alloc, &goal.locals, root)?;
    store.bind(goal.hole, value)?;
    Ok(Offered {
        metas,
        arguments,
        subgoals,
    })
}

/// The equations of the goal's arguments and those of the head's target, with the new metavariables put in. Answers `TooDeep` only where the type of one of them is deeper than 4,096.
pub(crate) fn equations<'a>(
    alloc: Global,
    store: &Store,
    signature: &Signature,
    goal: &OpenGoal,
    offered: &Offered,
    ty: HeadType<'a>,
) -> Result<Vec<Equation>, HeredFault>
    requires fits { EquationsFit (signature_of signature.now) store.now.now goal.now }
    requires arguments { open_spine_of offered.now.arguments ≡ local_arguments_of goal.now.locals }
    ensures ok { IfOk result (λ v. HasEquations (signature_of signature.now) store.now.now goal.now (offered_arguments goal.now offered.now.metas.items (head_type_of ty.entry)) (map equation_of v.items)) }
    ensures too_deep { IsErrOf result HeredFault.TooDeep → (es : List unifiers.Equation) → HasEquations (signature_of signature.now) store.now.now goal.now (offered_arguments goal.now offered.now.metas.items (head_type_of ty.entry)) es → HasDeepType depth_limit es }
{
    let arguments = placed_arguments(
        alloc,
        &offered.arguments,
        &offered.metas,
        target_arguments(ty),
    )?;
    match signature.family_kind(goal.family) {
        Some(kind) => {
            let left = indices(store, goal.hole);
            kind_equations(alloc, &goal.locals, kind, left, arguments)
        }
        None => unreachable!(),
    }
}

/// The head as one of an open term.
fn head_opened(head: Head) -> OpenHead
    ensures { open_head_of result ≡ head_of head }
{
    match head {
        Head::Const(id) => OpenHead::Const(id),
        Head::Var(variable) => OpenHead::Var(variable),
    }
}

/// The term under a lambda for each variable of the local context.
fn lambdas(alloc: Global, locals: &OpenContext, body: Open) -> Result<Open, AllocError>
    ensures { IfOk result (λ m. open_term_of m ≡ lambda_over locals.now (open_term_of body)) }
{
    let mut term = body;
    for _ in 0..locals.len() {
        term = Open::Lam(Box::new(alloc, term)?);
    }
    Ok(term)
}

/// The metavariables at the places that aren't marked.
fn unmarked(alloc: Global, marks: &[bool], metas: &[MetaId]) -> Result<Vec<MetaId>, AllocError>
    ensures { IfOk result (λ v. v.items ≡ unmarked_of marks.now metas.now) }
{
    let mut found = Vec::new(alloc);
    for (place, meta) in metas.iter().enumerate() {
        match marks.get(place) {
            Some(mark) => push_unless(&mut found, *mark, *meta)?,
            None => return Ok(found),
        }
    }
    Ok(found)
}

/// The metavariable comes behind the others, unless it is marked.
fn push_unless(found: &mut Vec<MetaId>, mark: bool, meta: MetaId) -> Result<(), AllocError>
    ensures { OnOk result (found.new.items ≡ found.old.items ++ unmarked_of (mark ∷ []) (meta ∷ [])) }
{
    if !mark {
        found.push(meta)?;
    }
    Ok(())
}

//! The definition that an answer gives.
ghost use Rattle.std.specs.Prelude.{◌≡◌, ◌↔◌, ◌+◌, ◌++◌, ◌∷◌, ℕ, List, Bool, Some, false, true, IfOk, IsSome, IsTrue, length, map, option_map, reverse, slice_get};
ghost use Rattle.lf.specs.Depth.{depth_limit};
ghost use Rattle.lf.specs.Entries.{declare_definition, signature_of, quantifiers, BodyIsTyped, BodyIsWithin};
ghost use Rattle.lf.specs.Syntax.{LfType, Term as LfTerm};
ghost use Rattle.lf.specs.Typing.{HasType, IsContext, IsType, Signature as Theory};
ghost use Rattle.lf_elaboration.specs.Principal.{body_over};
ghost use Rattle.lf_unification.specs.Offering.{pi_over};
ghost use Rattle.tw_metas.specs.State.{joined};
ghost use Rattle.tw_parse.specs.View.{term_of as written_of};
ghost use Rattle.tw_query.specs.Rows.{FitAlong};
ghost use Rattle.tw_query.specs.Runs.{IsTypedAnswer};
ghost use Rattle.tw_recon.specs.Causes.{BodyReachesDeep};
ghost use Rattle.tw_recon.specs.Hints.{fitted};
ghost use Rattle.tw_reorder.specs.Reordered.{AreReordered};
ghost use Rattle.tw_search.specs.Answers.{values_of};
ghost use Rattle.tw_signature.specs.Goal.{goal_of};
ghost use Rattle.tw_signature.specs.View.{body_of, entry_of};
ghost use Rattle.tw_terms.specs.View.{term_of, type_of};
ghost use Rattle.tw_decl.specs.SearchSteps.{type_left};
ghost use Rattle.tw_decl.specs.Solutions.{AreHints, IsAlone, IsSolution, NamedBy, answer_type};

use std::alloc::{AllocError, Global};
use tw_abstract::Positions;
use tw_fixity::{Name, copy_option};
use tw_hered::eta;
use tw_kernel::{Verdict, check_term, check_type};
use tw_names::hints;
use tw_parse::ExtTerm;
use tw_print::instantiated;
use tw_recon::{closed_body, closed_type};
use tw_reorder::{Reordered, reorder};
use tw_search::Answer;
use tw_signature::{Body, Entry, Goal, Signature};
use tw_terms::{Context, DEPTH_LIMIT, Head, MetaId, Term, Ty, skeleton};

// The type that is left of a type behind its first quantifiers, for which terms are put in.
fn type_left(alloc: Global, ty: Ty, terms: &[Term]) -> Result<Ty, AllocError>
    requires { (Σ : Theory) × (F : List LfType) × FitAlong Σ F (type_of ty) (map term_of terms.now) }
    ensures { IfOk result (λ a. type_of a ≡ type_left (type_of ty) (map term_of terms.now)) }
{
    let mut left = ty;
    for term in terms {
        match left {
            Ty::Pi(domain, range) => {
                let shape = skeleton(alloc, &domain)?;
                left = instantiated(alloc, &range, term, &shape)?;
            }
            Ty::Atom(_, _) => unreachable!(),
        }
    }
    Ok(left)
}

// The goal with the answer's values put in.
fn answer_type(
    alloc: Global,
    signature: &Signature,
    goal: &Goal,
    answer: &Answer,
) -> Result<Ty, AllocError>
    requires context { IsContext (signature_of signature.now) goal.now.variables }
    requires goal { IsType (signature_of signature.now) goal.now.variables (type_of goal.now.goal) }
    requires answer { IsTypedAnswer (signature_of signature.now) (goal_of goal.now) answer.now }
    ensures { IfOk result (λ a. type_of a ≡ answer_type (goal_of goal.now) answer.now) }
{
    signature.is_canonical();
    let over = closed_type(alloc, &goal.variables, goal.goal.copy(alloc)?)?;
    type_left(alloc, over, &answer.values)
}

// The value of a variable of the query.
fn value_of(answer: &Answer, variable: u64) -> Option<&Term>
    ensures { option_map (λ t. term_of t.now) result ≡ slice_get (values_of answer.now) variable }
{
    let count = answer.values.len() as u64;
    if variable >= count {
        return None;
    }
    Some(&answer.values[(count - 1 - variable) as usize])
}

// Whether the value of a variable of the query is this free variable alone, up to eta.
fn is_alone(alloc: Global, answer: &Answer, variable: u64, free: u64) -> Result<bool, AllocError>
    ensures { IfOk result (λ b. IsTrue b ↔ IsAlone answer.now variable free) }
{
    let Some(ty) = answer.free.get(free) else {
        return Ok(false);
    };
    let Some(value) = value_of(answer, variable) else {
        return Ok(false);
    };
    let shape = skeleton(alloc, ty)?;
    match eta(alloc, Head::Var(free), &shape) {
        Ok(expanded) => Ok(value.same(&expanded)),
        // No type of an answer is so deep; the clauses of a run don't say so.
        Err(_) => Err(AllocError),
    }
}

// The name of a variable of the query.
fn name_of(alloc: Global, goal: &Goal, variable: u64) -> Result<Option<Name>, AllocError>
    ensures { IfOk result (λ n. n ≡ joined (slice_get goal.now.names.items variable)) }
{
    match goal.names.get(variable as usize) {
        Some(name) => copy_option(alloc, name),
        None => Ok(None),
    }
}

// The hint of a free variable: the name of the first variable of the query that it is the value of, alone.
fn hint(alloc: Global, goal: &Goal, answer: &Answer, free: u64) -> Result<Option<Name>, AllocError>
    ensures { IfOk result (λ h. NamedBy (goal_of goal.now) answer.now goal.now.shown.items free h) }
{
    for variable in &goal.shown {
        if is_alone(alloc, answer, *variable, free)? {
            return name_of(alloc, goal, *variable);
        }
    }
    Ok(None)
}

// The hints of free variables.
fn hints_of(
    alloc: Global,
    goal: &Goal,
    answer: &Answer,
    order: &[MetaId],
) -> Result<Vec<Option<Name>>, AllocError>
    ensures { IfOk result (λ h. AreHints (goal_of goal.now) answer.now (map (λ m. m.0) order.now) h.items) }
{
    let mut hints = Vec::new(alloc);
    for free in order {
        let hint = hint(alloc, goal, answer, free.0)?;
        hints.push(hint)?;
    }
    Ok(hints)
}

// Takes the next name, where one is left.
fn next_hint(written: &mut Vec<Option<Name>>) -> Option<Name>
    ensures { (n : ℕ) → fitted (n + 1) (reverse written.old.items) ≡ result ∷ fitted n (reverse written.new.items) }
{
    match written.pop() {
        Some(hint) => hint,
        None => None,
    }
}

// Adds a hint for each leading quantifier of the type: these names, of which the next one is the last, and none behind them.
fn add_written(
    ty: &Ty,
    written: Vec<Option<Name>>,
    hints: Vec<Option<Name>>,
) -> Result<Vec<Option<Name>>, AllocError>
    ensures { IfOk result (λ h. h.items ≡ hints.items ++ fitted (quantifiers (type_of ty.now)) (reverse written.items)) }
{
    let mut written = written;
    let mut hints = hints;
    let mut rest = ty;
    while let Ty::Pi(_, range) = rest {
        let hint = next_hint(&mut written);
        hints.push(hint)?;
        rest = range;
    }
    Ok(hints)
}

// How many quantifiers there are.
fn implicit_count(quantifiers: &Context) -> Result<u32, AllocError>
    ensures { IfOk result (λ n. n ≡ length quantifiers.now) }
{
    let count = quantifiers.len();
    if count > u32::MAX as usize {
        // An answer of 2 ^ 32 free variables or more counts as want of memory; no clause of an answer says so.
        return Err(AllocError);
    }
    Ok(count as u32)
}

// The entry of an answer in the order of its free variables, closed over them.
fn closed(
    alloc: Global,
    name: Name,
    text: &ExtTerm,
    goal: &Goal,
    answer: &Answer,
    parts: Reordered,
) -> Result<Entry, AllocError>
    requires { (M : LfTerm) × (option_map term_of answer.now.proof ≡ Some M) × AreReordered answer.now.free (answer_type (goal_of goal.now) answer.now) M (map term_of answer.now.values.items) parts.order parts.context (type_of parts.ty) (term_of parts.term) }
    ensures solution { IfOk result (λ e. IsSolution name (written_of text.now) (goal_of goal.now) answer.now (entry_of e)) }
    ensures body { IfOk result (λ e. body_of e.body ≡ body_over parts.context (declare_definition (term_of parts.term) (type_of parts.ty) false)) }
{
    let Reordered {
        order,
        context,
        ty,
        term,
    } = parts;
    let named = hints_of(alloc, goal, answer, order.metas())?;
    let mut written = hints(alloc, text)?;
    written.reverse();
    let hints = add_written(&ty, written, named)?;
    let implicit = implicit_count(&context)?;
    let body = Body::Defined {
        term,
        ty,
        abbrev: false,
    };
    let body = closed_body(alloc, &context, body)?;
    Ok(Entry {
        name,
        body,
        implicit,
        hints,
    })
}

/// The entry of an answer of a goal that names its proof. Fails only for want of memory.
pub fn solution(
    alloc: Global,
    signature: &Signature,
    name: Name,
    text: &ExtTerm,
    goal: &Goal,
    answer: &Answer,
) -> Result<Entry, AllocError>
    requires context { IsContext (signature_of signature.now) goal.now.variables }
    requires goal { IsType (signature_of signature.now) goal.now.variables (type_of goal.now.goal) }
    requires named { IsSome goal.now.proof }
    requires answer { IsTypedAnswer (signature_of signature.now) (goal_of goal.now) answer.now }
    ensures solution { IfOk result (λ e. IsSolution name (written_of text.now) (goal_of goal.now) answer.now (entry_of e)) }
    ensures typed { IfOk result (λ e. BodyIsTyped (signature_of signature.now) (body_of e.body)) }
{
    signature.is_canonical();
    let ty = answer_type(alloc, signature, goal, answer)?;
    match &answer.proof {
        Some(proof) => {
            let parts = reorder(alloc, &answer.free, &ty, proof, &answer.values)?;
            closed(alloc, name, text, goal, answer, parts)
        }
        None => unreachable!(),
    }
}

// What the kernel says of a judgement that holds.
fn agrees(verdict: Verdict) -> bool
    requires { verdict ≡ Verdict.IllTyped → ⊥ }
    ensures no { result ≡ false → verdict ≡ Verdict.TooDeep }
{
    match verdict {
        Verdict::Typed => true,
        Verdict::IllTyped => unreachable!(),
        Verdict::TooDeep => false,
    }
}

/// Whether the kernel says yes to a typed body: it may say that it is too deep.
pub fn is_approved(alloc: Global, signature: &Signature, body: &Body) -> Result<bool, AllocError>
    requires typed { BodyIsTyped (signature_of signature.now) (body_of body.now) }
    requires defined { (M : LfTerm) × (A : LfType) × (b : Bool) × (body_of body.now ≡ declare_definition M A b) }
    ensures yes { IfOk result (λ b. b ≡ true → BodyIsWithin depth_limit (body_of body.now)) }
    ensures no { IfOk result (λ b. b ≡ false → BodyReachesDeep (signature_of signature.now) (body_of body.now)) }
{
    let Body::Defined { term, ty, .. } = body else {
        unreachable!()
    };
    if ty.depth() > DEPTH_LIMIT || term.depth() > DEPTH_LIMIT {
        return Ok(false);
    }
    let empty = Context::new(alloc);
    if !agrees(check_type(alloc, signature, &empty, ty)?) {
        return Ok(false);
    }
    Ok(agrees(check_term(alloc, signature, &empty, term, ty)?))
}

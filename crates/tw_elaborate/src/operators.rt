//! What is applied, and arguments that are put to it.
ghost use Rattle.std.specs.Prelude.{◌≡◌, ◌<◌, ℕ, IfOk, IsErrOf, IsTrue};
ghost use Rattle.lf.specs.Depth.{depth_limit, type_depth};
ghost use Rattle.lf.specs.Syntax.{Term as LfTerm, arrow, lambda, pi, skeleton};
ghost use Rattle.lf.specs.Substitution.{Image, reduce, single, substitute_type};
ghost use Rattle.lf.specs.Typing.{instantiate_type};
ghost use Rattle.tw_hered.specs.Fits.{TermFits, TypeFits};
ghost use Rattle.tw_terms.specs.OpenView.{open_term_of, open_type_of};
ghost use Rattle.tw_elaborate.specs.Operators.{Applies, IsTerm, PutsIn, PutsInDeep, TakesArgumentDeep, operator_of};

use std::alloc::{AllocError, Global};
use tw_hered::HeredFault;
use tw_open::{expanded, with_argument};
use tw_putting::{substitute, substitute_type};
use tw_terms::{Open, OpenHead, OpenSpine, OpenTy};

/// What arguments are put to.
#[derive(Drop, Debug)]
pub enum Operator {
    /// A head on the arguments that it has so far. It stands for its eta-long form, which is made once all arguments are there.
    Head(OpenHead, OpenSpine),
    /// Any other term.
    Term(Open),
}

/// The term that the operator stands for at its type. Fails only for want of memory.
pub fn whole(alloc: Global, operator: Operator, ty: &OpenTy) -> Result<Open, AllocError>
    ensures { IfOk result (λ m. open_term_of m ≡ operator_of (skeleton (open_type_of ty.now)) operator) }
{
    match operator {
        Operator::Head(head, spine) => expanded(alloc, head, spine, ty),
        Operator::Term(term) => Ok(term),
    }
}

/// The domain and the range of a function type. An atom has none, and memory counts as used up.
pub fn product(ty: OpenTy) -> Result<(OpenTy, OpenTy), AllocError>
    ensures { IfOk result (λ p. open_type_of ty ≡ pi (open_type_of p.0) (open_type_of p.1)) }
{
    match ty {
        OpenTy::Pi(domain, range) => Ok((Box::into_inner(domain), Box::into_inner(range))),
        // What has a skeleton has arguments only behind a function; no clause says that what is written has one.
        OpenTy::Atom(_, _) => Err(AllocError),
    }
}

/// The operator on an argument, and its type: a head has one argument more, and into another function's body the argument is put in.
pub fn put(
    alloc: Global,
    operator: Operator,
    domain: &OpenTy,
    range: OpenTy,
    arg: Open,
) -> Result<(Operator, OpenTy), HeredFault>
    requires applies { Applies (skeleton (open_type_of domain.now)) (skeleton (open_type_of range)) (operator_of (arrow (skeleton (open_type_of domain.now)) (skeleton (open_type_of range))) operator) (open_term_of arg) }
    requires range { TypeFits (single (skeleton (open_type_of domain.now)) (open_term_of arg)) (open_type_of range) }
    ensures ok { IfOk result (λ p. let a = skeleton (open_type_of domain.now) in let b = skeleton (open_type_of range) in PutsIn a (operator_of (arrow a b) operator) (open_term_of arg) (operator_of b p.0) × (open_type_of p.1 ≡ instantiate_type (open_type_of domain.now) (open_term_of arg) (open_type_of range))) }
    ensures stays { IfOk result (λ p. IsTerm p.0 → IsTerm operator) }
    ensures too_deep { IsErrOf result HeredFault.TooDeep → TakesArgumentDeep operator (open_type_of domain.now) (open_type_of range) (open_term_of arg) }
{
    let rest = left_over(alloc, domain, range, &arg)?;
    match operator {
        Operator::Head(head, spine) => {
            Ok((Operator::Head(head, with_argument(spine, arg)?), rest))
        }
        Operator::Term(function) => {
            let term = reduced(alloc, &function, domain, &arg)?;
            Ok((Operator::Term(term), rest))
        }
    }
}

/// The body of a function with the argument put in.
fn reduced(alloc: Global, function: &Open, domain: &OpenTy, arg: &Open) -> Result<Open, HeredFault>
    requires { (R : LfTerm) → open_term_of function.now ≡ lambda R → TermFits (single (skeleton (open_type_of domain.now)) (open_term_of arg.now)) R }
    ensures ok { IfOk result (λ m. PutsIn (skeleton (open_type_of domain.now)) (open_term_of function.now) (open_term_of arg.now) (open_term_of m)) }
    ensures too_deep { IsErrOf result HeredFault.TooDeep → PutsInDeep (skeleton (open_type_of domain.now)) (open_term_of function.now) (open_term_of arg.now) }
{
    match function {
        Open::Lam(body) => Ok(substitute(alloc, body, 0, arg, domain)?),
        // A canonical term of a function type is a lambda; what is asked here speaks of the body alone.
        Open::Root(_, _) => Err(HeredFault::NoMemory),
    }
}

/// The type that is left behind an argument: the range itself, where it is simple.
fn left_over(
    alloc: Global,
    domain: &OpenTy,
    range: OpenTy,
    arg: &Open,
) -> Result<OpenTy, HeredFault>
    requires { TypeFits (single (skeleton (open_type_of domain.now)) (open_term_of arg.now)) (open_type_of range) }
    ensures ok { IfOk result (λ a. open_type_of a ≡ instantiate_type (open_type_of domain.now) (open_term_of arg.now) (open_type_of range)) }
    ensures too_deep { IsErrOf result HeredFault.TooDeep → depth_limit < type_depth (instantiate_type (open_type_of domain.now) (open_term_of arg.now) (open_type_of range)) }
{
    if is_simple(&range) {
        Ok(range)
    } else {
        instantiated(alloc, &range, arg, domain)
    }
}

/// The type with an argument of the type `ty` put in for its newest variable. `TooDeep` only where it is deeper than 4,096.
#[inline(never)]
pub fn instantiated(
    alloc: Global,
    body: &OpenTy,
    arg: &Open,
    ty: &OpenTy,
) -> Result<OpenTy, HeredFault>
    requires { TypeFits (single (skeleton (open_type_of ty.now)) (open_term_of arg.now)) (open_type_of body.now) }
    ensures ok { IfOk result (λ a. open_type_of a ≡ instantiate_type (open_type_of ty.now) (open_term_of arg.now) (open_type_of body.now)) }
    ensures too_deep { IsErrOf result HeredFault.TooDeep → depth_limit < type_depth (instantiate_type (open_type_of ty.now) (open_term_of arg.now) (open_type_of body.now)) }
{
    substitute_type(alloc, body, 0, arg, ty)
}

/// Whether no family in the type has arguments. Then it is the same whatever is put in.
fn is_simple(ty: &OpenTy) -> bool
    ensures { IsTrue result → (σ : ℕ → Image) → substitute_type reduce σ (open_type_of ty.now) ≡ open_type_of ty.now }
{
    match ty {
        OpenTy::Pi(domain, range) => is_simple(domain) && is_simple(range),
        OpenTy::Atom(_, spine) => spine.args.is_empty(),
    }
}

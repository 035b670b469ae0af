//! Open terms and types in which no metavariable occurs, as closed ones.
ghost use Rattle.std.specs.Prelude.{◌≡◌, true, false, IfOk, MatchOption};
ghost use Rattle.tw_terms.specs.OpenView.{open_head_of, open_term_of, open_spine_of, open_type_of};
ghost use Rattle.tw_terms.specs.View.{head_of, term_of, spine_of, type_of};
ghost use Rattle.tw_putting.specs.Closed.{is_metavariable, has_metavariable, has_metavariable_in_spine, has_metavariable_in_type};

use std::alloc::{AllocError, Global};
use tw_terms::{Head, Open, OpenHead, OpenSpine, OpenTy, Spine, Term, Ty};

/// The same term with no metavariable, or None where one occurs in it. Fails only for want of memory.
#[cycle(closing)]
pub fn closed_term(alloc: Global, term: &Open) -> Result<Option<Term>, AllocError>
    ensures { IfOk result (λ r. let M = open_term_of term.now in MatchOption r (has_metavariable M ≡ true) (λ t. (term_of t ≡ M) × (has_metavariable M ≡ false))) }
{
    match term {
        Open::Lam(body) => match closed_term(alloc, body)? {
            Some(body) => Ok(Some(Term::Lam(Box::new(alloc, body)?))),
            None => Ok(None),
        },
        Open::Root(head, spine) => {
            let Some(head) = closed_head(*head) else {
                return Ok(None);
            };
            match closed_spine(alloc, spine)? {
                Some(spine) => Ok(Some(Term::Root(head, spine))),
                None => Ok(None),
            }
        }
    }
}

/// The same of each argument.
#[cycle(closing)]
pub fn closed_spine(alloc: Global, spine: &OpenSpine) -> Result<Option<Spine>, AllocError>
    ensures { IfOk result (λ r. let S = open_spine_of spine.now in MatchOption r (has_metavariable_in_spine S ≡ true) (λ s. (spine_of s ≡ S) × (has_metavariable_in_spine S ≡ false))) }
{
    let mut args = Vec::with_capacity(alloc, spine.args.len())?;
    for arg in &spine.args {
        match closed_term(alloc, arg)? {
            Some(arg) => args.push(arg)?,
            None => return Ok(None),
        }
    }
    Ok(Some(Spine { args }))
}

/// The same of a type.
pub fn closed_type(alloc: Global, ty: &OpenTy) -> Result<Option<Ty>, AllocError>
    ensures { IfOk result (λ r. let A = open_type_of ty.now in MatchOption r (has_metavariable_in_type A ≡ true) (λ a. (type_of a ≡ A) × (has_metavariable_in_type A ≡ false))) }
{
    match ty {
        OpenTy::Pi(domain, range) => {
            let Some(domain) = closed_type(alloc, domain)? else {
                return Ok(None);
            };
            let Some(range) = closed_type(alloc, range)? else {
                return Ok(None);
            };
            let domain = Box::new(alloc, domain)?;
            Ok(Some(Ty::Pi(domain, Box::new(alloc, range)?)))
        }
        OpenTy::Atom(family, spine) => match closed_spine(alloc, spine)? {
            Some(spine) => Ok(Some(Ty::Atom(*family, spine))),
            None => Ok(None),
        },
    }
}

/// The same of a head.
fn closed_head(head: OpenHead) -> Option<Head>
    ensures { let h = open_head_of head in MatchOption result (is_metavariable h ≡ true) (λ k. (head_of k ≡ h) × (is_metavariable h ≡ false)) }
{
    match head {
        OpenHead::Const(constant) => Some(Head::Const(constant)),
        OpenHead::Var(variable) => Some(Head::Var(variable)),
        OpenHead::Meta(_) => None,
    }
}

//! The metavariables that occur in open types, with repeats.
ghost use Rattle.std.specs.Prelude.{◌≡◌, ◌++◌, IfOk, map};
ghost use Rattle.tw_terms.specs.OpenView.{open_head_of, open_term_of, open_spine_of, open_type_of};
ghost use Rattle.tw_abstract.specs.Occurrences.{head_occurrences, occurrences, spine_occurrences, type_occurrences};

use std::alloc::AllocError;
use tw_terms::{MetaId, Open, OpenHead, OpenSpine, OpenTy};

/// Adds the metavariables of the type from the left.
pub fn list_type(list: &mut Vec<MetaId>, ty: &OpenTy) -> Result<(), AllocError>
    ensures { IfOk result (λ _. map (λ n. n.0) list.new.items ≡ map (λ n. n.0) list.old.items ++ type_occurrences (open_type_of ty.now)) }
{
    match ty {
        OpenTy::Pi(domain, range) => {
            list_type(list, domain)?;
            list_type(list, range)
        }
        OpenTy::Atom(_, spine) => list_spine(list, spine),
    }
}

/// The same of a term.
#[cycle(listing)]
fn list_term(list: &mut Vec<MetaId>, term: &Open) -> Result<(), AllocError>
    ensures { IfOk result (λ _. map (λ n. n.0) list.new.items ≡ map (λ n. n.0) list.old.items ++ occurrences (open_term_of term.now)) }
{
    match term {
        Open::Lam(body) => list_term(list, body),
        Open::Root(head, spine) => {
            list_head(list, *head)?;
            list_spine(list, spine)
        }
    }
}

/// The same of each argument.
#[cycle(listing)]
fn list_spine(list: &mut Vec<MetaId>, spine: &OpenSpine) -> Result<(), AllocError>
    ensures { IfOk result (λ _. map (λ n. n.0) list.new.items ≡ map (λ n. n.0) list.old.items ++ spine_occurrences (open_spine_of spine.now)) }
{
    for arg in &spine.args {
        list_term(list, arg)?;
    }
    Ok(())
}

/// The same of a head.
fn list_head(list: &mut Vec<MetaId>, head: OpenHead) -> Result<(), AllocError>
    ensures { IfOk result (λ _. map (λ n. n.0) list.new.items ≡ map (λ n. n.0) list.old.items ++ head_occurrences (open_head_of head)) }
{
    match head {
        OpenHead::Const(_) => Ok(()),
        OpenHead::Var(_) => Ok(()),
        OpenHead::Meta(meta) => {
            list.push(meta)?;
            Ok(())
        }
    }
}

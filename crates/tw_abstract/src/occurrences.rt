//! The metavariables that occur in open terms and types, in order of first occurrence.
ghost use Rattle.std.specs.Prelude.{◌≡◌, IfOk};
ghost use Rattle.tw_terms.specs.OpenView.{open_head_of, open_term_of, open_spine_of, open_type_of};
ghost use Rattle.tw_abstract.specs.Occurrences.{Extends, head_occurrences, noted, occurrences, spine_occurrences, type_occurrences};

use crate::positions::Positions;
use std::alloc::AllocError;
use tw_terms::{Open, OpenHead, OpenSpine, OpenTy};

/// Adds the metavariables of the term that aren't found yet, in order of first occurrence. Fails only for want of memory, and then some
/// may be added.
#[cycle(noting)]
pub fn note_term(found: &mut Positions, term: &Open) -> Result<(), AllocError>
    ensures noted { IfOk result (λ _. found.new ≡ noted found.old (occurrences (open_term_of term.now))) }
    ensures kept { Extends found.old found.new }
{
    match term {
        Open::Lam(body) => note_term(found, body),
        Open::Root(head, spine) => {
            note_head(found, *head)?;
            note_spine(found, spine)
        }
    }
}

/// The same of each argument.
#[cycle(noting)]
pub fn note_spine(found: &mut Positions, spine: &OpenSpine) -> Result<(), AllocError>
    ensures noted { IfOk result (λ _. found.new ≡ noted found.old (spine_occurrences (open_spine_of spine.now))) }
    ensures kept { Extends found.old found.new }
{
    for arg in &spine.args {
        note_term(found, arg)?;
    }
    Ok(())
}

/// The same of a type.
pub fn note_type(found: &mut Positions, ty: &OpenTy) -> Result<(), AllocError>
    ensures noted { IfOk result (λ _. found.new ≡ noted found.old (type_occurrences (open_type_of ty.now))) }
    ensures kept { Extends found.old found.new }
{
    match ty {
        OpenTy::Pi(domain, range) => {
            note_type(found, domain)?;
            note_type(found, range)
        }
        OpenTy::Atom(_, spine) => note_spine(found, spine),
    }
}

/// The same of a head.
fn note_head(found: &mut Positions, head: OpenHead) -> Result<(), AllocError>
    ensures noted { IfOk result (λ _. found.new ≡ noted found.old (head_occurrences (open_head_of head))) }
    ensures kept { Extends found.old found.new }
{
    match head {
        OpenHead::Const(_) => Ok(()),
        OpenHead::Var(_) => Ok(()),
        OpenHead::Meta(meta) => {
            if found.variable(meta).is_none() {
                found.push(meta)?;
            }
            Ok(())
        }
    }
}

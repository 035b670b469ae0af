//! Terms and types as they are read off a store.
ghost use Rattle.std.specs.Prelude.{ℕ, List, IfOk, IsErrOf};
ghost use Rattle.tw_putting.specs.Stores.{PutsDeep, PutsDeepType};
ghost use Rattle.tw_terms.specs.OpenView.{open_term_of, open_type_of};
ghost use Rattle.tw_terms.specs.View.{term_of, type_of};
ghost use Rattle.tw_abstract.specs.Quantifiers.{AreQuantifiers};
ghost use Rattle.tw_abstract.specs.Reading.{IsReadAs, IsTypeReadAs, TermStands, TypeStands};

use crate::quantifiers::Quantifiers;
use crate::{generalized_term, generalized_type};
use std::alloc::Global;
use tw_hered::HeredFault;
use tw_metas::Store;
use tw_putting::{put_in, put_in_type};
use tw_terms::{Open, OpenTy, Term, Ty};

/// The term under so many binders, with the values put in and the variables of the quantifiers for the metavariables.
///
/// Answers `TooDeep` only where it is deeper than 4,096, with all values put in.
pub fn read_term(
    alloc: Global,
    store: &Store,
    quantifiers: &Quantifiers,
    binders: u64,
    term: &Open,
) -> Result<Term, HeredFault>
    requires quantifiers { (sites : List ℕ) × AreQuantifiers store.now.now sites quantifiers.now.positions quantifiers.now.context }
    requires stands { TermStands store.now.now binders (open_term_of term.now) }
    ensures read { IfOk result (λ t. IsReadAs store.now.now quantifiers.now.positions binders (open_term_of term.now) (term_of t)) }
    ensures too_deep { IsErrOf result HeredFault.TooDeep → PutsDeep store.now.now binders (open_term_of term.now) }
{
    let put = put_in(alloc, store, binders, term)?;
    let read = generalized_term(alloc, &quantifiers.positions, binders, &put)?;
    Ok(read.unwrap())
}

/// The same of a type.
pub fn read_type(
    alloc: Global,
    store: &Store,
    quantifiers: &Quantifiers,
    binders: u64,
    ty: &OpenTy,
) -> Result<Ty, HeredFault>
    requires quantifiers { (sites : List ℕ) × AreQuantifiers store.now.now sites quantifiers.now.positions quantifiers.now.context }
    requires stands { TypeStands store.now.now binders (open_type_of ty.now) }
    ensures read { IfOk result (λ a. IsTypeReadAs store.now.now quantifiers.now.positions binders (open_type_of ty.now) (type_of a)) }
    ensures too_deep { IsErrOf result HeredFault.TooDeep → PutsDeepType store.now.now binders (open_type_of ty.now) }
{
    let put = put_in_type(alloc, store, binders, ty)?;
    let read = generalized_type(alloc, &quantifiers.positions, binders, &put)?;
    Ok(read.unwrap())
}

//! The arguments of a goal without local variables beside those of a constant's type: what can be seen without changing anything.
ghost use Rattle.std.specs.Prelude.{◌≡◌, IfOk, IfSome};
ghost use Rattle.lf.specs.Entries.{signature_of};
ghost use Rattle.lf.specs.Syntax.{constant, root};
ghost use Rattle.lf.specs.Typing.{Signature as Theory};
ghost use Rattle.tw_putting.specs.Stores.{ValuesAreBound, bindings_of};
ghost use Rattle.tw_terms.specs.OpenView.{open_spine_of, open_term_of};
ghost use Rattle.tw_terms.specs.View.{kind_of, spine_of, term_of, type_of};
ghost use Rattle.tw_search.specs.Beside.{IndicesWent, LeadsTo, RowWent, TermWent};

use std::alloc::{AllocError, Global};
use tw_metas::Store;
use tw_open::is_plain_type;
use tw_signature::Signature;
use tw_terms::{ConstId, Head, Kind, Open, OpenHead, OpenSpine, Spine, Term, Ty};

/// A term of the goal and one of the clause in the same place, of a type that nothing was put into.
#[derive(Drop)]
pub(crate) struct Pair<'a> {
    pub(crate) left: Open,
    pub(crate) right: &'a Term,
    pub(crate) ty: &'a Ty,
}

/// How far terms were gone along.
#[derive(Clone, Copy, PartialEq, Eq, Debug)]
pub(crate) enum Went {
    /// To their ends.
    On,
    /// Constants differ.
    Clash,
    /// Not to their ends, as where a type has arguments in it.
    Away,
}

/// Goes along the arguments of two atoms of a family of this plain kind. The pairs that are to be solved come behind the others.
pub(crate) fn indices_beside<'a>(
    alloc: Global,
    store: &Store,
    signature: &'a Signature,
    kind: &'a Kind,
    left: &OpenSpine,
    right: &'a Spine,
    pairs: &mut Vec<Pair<'a>>,
) -> Result<Went, AllocError>
    requires { ValuesAreBound store.now.now }
    ensures { IfOk result (IndicesWent (signature_of signature.now) (bindings_of store.now.now) (open_spine_of left.now) (spine_of right.now) (kind_of kind.now) pairs.old.items pairs.new.items) }
{
    let mut rest = kind;
    for (place, arg) in left.args.iter().enumerate() {
        match (rest, right.args.get(place)) {
            (Kind::Pi(domain, range), Some(other)) => {
                match beside(alloc, store, signature, domain, arg, other, pairs)? {
                    Went::On => rest = range,
                    Went::Clash => return Ok(Went::Clash),
                    Went::Away => return Ok(Went::Away),
                }
            }
            _ => return Ok(Went::Away),
        }
    }
    Ok(Went::On)
}

/// The same of the arguments of two roots whose constant has this plain type.
#[cycle(beside)]
fn arguments_beside<'a>(
    alloc: Global,
    store: &Store,
    signature: &'a Signature,
    ty: &'a Ty,
    left: &OpenSpine,
    right: &'a Spine,
    pairs: &mut Vec<Pair<'a>>,
) -> Result<Went, AllocError>
    requires { ValuesAreBound store.now.now }
    ensures { IfOk result (RowWent (signature_of signature.now) (bindings_of store.now.now) (open_spine_of left.now) (spine_of right.now) (type_of ty.now) pairs.old.items pairs.new.items) }
{
    let mut rest = ty;
    for (place, arg) in left.args.iter().enumerate() {
        match (rest, right.args.get(place)) {
            (Ty::Pi(domain, range), Some(other)) => {
                match beside(alloc, store, signature, domain, arg, other, pairs)? {
                    Went::On => rest = range,
                    Went::Clash => return Ok(Went::Clash),
                    Went::Away => return Ok(Went::Away),
                }
            }
            _ => return Ok(Went::Away),
        }
    }
    Ok(Went::On)
}

/// The same of two terms of this type.
#[cycle(beside)]
fn beside<'a>(
    alloc: Global,
    store: &Store,
    signature: &'a Signature,
    ty: &'a Ty,
    left: &Open,
    right: &'a Term,
    pairs: &mut Vec<Pair<'a>>,
) -> Result<Went, AllocError>
    requires { ValuesAreBound store.now.now }
    ensures { IfOk result (TermWent (signature_of signature.now) (bindings_of store.now.now) (open_term_of left.now) (term_of right.now) (type_of ty.now) pairs.old.items pairs.new.items) }
{
    match (ty, right) {
        (Ty::Atom(_, _), Term::Root(Head::Const(constant), others)) => {
            match constant_root(store, left) {
                Some((head, args)) => {
                    if head.0 != constant.0 {
                        return Ok(Went::Clash);
                    }
                    match signature.constant_type(*constant) {
                        Some(of) => {
                            if !is_plain_type(of) {
                                return Ok(Went::Away);
                            }
                            arguments_beside(alloc, store, signature, of, args, others, pairs)
                        }
                        None => Ok(Went::Away),
                    }
                }
                None => keep(alloc, store, ty, left, right, pairs),
            }
        }
        _ => keep(alloc, store, ty, left, right, pairs),
    }
}

/// The pair comes behind the others.
fn keep<'a>(
    alloc: Global,
    store: &Store,
    ty: &'a Ty,
    left: &Open,
    right: &'a Term,
    pairs: &mut Vec<Pair<'a>>,
) -> Result<Went, AllocError>
    requires { ValuesAreBound store.now.now }
    ensures { IfOk result (λ w. (Σ : Theory) → TermWent Σ (bindings_of store.now.now) (open_term_of left.now) (term_of right.now) (type_of ty.now) pairs.old.items pairs.new.items w) }
{
    let left = copied(alloc, nearest(store, left))?;
    pairs.push(Pair { left, right, ty })?;
    Ok(Went::On)
}

/// An equal term. A head alone is made anew.
fn copied(alloc: Global, term: &Open) -> Result<Open, AllocError>
    ensures { IfOk result (λ m. open_term_of m ≡ open_term_of term.now) }
{
    match term {
        Open::Root(head, spine) => {
            if spine.args.is_empty() {
                let none = OpenSpine {
                    args: Vec::new(alloc),
                };
                return Ok(Open::Root(*head, none));
            }
            term.copy(alloc)
        }
        Open::Lam(_) => term.copy(alloc),
    }
}

/// The constant root that a term leads to.
pub(crate) fn constant_root<'b>(
    store: &'b Store,
    term: &'b Open,
) -> Option<(ConstId, &'b OpenSpine)>
    requires { ValuesAreBound store.now.now }
    ensures { IfSome result (λ r. LeadsTo (bindings_of store.now.now) (open_term_of term.now) (root (constant r.0.0) (open_spine_of r.1.now))) }
{
    let mut here = term;
    for _ in 0..u64::MAX {
        match here {
            Open::Root(OpenHead::Const(constant), spine) => return Some((*constant, spine)),
            Open::Root(OpenHead::Meta(meta), spine) => {
                if !spine.args.is_empty() {
                    return None;
                }
                here = store.value(*meta)?;
            }
            _ => return None,
        }
    }
    None
}

/// The last of the metavariables without arguments to which the term leads, so that what is bound to it leads no further than that one did.
pub(crate) fn nearest<'b>(store: &'b Store, term: &'b Open) -> &'b Open
    requires { ValuesAreBound store.now.now }
    ensures { LeadsTo (bindings_of store.now.now) (open_term_of term.now) (open_term_of result.now) }
{
    let mut here = term;
    for _ in 0..u64::MAX {
        match next_metavariable(store, here) {
            Some(next) => here = next,
            None => return here,
        }
    }
    here
}

/// The value of a metavariable without arguments, where it is such a metavariable too.
fn next_metavariable<'b>(store: &'b Store, term: &'b Open) -> Option<&'b Open>
    requires { ValuesAreBound store.now.now }
    ensures { IfSome result (λ v. LeadsTo (bindings_of store.now.now) (open_term_of term.now) (open_term_of v.now)) }
{
    match term {
        Open::Root(OpenHead::Meta(meta), spine) => {
            if !spine.args.is_empty() {
                return None;
            }
            let value = store.value(*meta)?;
            match value {
                Open::Root(OpenHead::Meta(_), inner) => {
                    if inner.args.is_empty() {
                        Some(value)
                    } else {
                        None
                    }
                }
                _ => None,
            }
        }
        _ => None,
    }
}

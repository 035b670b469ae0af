//! Heads that clash: a try that can't have a unifier, seen without making anything.
ghost use Rattle.std.specs.Prelude.{◌≡◌, ℕ, ◌+◌};
ghost use Rattle.std.specs.Bool.{OnTrue};
ghost use Rattle.lf.specs.AtOnce.{lift_renaming_by, shift_by};
ghost use Rattle.lf.specs.Entries.{quantifiers};
ghost use Rattle.lf.specs.Syntax.{rename, rename_spine, rename_type};
ghost use Rattle.lf.specs.Variables.{target_arguments};
ghost use Rattle.lf_search.specs.Heads.{Clash};
ghost use Rattle.tw_putting.specs.Stores.{ValuesAreBound, bindings_of};
ghost use Rattle.tw_terms.specs.OpenView.{open_spine_of, open_term_of, open_type_of};
ghost use Rattle.tw_terms.specs.View.{head_of, spine_of, term_of, type_of};
ghost use Rattle.tw_search.specs.Clashing.{AreApart, TypeClashes, rename_rigid, rigid_of};

use crate::rigid::{Rigid, clause_head, rigid_head};
use tw_metas::Store;
use tw_terms::{Head, Open, OpenSpine, OpenTy, Spine, Term, Ty};

/// Whether at some place the goal's argument, with its values put in, and that of the constant's type have different heads, each a constant, a local variable, or one that its own lambdas
/// bind. It reads no more than the heads, and takes no memory.
pub(crate) fn clashes(store: &Store, indices: &OpenSpine, ty: &Ty) -> bool
    requires { ValuesAreBound store.now.now }
    ensures { OnTrue result (TypeClashes (bindings_of store.now.now) (open_spine_of indices.now) (type_of ty.now)) }
{
    let mut rest = ty;
    loop {
        match rest {
            Ty::Pi(_, range) => rest = range,
            Ty::Atom(_, spine) => return spines_clash(store, indices, spine),
        }
    }
}

/// The same of the arguments, under whatever number of quantifiers.
fn spines_clash(store: &Store, indices: &OpenSpine, spine: &Spine) -> bool
    requires { ValuesAreBound store.now.now }
    ensures { OnTrue result ((k : ℕ) → Clash (bindings_of store.now.now) k (open_spine_of indices.now) (spine_of spine.now)) }
{
    for (place, index) in indices.args.iter().enumerate() {
        match spine.args.get(place) {
            Some(arg) => {
                if terms_clash(store, index, arg) {
                    return true;
                }
            }
            None => return false,
        }
    }
    false
}

/// The same of one argument.
fn terms_clash(store: &Store, index: &Open, arg: &Term) -> bool
    requires { ValuesAreBound store.now.now }
    ensures { OnTrue result ((k : ℕ) → AreApart (bindings_of store.now.now) k (open_term_of index.now) (term_of arg.now)) }
{
    match clause_head(arg) {
        Some(wanted) => match rigid_head(store, index, 0) {
            Some(found) => differ(found, wanted),
            None => false,
        },
        None => false,
    }
}

/// Whether the goal's argument and that of a local variable's type clash so, where this type is seen from inside of `by` more local variables.
pub(crate) fn local_clashes(store: &Store, indices: &OpenSpine, ty: &OpenTy, by: u64) -> bool
    requires { ValuesAreBound store.now.now }
    ensures { OnTrue result (TypeClashes (bindings_of store.now.now) (open_spine_of indices.now) (rename_type (shift_by by) (open_type_of ty.now))) }
{
    let mut rest = ty;
    let mut binders: u64 = 0;
    loop {
        match rest {
            OpenTy::Pi(_, range) => {
                let Some(inside) = binders.checked_add(1) else {
                    return false;
                };
                binders = inside;
                rest = range;
            }
            OpenTy::Atom(_, spine) => {
                return local_spines_clash(store, indices, spine, binders, by);
            }
        }
    }
}

/// The same of the arguments, under so many quantifiers.
fn local_spines_clash(
    store: &Store,
    indices: &OpenSpine,
    spine: &OpenSpine,
    binders: u64,
    by: u64,
) -> bool
    requires { ValuesAreBound store.now.now }
    ensures { OnTrue result (Clash (bindings_of store.now.now) binders (open_spine_of indices.now) (rename_spine (lift_renaming_by binders (shift_by by)) (open_spine_of spine.now))) }
{
    for (place, index) in indices.args.iter().enumerate() {
        match spine.args.get(place) {
            Some(arg) => {
                if local_terms_clash(store, index, arg, binders, by) {
                    return true;
                }
            }
            None => return false,
        }
    }
    false
}

/// The same of one argument.
fn local_terms_clash(store: &Store, index: &Open, arg: &Open, binders: u64, by: u64) -> bool
    requires { ValuesAreBound store.now.now }
    ensures { OnTrue result (AreApart (bindings_of store.now.now) binders (open_term_of index.now) (rename (lift_renaming_by binders (shift_by by)) (open_term_of arg.now))) }
{
    match rigid_head(store, arg, binders) {
        Some(wanted) => match rigid_head(store, index, 0) {
            Some(found) => differ_moved(found, wanted, by),
            None => false,
        },
        None => false,
    }
}

/// Whether the heads differ, where a variable of the second one is seen from inside of `by` more local variables.
fn differ_moved(found: Rigid, wanted: Rigid, by: u64) -> bool
    ensures { OnTrue result (rigid_of found ≡ rename_rigid (shift_by by) (rigid_of wanted) → ⊥) }
{
    match wanted {
        Rigid::Outside(Head::Var(variable)) => match variable.checked_add(by) {
            Some(moved) => differ(found, Rigid::Outside(Head::Var(moved))),
            None => false,
        },
        Rigid::Outside(Head::Const(_)) => differ(found, wanted),
        Rigid::Own(_) => differ(found, wanted),
    }
}

/// Whether the heads differ.
fn differ(found: Rigid, wanted: Rigid) -> bool
    ensures { OnTrue result (rigid_of found ≡ rigid_of wanted → ⊥) }
{
    match found {
        Rigid::Outside(head) => match wanted {
            Rigid::Outside(other) => heads_differ(head, other),
            Rigid::Own(_) => true,
        },
        Rigid::Own(number) => match wanted {
            Rigid::Outside(_) => true,
            Rigid::Own(other) => number != other,
        },
    }
}

/// The same of constants and variables.
fn heads_differ(found: Head, wanted: Head) -> bool
    ensures { OnTrue result (head_of found ≡ head_of wanted → ⊥) }
{
    match found {
        Head::Const(constant) => match wanted {
            Head::Const(other) => constant.0 != other.0,
            Head::Var(_) => true,
        },
        Head::Var(variable) => match wanted {
            Head::Const(_) => true,
            Head::Var(other) => variable != other,
        },
    }
}

//! Constants that differ in the same place of two open terms, as the values of the metavariables stand.
ghost use Rattle.std.specs.Prelude.{ℕ, ◌∷◌, ◌≤◌, [], MatchOption, map};
ghost use Rattle.std.specs.Bool.{OnTrue};
ghost use Rattle.lf.specs.Entries.{signature_of};
ghost use Rattle.lf.specs.Syntax.{Spine as Arguments, atom};
ghost use Rattle.tw_metas.specs.View.{equation_of};
ghost use Rattle.tw_putting.specs.Stores.{ValuesAreBound, bindings_of};
ghost use Rattle.tw_terms.specs.OpenView.{open_spine_of, open_term_of};
ghost use Rattle.tw_terms.specs.View.{type_of};
ghost use Rattle.tw_search.specs.Beside.{Differs, FirstDiffers, RowDiffers};
ghost use Rattle.tw_search.specs.Reducing.{IsAtom};

use crate::beside::constant_root;
use crate::giving::is_atom;
use tw_metas::{Equation, Store};
use tw_open::is_plain_type;
use tw_signature::Signature;
use tw_terms::{Open, OpenSpine, Ty};

/// How many roots are visited at most.
const VISITS: u32 = 64;

/// Whether constants differ in the sides of the first equation.
pub(crate) fn first_differs(store: &Store, signature: &Signature, equations: &[Equation]) -> bool
    requires { ValuesAreBound store.now.now }
    ensures { OnTrue result (FirstDiffers (signature_of signature.now) (bindings_of store.now.now) (map equation_of equations.now)) }
{
    match equations.first() {
        Some(equation) => sides_differ(store, signature, equation),
        None => false,
    }
}

/// Whether they differ in the sides of this equation, which has no local variables.
fn sides_differ(store: &Store, signature: &Signature, equation: &Equation) -> bool
    requires { ValuesAreBound store.now.now }
    ensures { OnTrue result (FirstDiffers (signature_of signature.now) (bindings_of store.now.now) (equation_of equation.now ∷ [])) }
{
    if equation.context.len() > 0 || !is_atom(&equation.ty) {
        return false;
    }
    match visited(store, signature, &equation.left, &equation.right, VISITS) {
        None => true,
        Some(_) => false,
    }
}

/// How many visits are left when both terms were gone along. None where constants differ.
#[cycle(visits)]
fn visited(
    store: &Store,
    signature: &Signature,
    left: &Open,
    right: &Open,
    visits: u32,
) -> Option<u32>
    requires { ValuesAreBound store.now.now }
    ensures { MatchOption result ((a : ℕ) (I : Arguments) → Differs (signature_of signature.now) (bindings_of store.now.now) (open_term_of left.now) (open_term_of right.now) (atom a I)) (λ v. v ≤ visits) }
{
    if visits == 0 {
        return Some(0);
    }
    match (constant_root(store, left), constant_root(store, right)) {
        (Some((head, args)), Some((other, others))) => {
            if head.0 != other.0 {
                return None;
            }
            match signature.constant_type(other) {
                Some(ty) => {
                    if is_plain_type(ty) {
                        visited_row(store, signature, ty, args, others, visits - 1)
                    } else {
                        Some(0)
                    }
                }
                None => Some(0),
            }
        }
        _ => Some(visits - 1),
    }
}

/// The same of the arguments of two roots whose constant has this plain type.
#[cycle(visits)]
fn visited_row(
    store: &Store,
    signature: &Signature,
    ty: &Ty,
    left: &OpenSpine,
    right: &OpenSpine,
    visits: u32,
) -> Option<u32>
    requires { ValuesAreBound store.now.now }
    ensures { MatchOption result (RowDiffers (signature_of signature.now) (bindings_of store.now.now) (open_spine_of left.now) (open_spine_of right.now) (type_of ty.now)) (λ v. v ≤ visits) }
{
    let mut rest = ty;
    let mut fewer = visits;
    for (place, arg) in left.args.iter().enumerate() {
        match (rest, right.args.get(place)) {
            (Ty::Pi(domain, range), Some(other)) => {
                if !is_atomic(domain) {
                    return Some(fewer);
                }
                fewer = visited(store, signature, arg, other, fewer)?;
                rest = range;
            }
            _ => return Some(fewer),
        }
    }
    Some(fewer)
}

/// Whether the closed type is an atom.
fn is_atomic(ty: &Ty) -> bool
    ensures { OnTrue result (IsAtom (type_of ty.now)) }
{
    match ty {
        Ty::Atom(_, _) => true,
        Ty::Pi(_, _) => false,
    }
}

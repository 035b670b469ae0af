//! New metavariables: one, for the arguments of a type or a kind, and the most general types of skeletons.
ghost use Rattle.std.specs.Prelude.{◌≡◌, [], ◌∷◌, ◌++◌, IfOk, IsErrOf, OnOk};
ghost use Rattle.lf.specs.Entries.{signature_of, IsCanonicalSignature};
ghost use Rattle.lf.specs.Syntax.{base};
ghost use Rattle.lf_elaboration.specs.Elaboration.{KindTakesNew, NewType, TakesAllNew, TakesNew};
ghost use Rattle.tw_terms.specs.OpenView.{open_spine_of, open_term_of, open_type_of};
ghost use Rattle.tw_terms.specs.View.{skeleton_of};
ghost use Rattle.tw_open.specs.Fits.{KindStands, TypeStands};
ghost use Rattle.tw_elaborate.specs.Fits.{Stands};
ghost use Rattle.tw_elaborate.specs.Fresh.{IsNew, Keeps, KindTakesOne, TakesOne};
ghost use Rattle.tw_elaborate.specs.NewDeep.{KindTakesNewDeep, KindTakesOneDeep, NewTypeDeep, TakesAllNewDeep, TakesNewDeep, TakesOneDeep};
ghost use Rattle.tw_open.specs.View.{open_kind_of};
ghost use Rattle.tw_elaborate.specs.View.{made};

use crate::operators::instantiated;
use crate::state::Elaboration;
use std::alloc::{AllocError, Global};
use tw_hered::HeredFault;
use tw_open::{OpenKind, instantiate_kind, open_kind, pi};
use tw_signature::Signature;
use tw_terms::numbers::nested;
use tw_terms::{ConstId, Open, OpenSpine, OpenTy, Skeleton};

/// A new metavariable for a term of this type, at the variables in scope. Fails only for want of memory.
pub fn new_term(alloc: Global, state: &mut Elaboration, ty: &OpenTy) -> Result<Open, AllocError>
    ensures ok { IfOk result (λ m. IsNew (open_type_of ty.now) (open_term_of m) state.old state.new) }
    ensures keeps { Keeps state.old state.new }
{
    let (_, term) = tw_open::new_term(alloc, &mut state.store, &state.locals, ty)?;
    Ok(term)
}

/// One argument more, behind the others.
fn push_argument(args: &mut Vec<Open>, arg: Open) -> Result<(), AllocError>
    ensures { OnOk result (args.new.items ≡ args.old.items ++ (arg ∷ [])) }
{
    args.push(arg)?;
    Ok(())
}

/// A new metavariable for the first argument of the type, and the type that is left. An atom takes none, and memory counts as used up.
fn take_one(
    alloc: Global,
    state: &mut Elaboration,
    ty: OpenTy,
) -> Result<(Open, OpenTy), HeredFault>
    requires { TypeStands (made state.old) state.old.locals (open_type_of ty) }
    ensures ok { IfOk result (λ p. TakesOne (open_type_of ty) (open_term_of p.0) (open_type_of p.1) state.old state.new) }
    ensures too_deep { IsErrOf result HeredFault.TooDeep → TakesOneDeep (open_type_of ty) state.old }
    ensures keeps { Keeps state.old state.new }
{
    match ty {
        OpenTy::Pi(domain, range) => {
            let arg = new_term(alloc, state, &domain)?;
            let rest = instantiated(alloc, &range, &arg, &domain)?;
            Ok((arg, rest))
        }
        // An entry has as many quantifiers as implicit arguments; no clause says it of the type that is handed in.
        OpenTy::Atom(_, _) => Err(HeredFault::NoMemory),
    }
}

/// New metavariables for the first `count` arguments of the type, and the type that is left.
pub fn take_new(
    alloc: Global,
    state: &mut Elaboration,
    count: u64,
    ty: OpenTy,
) -> Result<(OpenSpine, OpenTy), HeredFault>
    requires { TypeStands (made state.old) state.old.locals (open_type_of ty) }
    ensures ok { IfOk result (λ p. TakesNew count state.old.locals (open_type_of ty) (made state.old) (made state.new) (open_spine_of p.0) (open_type_of p.1)) }
    ensures too_deep { IsErrOf result HeredFault.TooDeep → TakesNewDeep count state.old.locals (open_type_of ty) (made state.old) }
    ensures keeps { Keeps state.old state.new }
{
    let mut args = Vec::new(alloc);
    let mut rest = ty;
    for _ in 0..count {
        let (arg, range) = take_one(alloc, state, rest)?;
        push_argument(&mut args, arg)?;
        rest = range;
    }
    Ok((OpenSpine { args }, rest))
}

/// The same of the first argument of a kind. `type` takes none, and memory counts as used up.
fn kind_take_one(
    alloc: Global,
    state: &mut Elaboration,
    kind: OpenKind,
) -> Result<(Open, OpenKind), HeredFault>
    requires { KindStands (made state.old) state.old.locals (open_kind_of kind) }
    ensures ok { IfOk result (λ p. KindTakesOne (open_kind_of kind) (open_term_of p.0) (open_kind_of p.1) state.old state.new) }
    ensures too_deep { IsErrOf result HeredFault.TooDeep → KindTakesOneDeep (open_kind_of kind) state.old }
    ensures keeps { Keeps state.old state.new }
{
    match kind {
        OpenKind::Pi(domain, range) => {
            let arg = new_term(alloc, state, &domain)?;
            let rest = instantiate_kind(alloc, &range, 0, &arg, &domain)?;
            Ok((arg, rest))
        }
        // An entry has as many quantifiers as implicit arguments; no clause says it of the kind that is handed in.
        OpenKind::Star => Err(HeredFault::NoMemory),
    }
}

/// New metavariables for the first `count` arguments of the kind, and the kind that is left.
pub fn kind_take_new(
    alloc: Global,
    state: &mut Elaboration,
    count: u64,
    kind: OpenKind,
) -> Result<(OpenSpine, OpenKind), HeredFault>
    requires { KindStands (made state.old) state.old.locals (open_kind_of kind) }
    ensures ok { IfOk result (λ p. KindTakesNew count state.old.locals (open_kind_of kind) (made state.old) (made state.new) (open_spine_of p.0) (open_kind_of p.1)) }
    ensures too_deep { IsErrOf result HeredFault.TooDeep → KindTakesNewDeep count state.old.locals (open_kind_of kind) (made state.old) }
    ensures keeps { Keeps state.old state.new }
{
    let mut args = Vec::new(alloc);
    let mut rest = kind;
    for _ in 0..count {
        let (arg, range) = kind_take_one(alloc, state, rest)?;
        push_argument(&mut args, arg)?;
        rest = range;
    }
    Ok((OpenSpine { args }, rest))
}

/// New metavariables for all arguments of the kind.
pub fn take_all_new(
    alloc: Global,
    state: &mut Elaboration,
    kind: OpenKind,
) -> Result<OpenSpine, HeredFault>
    requires { KindStands (made state.old) state.old.locals (open_kind_of kind) }
    ensures ok { IfOk result (λ s. TakesAllNew state.old.locals (open_kind_of kind) (made state.old) (made state.new) (open_spine_of s)) }
    ensures too_deep { IsErrOf result HeredFault.TooDeep → TakesAllNewDeep state.old.locals (open_kind_of kind) (made state.old) }
    ensures keeps { Keeps state.old state.new }
{
    let mut args = Vec::new(alloc);
    let mut rest = kind;
    for _ in 0..u64::MAX {
        match rest {
            OpenKind::Star => return Ok(OpenSpine { args }),
            OpenKind::Pi(_, _) => {
                let (arg, range) = kind_take_one(alloc, state, rest)?;
                push_argument(&mut args, arg)?;
                rest = range;
            }
        }
    }
    // No kind in memory takes so many arguments; no clause of a kind says so.
    Err(HeredFault::NoMemory)
}

/// The most general type of the skeleton: its families on new metavariables. Where one isn't declared, or the skeleton is deeper than so many levels, memory counts as used up.
pub fn new_type(
    alloc: Global,
    signature: &Signature,
    state: &mut Elaboration,
    skeleton: &Skeleton,
    levels: u32,
) -> Result<OpenTy, HeredFault>
    requires canonical { IsCanonicalSignature signature.now }
    requires stands { Stands (signature_of signature.now) (made state.old) state.old.locals }
    ensures ok { IfOk result (λ a. NewType signature.now state.old.locals (skeleton_of skeleton.now) (made state.old) (made state.new) (open_type_of a)) }
    ensures too_deep { IsErrOf result HeredFault.TooDeep → NewTypeDeep signature.now state.old.locals (skeleton_of skeleton.now) (made state.old) }
    ensures keeps { Keeps state.old state.new }
{
    // The first pass gives no skeleton that is deeper than 4,096; no clause says it of the one that is handed in.
    let levels = nested(levels)?;
    match skeleton {
        Skeleton::Base(family) => new_atom(alloc, signature, state, *family),
        Skeleton::Arrow(domain, range) => {
            let domain = new_type(alloc, signature, state, domain, levels)?;
            state.locals.push(domain.copy(alloc)?)?;
            let range = new_type(alloc, signature, state, range, levels);
            state.locals.pop();
            Ok(pi(alloc, domain, range?)?)
        }
    }
}

/// A family on new metavariables.
#[inline(never)]
fn new_atom(
    alloc: Global,
    signature: &Signature,
    state: &mut Elaboration,
    family: ConstId,
) -> Result<OpenTy, HeredFault>
    requires canonical { IsCanonicalSignature signature.now }
    requires stands { Stands (signature_of signature.now) (made state.old) state.old.locals }
    ensures ok { IfOk result (λ a. NewType signature.now state.old.locals (base family.0) (made state.old) (made state.new) (open_type_of a)) }
    ensures too_deep { IsErrOf result HeredFault.TooDeep → NewTypeDeep signature.now state.old.locals (base family.0) (made state.old) }
    ensures keeps { Keeps state.old state.new }
{
    match signature.family_kind(family) {
        Some(kind) => {
            let spine = take_all_new(alloc, state, open_kind(alloc, kind)?)?;
            Ok(OpenTy::Atom(family, spine))
        }
        // The skeletons that the first pass finds are of declared families; no clause says it of the one that is handed in.
        None => Err(HeredFault::NoMemory),
    }
}

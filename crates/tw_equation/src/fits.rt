//! Whether skeletons type what is shown.
ghost use Rattle.std.specs.Prelude.{◌≡◌, ◌∷◌, ◌↔◌, IfOk, IsTrue, OnOk, Some, map, option_map, slice_get};
ghost use Rattle.lf.specs.Entries.{signature_of};
ghost use Rattle.lf.specs.Skeletons.{constant_skeletons, context_skeletons, family_skeletons};
ghost use Rattle.lf.specs.SkeletonTyping.{HeadSkeleton, SpineSkeleton, TermSkeleton, TypeBySkeletons};
ghost use Rattle.lf.specs.Syntax.{Skeleton as PlainSkeleton, kind_skeleton as skeleton_of_kind, skeleton as skeleton_of_type};
ghost use Rattle.tw_print.specs.Showable.{HasSkeleton, IsShowableContext, IsShowableType};
ghost use Rattle.tw_terms.specs.View.{head_of, kind_of, skeleton_of, spine_of, term_of, type_of};

use std::alloc::{AllocError, Global};
use tw_signature::Signature;
use tw_terms::{ConstId, Context, Head, Kind, Skeleton, Spine, Term, Ty, skeleton};

/// Adds a variable of this type to a context. Where skeletons don't type it, memory counts as used up.
pub fn enter(
    alloc: Global,
    signature: &Signature,
    context: &mut Context,
    ty: Ty,
) -> Result<(), AllocError>
    requires { IsShowableContext (signature_of signature.now) context.old }
    ensures grown { OnOk result (context.new ≡ type_of ty ∷ context.old) }
    ensures showable { OnOk result (IsShowableContext (signature_of signature.now) context.new) }
{
    if !type_fits(alloc, signature, context, &ty)? {
        // Skeletons type what a store keeps; no clause says it of what is shown.
        return Err(AllocError);
    }
    context.push(ty)
}

/// Whether skeletons type a type in a context.
pub fn type_fits(
    alloc: Global,
    signature: &Signature,
    context: &Context,
    ty: &Ty,
) -> Result<bool, AllocError>
    ensures { IfOk result (λ b. IsTrue b ↔ IsShowableType (signature_of signature.now) context.now (type_of ty.now)) }
{
    let variables = skeletons(alloc, context)?;
    type_has(alloc, ty, signature, &variables)
}

/// Whether a term in a context has the skeleton of a type.
pub fn term_fits(
    alloc: Global,
    signature: &Signature,
    context: &Context,
    term: &Term,
    ty: &Ty,
) -> Result<bool, AllocError>
    ensures { IfOk result (λ b. IsTrue b ↔ HasSkeleton (signature_of signature.now) context.now (term_of term.now) (skeleton_of_type (type_of ty.now))) }
{
    let variables = skeletons(alloc, context)?;
    let made = skeleton(alloc, ty)?;
    term_has(alloc, term, &made, signature, &variables)
}

/// The skeletons of the variables of a context, the newest first.
fn skeletons(alloc: Global, context: &Context) -> Result<Vec<Skeleton>, AllocError>
    ensures { IfOk result (λ v. map skeleton_of v.items ≡ context_skeletons context.now) }
{
    let mut skeletons = Vec::new(alloc);
    for variable in 0..context.len() {
        match context.get(variable as u64) {
            Some(ty) => skeletons.push(skeleton(alloc, ty)?)?,
            // A context has a type for each number below its length; the loop doesn't carry it.
            None => return Err(AllocError),
        }
    }
    Ok(skeletons)
}

/// The skeletons with one more in front.
fn under(
    alloc: Global,
    newest: &Skeleton,
    variables: &[Skeleton],
) -> Result<Vec<Skeleton>, AllocError>
    ensures { IfOk result (λ v. map skeleton_of v.items ≡ skeleton_of newest.now ∷ map skeleton_of variables.now) }
{
    let mut inside = Vec::new(alloc);
    inside.push(newest.copy(alloc)?)?;
    for variable in variables {
        inside.push(variable.copy(alloc)?)?;
    }
    Ok(inside)
}

/// The skeleton of a family of this kind.
fn kind_skeleton(alloc: Global, family: ConstId, kind: &Kind) -> Result<Skeleton, AllocError>
    ensures { IfOk result (λ s. skeleton_of s ≡ skeleton_of_kind family.0 (kind_of kind.now)) }
{
    match kind {
        Kind::Pi(domain, rest) => {
            let domain = Box::new(alloc, skeleton(alloc, domain)?)?;
            Ok(Skeleton::Arrow(
                domain,
                Box::new(alloc, kind_skeleton(alloc, family, rest)?)?,
            ))
        }
        Kind::Star => Ok(Skeleton::Base(family)),
    }
}

/// The skeleton of a variable.
fn variable_skeleton(
    alloc: Global,
    variables: &[Skeleton],
    variable: u64,
) -> Result<Option<Skeleton>, AllocError>
    ensures { IfOk result (λ o. option_map skeleton_of o ≡ slice_get (map skeleton_of variables.now) variable) }
{
    if variable >= variables.len() as u64 {
        return Ok(None);
    }
    let found = &variables[variable as usize];
    Ok(Some(found.copy(alloc)?))
}

/// The skeleton of a head.
fn head_skeleton(
    alloc: Global,
    signature: &Signature,
    variables: &[Skeleton],
    head: Head,
) -> Result<Option<Skeleton>, AllocError>
    ensures { IfOk result (λ o. (t : PlainSkeleton) → (option_map skeleton_of o ≡ Some t) ↔ HeadSkeleton (constant_skeletons (signature_of signature.now)) (map skeleton_of variables.now) (head_of head) t) }
{
    match head {
        Head::Const(id) => match signature.constant_type(id) {
            Some(ty) => Ok(Some(skeleton(alloc, ty)?)),
            None => Ok(None),
        },
        Head::Var(variable) => variable_skeleton(alloc, variables, variable),
    }
}

/// The skeleton of a family.
fn family_skeleton(
    alloc: Global,
    signature: &Signature,
    family: ConstId,
) -> Result<Option<Skeleton>, AllocError>
    ensures { IfOk result (λ o. option_map skeleton_of o ≡ family_skeletons (signature_of signature.now) family.0) }
{
    match signature.family_kind(family) {
        Some(kind) => Ok(Some(kind_skeleton(alloc, family, kind)?)),
        None => Ok(None),
    }
}

/// Whether a term has a skeleton.
#[cycle(fits)]
fn term_has(
    alloc: Global,
    term: &Term,
    made: &Skeleton,
    signature: &Signature,
    variables: &[Skeleton],
) -> Result<bool, AllocError>
    ensures { IfOk result (λ b. IsTrue b ↔ TermSkeleton (constant_skeletons (signature_of signature.now)) (map skeleton_of variables.now) (term_of term.now) (skeleton_of made.now)) }
{
    match (term, made) {
        (Term::Lam(body), Skeleton::Arrow(domain, range)) => {
            let inside = under(alloc, domain, variables)?;
            term_has(alloc, body, range, signature, &inside)
        }
        (Term::Root(head, spine), Skeleton::Base(_)) => {
            match head_skeleton(alloc, signature, variables, *head)? {
                Some(taken) => spine_has(alloc, spine, &taken, made, signature, variables),
                None => Ok(false),
            }
        }
        _ => Ok(false),
    }
}

/// Whether a spine takes one skeleton to another.
#[cycle(fits)]
fn spine_has(
    alloc: Global,
    spine: &Spine,
    taken: &Skeleton,
    made: &Skeleton,
    signature: &Signature,
    variables: &[Skeleton],
) -> Result<bool, AllocError>
    ensures { IfOk result (λ b. IsTrue b ↔ SpineSkeleton (constant_skeletons (signature_of signature.now)) (map skeleton_of variables.now) (spine_of spine.now) (skeleton_of taken.now) (skeleton_of made.now)) }
{
    let mut rest = taken;
    for arg in &spine.args {
        match rest {
            Skeleton::Arrow(domain, range) => {
                if !term_has(alloc, arg, domain, signature, variables)? {
                    return Ok(false);
                }
                rest = range;
            }
            Skeleton::Base(_) => return Ok(false),
        }
    }
    Ok(rest.same(made))
}

/// Whether skeletons type a type.
fn type_has(
    alloc: Global,
    ty: &Ty,
    signature: &Signature,
    variables: &[Skeleton],
) -> Result<bool, AllocError>
    ensures { IfOk result (λ b. IsTrue b ↔ TypeBySkeletons (family_skeletons (signature_of signature.now)) (constant_skeletons (signature_of signature.now)) (map skeleton_of variables.now) (type_of ty.now)) }
{
    match ty {
        Ty::Pi(domain, range) => {
            if !type_has(alloc, domain, signature, variables)? {
                return Ok(false);
            }
            let newest = skeleton(alloc, domain)?;
            let inside = under(alloc, &newest, variables)?;
            type_has(alloc, range, signature, &inside)
        }
        Ty::Atom(family, spine) => match family_skeleton(alloc, signature, *family)? {
            Some(taken) => {
                let made = Skeleton::Base(*family);
                spine_has(alloc, spine, &taken, &made, signature, variables)
            }
            None => Ok(false),
        },
    }
}

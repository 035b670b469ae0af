//! Substitution where skeletons type what it is asked of, which is what its calls need. Where they don't, nothing is asked.
ghost use Rattle.std.specs.Prelude.{◌≡◌, ◌∷◌, ◌++◌, IfOk, IfSome, IsTrue, map, slice_get};
ghost use Rattle.lf.specs.SkeletonTyping.{HeadSkeleton, TermSkeleton, SpineSkeleton, TypeBySkeletons};
ghost use Rattle.tw_terms.specs.View.{head_of, term_of, spine_of, type_of, skeleton_of};
ghost use Rattle.tw_hered.specs.Known.{heads_of};

use std::alloc::{AllocError, Global};
use tw_hered::{HeredFault, apply_spine, instantiate, substitute, substitute_ty};
use tw_terms::{ConstId, Head, Skeleton, Spine, Term, Ty, skeleton};

/// The skeleton of this number.
fn listed<'a>(skeletons: &[&'a Skeleton], number: u64) -> Option<&'a Skeleton>
    ensures { IfSome result (λ t. slice_get (map (λ s. skeleton_of s.now) skeletons.now) number ≡ Some (skeleton_of t.now)) }
{
    if number < skeletons.len() as u64 {
        return Some(skeletons[number as usize]);
    }
    None
}

/// The skeleton of a head; the constants are listed by number, the variables with the newest first.
fn head_skeleton<'a>(
    head: Head,
    constants: &[&'a Skeleton],
    variables: &[&'a Skeleton],
) -> Option<&'a Skeleton>
    ensures { IfSome result (λ t. HeadSkeleton (heads_of (map (λ c. skeleton_of c.now) constants.now)) (map (λ v. skeleton_of v.now) variables.now) (head_of head) (skeleton_of t.now)) }
{
    match head {
        Head::Const(constant) => listed(constants, constant.0),
        Head::Var(number) => listed(variables, number),
    }
}

/// The skeletons of variables, the newest first: those of the bound ones, then this one, then the outer ones.
fn context_around<'a>(
    alloc: Global,
    bound: &[&'a Skeleton],
    newest: &'a Skeleton,
    outer: &[&'a Skeleton],
) -> Result<Vec<&'a Skeleton>, AllocError>
    ensures { IfOk result (λ c. map (λ v. skeleton_of v.now) c.items ≡ map (λ v. skeleton_of v.now) bound.now ++ (skeleton_of newest.now ∷ map (λ v. skeleton_of v.now) outer.now)) }
{
    let mut context = Vec::with_capacity(alloc, bound.len())?;
    context.extend_from_slice(bound)?;
    context.push(newest)?;
    context.extend_from_slice(outer)?;
    Ok(context)
}

/// Whether the term has the skeleton.
#[cycle(typed)]
fn term_has<'a>(
    alloc: Global,
    term: &Term,
    skeleton: &'a Skeleton,
    constants: &[&'a Skeleton],
    variables: &[&'a Skeleton],
) -> Result<bool, AllocError>
    ensures { IfOk result (λ b. IsTrue b → TermSkeleton (heads_of (map (λ c. skeleton_of c.now) constants.now)) (map (λ v. skeleton_of v.now) variables.now) (term_of term.now) (skeleton_of skeleton.now)) }
{
    match (term, skeleton) {
        (Term::Lam(body), Skeleton::Arrow(domain, range)) => {
            let inside = context_around(alloc, &[], domain, variables)?;
            term_has(alloc, body, range, constants, &inside)
        }
        (Term::Root(head, spine), Skeleton::Base(_)) => {
            match head_skeleton(*head, constants, variables) {
                Some(taken) => spine_has(alloc, spine, taken, skeleton, constants, variables),
                None => Ok(false),
            }
        }
        _ => Ok(false),
    }
}

/// Whether the spine takes the first skeleton to the second.
#[cycle(typed)]
fn spine_has<'a>(
    alloc: Global,
    spine: &Spine,
    taken: &'a Skeleton,
    made: &'a Skeleton,
    constants: &[&'a Skeleton],
    variables: &[&'a Skeleton],
) -> Result<bool, AllocError>
    ensures { IfOk result (λ b. IsTrue b → SpineSkeleton (heads_of (map (λ c. skeleton_of c.now) constants.now)) (map (λ v. skeleton_of v.now) variables.now) (spine_of spine.now) (skeleton_of taken.now) (skeleton_of made.now)) }
{
    let mut rest = taken;
    for arg in &spine.args {
        match rest {
            Skeleton::Arrow(domain, range) => {
                if !term_has(alloc, arg, domain, constants, variables)? {
                    return Ok(false);
                }
                rest = range;
            }
            Skeleton::Base(_) => return Ok(false),
        }
    }
    Ok(rest.same(made))
}

/// Whether the type's parts have the skeletons that it asks for.
fn type_fits<'a>(
    alloc: Global,
    ty: &'a Ty,
    constants: &[&'a Skeleton],
    families: &[&'a Skeleton],
    variables: &[&'a Skeleton],
) -> Result<bool, AllocError>
    ensures { IfOk result (λ b. IsTrue b → TypeBySkeletons (λ a. slice_get (map (λ f. skeleton_of f.now) families.now) a) (heads_of (map (λ c. skeleton_of c.now) constants.now)) (map (λ v. skeleton_of v.now) variables.now) (type_of ty.now)) }
{
    match ty {
        Ty::Pi(domain, range) => {
            if !type_fits(alloc, domain, constants, families, variables)? {
                return Ok(false);
            }
            let newest = skeleton(alloc, domain)?;
            let inside = context_around(alloc, &[], &newest, variables)?;
            if !type_fits(alloc, range, constants, families, &inside)? {
                return Ok(false);
            }
            Ok(true)
        }
        Ty::Atom(family, spine) => {
            let made = Skeleton::Base(*family);
            match listed(families, family.0) {
                Some(taken) => spine_has(alloc, spine, taken, &made, constants, variables),
                None => Ok(false),
            }
        }
    }
}

/// What stands around a substitution: the skeletons of constants and families by number, of the variables that the arguments stand in, and of those that are bound above the
/// variable that is put in for, the newest first.
#[derive(Clone, Copy)]
pub struct Around<'a> {
    pub heads: &'a [&'a Skeleton],
    pub outer: &'a [&'a Skeleton],
    pub bound: &'a [&'a Skeleton],
}

/// `arg`, of the skeleton `skel`, put in `body`, of the skeleton `made`, for the variable past the bound ones.
pub fn put_in_term<'a>(
    alloc: Global,
    around: Around<'a>,
    body: &Term,
    made: &'a Skeleton,
    arg: &Term,
    skel: &'a Skeleton,
) -> Result<Option<Term>, HeredFault> {
    let inside = context_around(alloc, around.bound, skel, around.outer)?;
    let arg_typed = term_has(alloc, arg, skel, around.heads, around.outer)?;
    let body_typed = term_has(alloc, body, made, around.heads, &inside)?;
    if !arg_typed {
        return Ok(None);
    }
    if !body_typed {
        return Ok(None);
    }
    let found = substitute(alloc, body, around.bound.len() as u64, arg, skel)?;
    Ok(Some(found))
}

/// The same in a type.
pub fn put_in_type<'a>(
    alloc: Global,
    around: Around<'a>,
    body: &'a Ty,
    arg: &Term,
    skel: &'a Skeleton,
) -> Result<Option<Ty>, HeredFault> {
    let inside = context_around(alloc, around.bound, skel, around.outer)?;
    let arg_typed = term_has(alloc, arg, skel, around.heads, around.outer)?;
    let body_typed = type_fits(alloc, body, around.heads, around.heads, &inside)?;
    if !arg_typed {
        return Ok(None);
    }
    if !body_typed {
        return Ok(None);
    }
    let found = substitute_ty(alloc, body, around.bound.len() as u64, arg, skel)?;
    Ok(Some(found))
}

/// The greatest depth that `instantiate` is asked for.
const INSTANCE_LEVELS: u64 = 10_010;

/// The same by `instantiate`, for the newest variable: no variable is bound above it.
pub fn put_in_newest<'a>(
    alloc: Global,
    around: Around<'a>,
    body: &'a Ty,
    arg: &Term,
    skel: &'a Skeleton,
) -> Result<Option<Ty>, HeredFault> {
    let inside = context_around(alloc, &[], skel, around.outer)?;
    let arg_typed = term_has(alloc, arg, skel, around.heads, around.outer)?;
    let body_typed = type_fits(alloc, body, around.heads, around.heads, &inside)?;
    if !arg_typed {
        return Ok(None);
    }
    if !body_typed {
        return Ok(None);
    }
    let found = instantiate(alloc, body, arg, skel, INSTANCE_LEVELS)?;
    Ok(Some(found))
}

/// The term on the arguments, which give a term of the family.
pub fn apply_typed<'a>(
    alloc: Global,
    around: Around<'a>,
    term: &Term,
    spine: &Spine,
    skel: &'a Skeleton,
    family: ConstId,
) -> Result<Option<Term>, HeredFault> {
    let made = Skeleton::Base(family);
    let term_typed = term_has(alloc, term, skel, around.heads, around.outer)?;
    let spine_typed = spine_has(alloc, spine, skel, &made, around.heads, around.outer)?;
    if !term_typed {
        return Ok(None);
    }
    if !spine_typed {
        return Ok(None);
    }
    let found = apply_spine(alloc, term, spine, skel)?;
    Ok(Some(found))
}

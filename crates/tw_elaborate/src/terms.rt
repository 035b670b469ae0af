//! Terms: with the type that is found, or at an expected one; types, families and kinds.
ghost use Rattle.std.specs.Prelude.{IfOk, IsErrOf, OnOk};
ghost use Rattle.lf.specs.Entries.{signature_of, IsCanonicalSignature};
ghost use Rattle.lf.specs.Syntax.{skeleton as skeleton_of_type};
ghost use Rattle.lf_elaboration.specs.Elaboration.{Checks, ElaboratesDomain, ElaboratesFamily, ElaboratesKind, ElaboratesType, Infers};
ghost use Rattle.lf_elaboration.specs.Skeletons.{TypeHasSkeletons};
ghost use Rattle.lf_elaboration.specs.Written.{function as function_of, quantified as quantified_of};
ghost use Rattle.tw_terms.specs.OpenView.{open_spine_of, open_term_of, open_type_of};
ghost use Rattle.tw_elaborate.specs.Comparing.{ChecksDomain};
ghost use Rattle.tw_elaborate.specs.Deep.{ChecksDeep, ChecksDomainDeep, DomainDeep, FamilyDeep, InfersDeep, KindDeep, TypeDeep};
ghost use Rattle.tw_elaborate.specs.Fits.{Stands};
ghost use Rattle.tw_elaborate.specs.Fresh.{Keeps};
ghost use Rattle.tw_elaborate.specs.Operators.{IsTerm, operator_of, written_terms};
ghost use Rattle.tw_elaborate.specs.Plain.{DomainIsPlain, IsReducible};
ghost use Rattle.tw_elaborate.specs.Rows.{Reached};
ghost use Rattle.tw_open.specs.View.{open_kind_of};
ghost use Rattle.tw_elaborate.specs.View.{made, numbers_of};
ghost use Rattle.tw_written.specs.View.{written_domain_of, written_kind_of, written_of, written_type_of};

use crate::equations::compare_types;
use crate::frames::{LEVELS, PARTS};
use crate::fresh::new_type;
use crate::heads::{bound, declared, free, named_family};
use crate::holes::{checked_hole, term_hole};
use crate::operators::Operator;
use crate::parts::{
    arrows, compare_ascribed, family_application, function, kind_arrows, push_domain, push_kind,
    unascribed,
};
use crate::plain::{domain_nests_within, is_plain_domain};
use crate::state::Elaboration;
use crate::waiting::{
    Begun, Next, advance, begun_with, family_row, finish, left_under, pop_waiting, push_waiting,
    resume, row,
};
use std::alloc::Global;
use tw_hered::HeredFault;
use tw_open::{OpenKind, kind_pi, lambda, pi};
use tw_signature::Signature;
use tw_terms::numbers::nested;
use tw_terms::{ConstId, MetaId, Open, OpenSpine, OpenTy};
use tw_written::{Written, WrittenDomain, WrittenKind, WrittenType};

/// The term that is written, and its type. What has no skeleton has none, and memory counts as used up.
///
/// Answers `TooDeep` only where elaboration reaches a substitution with a term deeper than 4,096, or a type or kind that is left behind an argument and is deeper.
#[cycle(elaborate)]
pub fn infer(
    alloc: Global,
    signature: &Signature,
    frees: &[MetaId],
    state: &mut Elaboration,
    written: &Written,
    frames: u32,
) -> Result<(Open, OpenTy), HeredFault>
    requires canonical { IsCanonicalSignature signature.now }
    requires stands { Stands (signature_of signature.now) (made state.old) state.old.locals }
    ensures ok { IfOk result (λ p. Infers signature.now (numbers_of frees.now) state.old.locals (written_of written.now) (made state.old) (made state.new) (open_term_of p.0) (open_type_of p.1)) }
    ensures too_deep { IsErrOf result HeredFault.TooDeep → InfersDeep signature.now (numbers_of frees.now) state.old.locals (written_of written.now) (made state.old) }
    ensures keeps { Keeps state.old state.new }
{
    let frames = nested(frames)?;
    match written {
        Written::Hole(skeleton, _) => term_hole(alloc, signature, state, skeleton),
        Written::Function(domain, body) => infer_function(
            alloc, signature, frees, state, domain, body, frames,
        ),
        Written::Free(_, _)
        | Written::Bound(_)
        | Written::Declared(_, _)
        | Written::Applied(_, _) => infer_applied(alloc, signature, frees, state, written, frames),
        Written::Ascribed(_, _) => infer_ascribed(alloc, signature, frees, state, written, frames),
    }
}

/// A term at a type, and that type; or at several, one behind the other. They are elaborated from the outside in, and compared from the inside out.
#[cycle(elaborate)]
#[inline(never)]
fn infer_ascribed(
    alloc: Global,
    signature: &Signature,
    frees: &[MetaId],
    state: &mut Elaboration,
    written: &Written,
    frames: u32,
) -> Result<(Open, OpenTy), HeredFault>
    requires canonical { IsCanonicalSignature signature.now }
    requires stands { Stands (signature_of signature.now) (made state.old) state.old.locals }
    ensures ok { IfOk result (λ p. Infers signature.now (numbers_of frees.now) state.old.locals (written_of written.now) (made state.old) (made state.new) (open_term_of p.0) (open_type_of p.1)) }
    ensures too_deep { IsErrOf result HeredFault.TooDeep → InfersDeep signature.now (numbers_of frees.now) state.old.locals (written_of written.now) (made state.old) }
    ensures keeps { Keeps state.old state.new }
{
    let mut types = Vec::new(alloc);
    let mut rest = written;
    while let Written::Ascribed(term, ty) = rest {
        let ty = elaborate_type(alloc, signature, frees, state, ty, frames)?;
        push_domain(&mut types, ty)?;
        rest = term;
    }
    let Some(innermost) = types.pop() else {
        // What is handed in is an ascription; no clause says so.
        return Err(HeredFault::NoMemory);
    };
    let term = check(alloc, signature, frees, state, rest, &innermost, frames)?;
    let mut found = innermost;
    while let Some(expected) = types.pop() {
        compare_types(alloc, signature, state, &found, &expected)?;
        found = expected;
    }
    Ok((term, found))
}

/// A function, and its type.
#[cycle(elaborate)]
#[inline(never)]
fn infer_function(
    alloc: Global,
    signature: &Signature,
    frees: &[MetaId],
    state: &mut Elaboration,
    domain: &WrittenDomain,
    body: &Written,
    frames: u32,
) -> Result<(Open, OpenTy), HeredFault>
    requires canonical { IsCanonicalSignature signature.now }
    requires stands { Stands (signature_of signature.now) (made state.old) state.old.locals }
    ensures ok { IfOk result (λ p. Infers signature.now (numbers_of frees.now) state.old.locals (function_of (written_domain_of domain.now) (written_of body.now)) (made state.old) (made state.new) (open_term_of p.0) (open_type_of p.1)) }
    ensures too_deep { IsErrOf result HeredFault.TooDeep → InfersDeep signature.now (numbers_of frees.now) state.old.locals (function_of (written_domain_of domain.now) (written_of body.now)) (made state.old) }
    ensures keeps { Keeps state.old state.new }
{
    let domain = lambda_domain(alloc, signature, frees, state, domain, frames)?;
    state.locals.push(domain.copy(alloc)?)?;
    let inferred = infer(alloc, signature, frees, state, body, frames);
    state.locals.pop();
    let (body, range) = inferred?;
    Ok(function(alloc, domain, body, range)?)
}

/// A row of arguments, none or more, put to what stands before them, and the type that is left. A row that is an argument of another one nests on the heap,
/// and each level that it comes to leaves a call fewer to what it waits for.
#[cycle(elaborate)]
#[inline(never)]
fn infer_applied(
    alloc: Global,
    signature: &Signature,
    frees: &[MetaId],
    state: &mut Elaboration,
    written: &Written,
    frames: u32,
) -> Result<(Open, OpenTy), HeredFault>
    requires canonical { IsCanonicalSignature signature.now }
    requires stands { Stands (signature_of signature.now) (made state.old) state.old.locals }
    ensures ok { IfOk result (λ p. Infers signature.now (numbers_of frees.now) state.old.locals (written_of written.now) (made state.old) (made state.new) (open_term_of p.0) (open_type_of p.1)) }
    ensures too_deep { IsErrOf result HeredFault.TooDeep → InfersDeep signature.now (numbers_of frees.now) state.old.locals (written_of written.now) (made state.old) }
    ensures keeps { Keeps state.old state.new }
{
    let mut waiting = Vec::new(alloc);
    let mut begun = begin(alloc, signature, frees, state, written, frames, 0)?;
    for _ in 0..u64::MAX {
        match advance(alloc, begun)? {
            Next::Argument(arg, outer) => match arg {
                Written::Applied(_, _) => {
                    let above = outer.inside;
                    push_waiting(&mut waiting, outer)?;
                    begun = begin(
                        alloc,
                        signature,
                        frees,
                        state,
                        arg,
                        left_under(frames, above),
                        above,
                    )?;
                }
                Written::Free(_, _)
                | Written::Bound(_)
                | Written::Declared(_, _)
                | Written::Hole(_, _)
                | Written::Function(_, _)
                | Written::Ascribed(_, _) => {
                    let arg = check(
                        alloc,
                        signature,
                        frees,
                        state,
                        arg,
                        &outer.domain,
                        left_under(frames, outer.inside),
                    )?;
                    begun = resume(alloc, outer, arg)?;
                }
            },
            Next::Nothing(whole) => {
                let (term, ty) = finish(alloc, whole)?;
                match pop_waiting(alloc, &mut waiting)? {
                    Some(outer) => {
                        compare_types(alloc, signature, state, &ty, &outer.domain)?;
                        begun = resume(alloc, outer, term)?;
                    }
                    None => return Ok((term, ty)),
                }
            }
        }
    }
    // No text in memory has so many rows and arguments; no clause of a text says so.
    Err(HeredFault::NoMemory)
}

/// A row of which what stands before the arguments is elaborated, below so many levels of the rows that wait for it.
#[cycle(elaborate)]
#[inline(never)]
fn begin<'a>(
    alloc: Global,
    signature: &Signature,
    frees: &[MetaId],
    state: &mut Elaboration,
    written: &'a Written,
    frames: u32,
    above: u64,
) -> Result<Box<Begun<'a>>, HeredFault>
    requires canonical { IsCanonicalSignature signature.now }
    requires stands { Stands (signature_of signature.now) (made state.old) state.old.locals }
    ensures ok { IfOk result (λ r. Reached signature.now (numbers_of frees.now) state.old.locals (written_of written.now) (made state.old) (written_terms r.value.args.items) (made state.new) r.value.operator (open_type_of r.value.ty)) }
    ensures too_deep { IsErrOf result HeredFault.TooDeep → InfersDeep signature.now (numbers_of frees.now) state.old.locals (written_of written.now) (made state.old) }
    ensures keeps { Keeps state.old state.new }
{
    let (head, args) = row(alloc, written)?;
    let (operator, ty) = elaborate_operator(alloc, signature, frees, state, head, frames)?;
    Ok(begun_with(alloc, operator, ty, args, above)?)
}

/// What stands before arguments, and its type. A row itself stands before none, and memory counts as used up.
#[cycle(elaborate)]
#[inline(never)]
fn elaborate_operator(
    alloc: Global,
    signature: &Signature,
    frees: &[MetaId],
    state: &mut Elaboration,
    written: &Written,
    frames: u32,
) -> Result<(Operator, OpenTy), HeredFault>
    requires canonical { IsCanonicalSignature signature.now }
    requires stands { Stands (signature_of signature.now) (made state.old) state.old.locals }
    ensures ok { IfOk result (λ p. Infers signature.now (numbers_of frees.now) state.old.locals (written_of written.now) (made state.old) (made state.new) (operator_of (skeleton_of_type (open_type_of p.1)) p.0) (open_type_of p.1)) }
    ensures reducible { IfOk result (λ p. IsTerm p.0 → IsReducible signature.now (written_of written.now)) }
    ensures too_deep { IsErrOf result HeredFault.TooDeep → InfersDeep signature.now (numbers_of frees.now) state.old.locals (written_of written.now) (made state.old) }
    ensures keeps { Keeps state.old state.new }
{
    match written {
        Written::Free(variable, _) => Ok(free(alloc, frees, state, *variable)?),
        Written::Bound(variable) => Ok(bound(alloc, state, *variable)?),
        Written::Declared(id, _) => declared(alloc, signature, state, *id),
        Written::Hole(_, _) | Written::Function(_, _) | Written::Ascribed(_, _) => {
            let (term, ty) = infer(alloc, signature, frees, state, written, frames)?;
            Ok((Operator::Term(term), ty))
        }
        // What stands before all arguments of a row is no row; the clauses of a row leave it open.
        Written::Applied(_, _) => Err(HeredFault::NoMemory),
    }
}

/// The term that is written, made one of the expected type.
#[cycle(elaborate)]
pub fn check(
    alloc: Global,
    signature: &Signature,
    frees: &[MetaId],
    state: &mut Elaboration,
    written: &Written,
    expected: &OpenTy,
    frames: u32,
) -> Result<Open, HeredFault>
    requires canonical { IsCanonicalSignature signature.now }
    requires stands { Stands (signature_of signature.now) (made state.old) state.old.locals }
    requires expected { TypeHasSkeletons (signature_of signature.now) (made state.old) state.old.locals (open_type_of expected.now) }
    ensures ok { IfOk result (λ m. Checks signature.now (numbers_of frees.now) state.old.locals (written_of written.now) (open_type_of expected.now) (made state.old) (made state.new) (open_term_of m)) }
    ensures too_deep { IsErrOf result HeredFault.TooDeep → ChecksDeep signature.now (numbers_of frees.now) state.old.locals (written_of written.now) (open_type_of expected.now) (made state.old) }
    ensures keeps { Keeps state.old state.new }
{
    let frames = nested(frames)?;
    match written {
        Written::Hole(skeleton, _) => Ok(checked_hole(alloc, state, skeleton, expected)?),
        Written::Function(domain, body) => check_function(
            alloc, signature, frees, state, domain, body, expected, frames,
        ),
        Written::Free(_, _)
        | Written::Bound(_)
        | Written::Declared(_, _)
        | Written::Applied(_, _)
        | Written::Ascribed(_, _) => {
            let (term, found) = infer(alloc, signature, frees, state, written, frames)?;
            compare_types(alloc, signature, state, &found, expected)?;
            Ok(term)
        }
    }
}

/// A function of the expected type.
#[cycle(elaborate)]
#[inline(never)]
fn check_function(
    alloc: Global,
    signature: &Signature,
    frees: &[MetaId],
    state: &mut Elaboration,
    domain: &WrittenDomain,
    body: &Written,
    expected: &OpenTy,
    frames: u32,
) -> Result<Open, HeredFault>
    requires canonical { IsCanonicalSignature signature.now }
    requires stands { Stands (signature_of signature.now) (made state.old) state.old.locals }
    requires expected { TypeHasSkeletons (signature_of signature.now) (made state.old) state.old.locals (open_type_of expected.now) }
    ensures ok { IfOk result (λ m. Checks signature.now (numbers_of frees.now) state.old.locals (function_of (written_domain_of domain.now) (written_of body.now)) (open_type_of expected.now) (made state.old) (made state.new) (open_term_of m)) }
    ensures too_deep { IsErrOf result HeredFault.TooDeep → ChecksDeep signature.now (numbers_of frees.now) state.old.locals (function_of (written_domain_of domain.now) (written_of body.now)) (open_type_of expected.now) (made state.old) }
    ensures keeps { Keeps state.old state.new }
{
    match expected {
        OpenTy::Pi(expected, range) => {
            check_domain(alloc, signature, frees, state, domain, expected, frames)?;
            state.locals.push(expected.copy(alloc)?)?;
            let checked = check(alloc, signature, frees, state, body, range, frames);
            state.locals.pop();
            Ok(lambda(alloc, checked?)?)
        }
        // What has a skeleton has a function only where a function is expected; no clause says that what is written has one.
        OpenTy::Atom(_, _) => Err(HeredFault::NoMemory),
    }
}

/// Compares the type at a binder, written or not, with the expected one.
#[cycle(elaborate)]
#[inline(never)]
fn check_domain(
    alloc: Global,
    signature: &Signature,
    frees: &[MetaId],
    state: &mut Elaboration,
    written: &WrittenDomain,
    expected: &OpenTy,
    frames: u32,
) -> Result<(), HeredFault>
    requires canonical { IsCanonicalSignature signature.now }
    requires stands { Stands (signature_of signature.now) (made state.old) state.old.locals }
    requires expected { TypeHasSkeletons (signature_of signature.now) (made state.old) state.old.locals (open_type_of expected.now) }
    ensures ok { OnOk result (ChecksDomain signature.now (numbers_of frees.now) (written_domain_of written.now) (open_type_of expected.now) state.old state.new) }
    ensures too_deep { IsErrOf result HeredFault.TooDeep → ChecksDomainDeep signature.now (numbers_of frees.now) state.old.locals (written_domain_of written.now) (open_type_of expected.now) (made state.old) }
    ensures keeps { Keeps state.old state.new }
{
    let found = lambda_domain(alloc, signature, frees, state, written, frames)?;
    compare_types(alloc, signature, state, &found, expected)
}

/// The type at a binder of a function. The typing of what is written doesn't go through it, so where it is written in full and is too deep, memory counts as used up; so it does where more
/// parts nest in it than `PARTS`.
#[cycle(elaborate)]
#[inline(never)]
fn lambda_domain(
    alloc: Global,
    signature: &Signature,
    frees: &[MetaId],
    state: &mut Elaboration,
    written: &WrittenDomain,
    frames: u32,
) -> Result<OpenTy, HeredFault>
    requires canonical { IsCanonicalSignature signature.now }
    requires stands { Stands (signature_of signature.now) (made state.old) state.old.locals }
    ensures ok { IfOk result (λ a. ElaboratesDomain signature.now (numbers_of frees.now) state.old.locals (written_domain_of written.now) (made state.old) (made state.new) (open_type_of a)) }
    ensures too_deep { IsErrOf result HeredFault.TooDeep → DomainDeep signature.now (numbers_of frees.now) state.old.locals (written_domain_of written.now) (made state.old) }
    ensures left_out { IsErrOf result HeredFault.TooDeep → DomainIsPlain signature.now (written_domain_of written.now) → ⊥ }
    ensures keeps { Keeps state.old state.new }
{
    match elaborate_domain(alloc, signature, frees, state, written, frames) {
        Ok(ty) => Ok(ty),
        Err(HeredFault::TooDeep) => {
            if !domain_nests_within(written, PARTS) || is_plain_domain(signature, written) {
                Err(HeredFault::NoMemory)
            } else {
                Err(HeredFault::TooDeep)
            }
        }
        Err(HeredFault::NoMemory) => Err(HeredFault::NoMemory),
    }
}

/// The type that is written.
#[cycle(elaborate)]
pub fn elaborate_type(
    alloc: Global,
    signature: &Signature,
    frees: &[MetaId],
    state: &mut Elaboration,
    written: &WrittenType,
    frames: u32,
) -> Result<OpenTy, HeredFault>
    requires canonical { IsCanonicalSignature signature.now }
    requires stands { Stands (signature_of signature.now) (made state.old) state.old.locals }
    ensures ok { IfOk result (λ a. ElaboratesType signature.now (numbers_of frees.now) state.old.locals (written_type_of written.now) (made state.old) (made state.new) (open_type_of a)) }
    ensures too_deep { IsErrOf result HeredFault.TooDeep → TypeDeep signature.now (numbers_of frees.now) state.old.locals (written_type_of written.now) (made state.old) }
    ensures keeps { Keeps state.old state.new }
{
    let bare = unascribed(written);
    elaborate_bare_type(alloc, signature, frees, state, bare, frames)
}

/// The same without a kind `type` behind it.
#[cycle(elaborate)]
fn elaborate_bare_type(
    alloc: Global,
    signature: &Signature,
    frees: &[MetaId],
    state: &mut Elaboration,
    written: &WrittenType,
    frames: u32,
) -> Result<OpenTy, HeredFault>
    requires canonical { IsCanonicalSignature signature.now }
    requires stands { Stands (signature_of signature.now) (made state.old) state.old.locals }
    ensures ok { IfOk result (λ a. ElaboratesType signature.now (numbers_of frees.now) state.old.locals (written_type_of written.now) (made state.old) (made state.new) (open_type_of a)) }
    ensures too_deep { IsErrOf result HeredFault.TooDeep → TypeDeep signature.now (numbers_of frees.now) state.old.locals (written_type_of written.now) (made state.old) }
    ensures keeps { Keeps state.old state.new }
{
    let frames = nested(frames)?;
    match written {
        WrittenType::Hole(skeleton, _) => new_type(alloc, signature, state, skeleton, LEVELS),
        WrittenType::Arrow(_, _) => elaborate_arrows(
            alloc, signature, frees, state, written, frames,
        ),
        WrittenType::Quantified(domain, range) => elaborate_quantified(
            alloc, signature, frees, state, domain, range, frames,
        ),
        // What has a skeleton has a type only with the kind `type`; no clause says that what is written has one.
        WrittenType::Ascribed(_, _) => Err(HeredFault::NoMemory),
        WrittenType::Family(_, _) | WrittenType::Applied(_, _) => {
            let (family, spine, kind) = elaborate_family(
                alloc, signature, frees, state, written, frames,
            )?;
            match kind {
                OpenKind::Star => Ok(OpenTy::Atom(family, spine)),
                // What has a skeleton has a type only where all arguments are there; no clause says that what is written has one.
                OpenKind::Pi(_, _) => Err(HeredFault::NoMemory),
            }
        }
    }
}

/// A product, whose variable is in scope in its range.
#[cycle(elaborate)]
#[inline(never)]
fn elaborate_quantified(
    alloc: Global,
    signature: &Signature,
    frees: &[MetaId],
    state: &mut Elaboration,
    domain: &WrittenDomain,
    range: &WrittenType,
    frames: u32,
) -> Result<OpenTy, HeredFault>
    requires canonical { IsCanonicalSignature signature.now }
    requires stands { Stands (signature_of signature.now) (made state.old) state.old.locals }
    ensures ok { IfOk result (λ a. ElaboratesType signature.now (numbers_of frees.now) state.old.locals (quantified_of (written_domain_of domain.now) (written_type_of range.now)) (made state.old) (made state.new) (open_type_of a)) }
    ensures too_deep { IsErrOf result HeredFault.TooDeep → TypeDeep signature.now (numbers_of frees.now) state.old.locals (quantified_of (written_domain_of domain.now) (written_type_of range.now)) (made state.old) }
    ensures keeps { Keeps state.old state.new }
{
    let domain = elaborate_domain(alloc, signature, frees, state, domain, frames)?;
    state.locals.push(domain.copy(alloc)?)?;
    let range = elaborate_type(alloc, signature, frees, state, range, frames);
    state.locals.pop();
    Ok(pi(alloc, domain, range?)?)
}

/// A chain of arrows, none or more, and the type at its end.
#[cycle(elaborate)]
#[inline(never)]
fn elaborate_arrows(
    alloc: Global,
    signature: &Signature,
    frees: &[MetaId],
    state: &mut Elaboration,
    written: &WrittenType,
    frames: u32,
) -> Result<OpenTy, HeredFault>
    requires canonical { IsCanonicalSignature signature.now }
    requires stands { Stands (signature_of signature.now) (made state.old) state.old.locals }
    ensures ok { IfOk result (λ a. ElaboratesType signature.now (numbers_of frees.now) state.old.locals (written_type_of written.now) (made state.old) (made state.new) (open_type_of a)) }
    ensures too_deep { IsErrOf result HeredFault.TooDeep → TypeDeep signature.now (numbers_of frees.now) state.old.locals (written_type_of written.now) (made state.old) }
    ensures keeps { Keeps state.old state.new }
{
    let mut domains = Vec::new(alloc);
    let mut rest = written;
    while let WrittenType::Arrow(domain, range) = rest {
        let domain = elaborate_type(alloc, signature, frees, state, domain, frames)?;
        push_domain(&mut domains, domain)?;
        rest = range;
    }
    let end = elaborate_type(alloc, signature, frees, state, rest, frames)?;
    Ok(arrows(alloc, domains, &end)?)
}

/// The type of a binder's variable.
#[cycle(elaborate)]
#[inline(never)]
fn elaborate_domain(
    alloc: Global,
    signature: &Signature,
    frees: &[MetaId],
    state: &mut Elaboration,
    written: &WrittenDomain,
    frames: u32,
) -> Result<OpenTy, HeredFault>
    requires canonical { IsCanonicalSignature signature.now }
    requires stands { Stands (signature_of signature.now) (made state.old) state.old.locals }
    ensures ok { IfOk result (λ a. ElaboratesDomain signature.now (numbers_of frees.now) state.old.locals (written_domain_of written.now) (made state.old) (made state.new) (open_type_of a)) }
    ensures too_deep { IsErrOf result HeredFault.TooDeep → DomainDeep signature.now (numbers_of frees.now) state.old.locals (written_domain_of written.now) (made state.old) }
    ensures keeps { Keeps state.old state.new }
{
    let frames = nested(frames)?;
    match written {
        WrittenDomain::OfSkeleton(skeleton, _) => new_type(
            alloc, signature, state, skeleton, LEVELS,
        ),
        WrittenDomain::OfType(ty) => elaborate_type(alloc, signature, frees, state, ty, frames),
    }
}

/// A family on the arguments that are written, none or more, and the kind that is left. The arguments of a row don't nest.
#[cycle(elaborate)]
#[inline(never)]
fn elaborate_family(
    alloc: Global,
    signature: &Signature,
    frees: &[MetaId],
    state: &mut Elaboration,
    written: &WrittenType,
    frames: u32,
) -> Result<(ConstId, OpenSpine, OpenKind), HeredFault>
    requires canonical { IsCanonicalSignature signature.now }
    requires stands { Stands (signature_of signature.now) (made state.old) state.old.locals }
    ensures ok { IfOk result (λ f. ElaboratesFamily signature.now (numbers_of frees.now) state.old.locals (written_type_of written.now) (made state.old) (made state.new) f.0.0 (open_spine_of f.1) (open_kind_of f.2)) }
    ensures too_deep { IsErrOf result HeredFault.TooDeep → FamilyDeep signature.now (numbers_of frees.now) state.old.locals (written_type_of written.now) (made state.old) }
    ensures keeps { Keeps state.old state.new }
{
    let frames = nested(frames)?;
    let (head, args) = family_row(alloc, written)?;
    let (family, first, whole) = elaborate_family_head(
        alloc, signature, frees, state, head, frames,
    )?;
    let mut left = args;
    let mut spine = first;
    let mut kind = whole;
    while let Some(next) = left.pop() {
        match kind {
            OpenKind::Pi(domain, range) => {
                let arg = check(alloc, signature, frees, state, next, &domain, frames)?;
                let (longer, rest) = family_application(alloc, spine, &domain, &range, arg)?;
                spine = longer;
                kind = rest;
            }
            // What has a skeleton has no argument behind a type; no clause says that what is written has one.
            OpenKind::Star => return Err(HeredFault::NoMemory),
        }
    }
    Ok((family, spine, kind))
}

/// What stands before the arguments of a family: its name, perhaps with a kind.
#[cycle(elaborate)]
#[inline(never)]
fn elaborate_family_head(
    alloc: Global,
    signature: &Signature,
    frees: &[MetaId],
    state: &mut Elaboration,
    written: &WrittenType,
    frames: u32,
) -> Result<(ConstId, OpenSpine, OpenKind), HeredFault>
    requires canonical { IsCanonicalSignature signature.now }
    requires stands { Stands (signature_of signature.now) (made state.old) state.old.locals }
    ensures ok { IfOk result (λ f. ElaboratesFamily signature.now (numbers_of frees.now) state.old.locals (written_type_of written.now) (made state.old) (made state.new) f.0.0 (open_spine_of f.1) (open_kind_of f.2)) }
    ensures too_deep { IsErrOf result HeredFault.TooDeep → FamilyDeep signature.now (numbers_of frees.now) state.old.locals (written_type_of written.now) (made state.old) }
    ensures keeps { Keeps state.old state.new }
{
    match written {
        WrittenType::Family(id, _) => {
            let (spine, kind) = named_family(alloc, signature, state, *id)?;
            Ok((*id, spine, kind))
        }
        WrittenType::Ascribed(_, _) => elaborate_ascribed_family(
            alloc, signature, frees, state, written, frames,
        ),
        // What has a skeleton has a name before arguments and kinds; no clause says that what is written has one.
        WrittenType::Hole(_, _)
        | WrittenType::Arrow(_, _)
        | WrittenType::Quantified(_, _)
        | WrittenType::Applied(_, _) => Err(HeredFault::NoMemory),
    }
}

/// A family with a kind, or with several, one behind the other. They are elaborated from the outside in, and compared from the inside out.
#[cycle(elaborate)]
#[inline(never)]
fn elaborate_ascribed_family(
    alloc: Global,
    signature: &Signature,
    frees: &[MetaId],
    state: &mut Elaboration,
    written: &WrittenType,
    frames: u32,
) -> Result<(ConstId, OpenSpine, OpenKind), HeredFault>
    requires canonical { IsCanonicalSignature signature.now }
    requires stands { Stands (signature_of signature.now) (made state.old) state.old.locals }
    ensures ok { IfOk result (λ f. ElaboratesFamily signature.now (numbers_of frees.now) state.old.locals (written_type_of written.now) (made state.old) (made state.new) f.0.0 (open_spine_of f.1) (open_kind_of f.2)) }
    ensures too_deep { IsErrOf result HeredFault.TooDeep → FamilyDeep signature.now (numbers_of frees.now) state.old.locals (written_type_of written.now) (made state.old) }
    ensures keeps { Keeps state.old state.new }
{
    let mut kinds = Vec::new(alloc);
    let mut rest = written;
    while let WrittenType::Ascribed(family, kind) = rest {
        let kind = elaborate_kind(alloc, signature, frees, state, kind, frames)?;
        push_kind(&mut kinds, kind)?;
        rest = family;
    }
    let (family, spine, found) = elaborate_family(alloc, signature, frees, state, rest, frames)?;
    while let Some(expected) = kinds.pop() {
        compare_ascribed(alloc, signature, state, &found, &expected)?;
    }
    Ok((family, spine, found))
}

/// The kind that is written.
#[cycle(elaborate)]
pub fn elaborate_kind(
    alloc: Global,
    signature: &Signature,
    frees: &[MetaId],
    state: &mut Elaboration,
    written: &WrittenKind,
    frames: u32,
) -> Result<OpenKind, HeredFault>
    requires canonical { IsCanonicalSignature signature.now }
    requires stands { Stands (signature_of signature.now) (made state.old) state.old.locals }
    ensures ok { IfOk result (λ k. ElaboratesKind signature.now (numbers_of frees.now) state.old.locals (written_kind_of written.now) (made state.old) (made state.new) (open_kind_of k)) }
    ensures too_deep { IsErrOf result HeredFault.TooDeep → KindDeep signature.now (numbers_of frees.now) state.old.locals (written_kind_of written.now) (made state.old) }
    ensures keeps { Keeps state.old state.new }
{
    let frames = nested(frames)?;
    match written {
        WrittenKind::Star => Ok(OpenKind::Star),
        WrittenKind::Arrow(_, _) => elaborate_kind_arrows(
            alloc, signature, frees, state, written, frames,
        ),
        WrittenKind::Quantified(domain, range) => {
            let domain = elaborate_domain(alloc, signature, frees, state, domain, frames)?;
            state.locals.push(domain.copy(alloc)?)?;
            let range = elaborate_kind(alloc, signature, frees, state, range, frames);
            state.locals.pop();
            Ok(kind_pi(alloc, domain, range?)?)
        }
    }
}

/// A chain of arrows, none or more, and the kind at its end.
#[cycle(elaborate)]
#[inline(never)]
fn elaborate_kind_arrows(
    alloc: Global,
    signature: &Signature,
    frees: &[MetaId],
    state: &mut Elaboration,
    written: &WrittenKind,
    frames: u32,
) -> Result<OpenKind, HeredFault>
    requires canonical { IsCanonicalSignature signature.now }
    requires stands { Stands (signature_of signature.now) (made state.old) state.old.locals }
    ensures ok { IfOk result (λ k. ElaboratesKind signature.now (numbers_of frees.now) state.old.locals (written_kind_of written.now) (made state.old) (made state.new) (open_kind_of k)) }
    ensures too_deep { IsErrOf result HeredFault.TooDeep → KindDeep signature.now (numbers_of frees.now) state.old.locals (written_kind_of written.now) (made state.old) }
    ensures keeps { Keeps state.old state.new }
{
    let mut domains = Vec::new(alloc);
    let mut rest = written;
    while let WrittenKind::Arrow(domain, range) = rest {
        let domain = elaborate_type(alloc, signature, frees, state, domain, frames)?;
        push_domain(&mut domains, domain)?;
        rest = range;
    }
    let end = elaborate_kind(alloc, signature, frees, state, rest, frames)?;
    Ok(kind_arrows(alloc, domains, &end)?)
}

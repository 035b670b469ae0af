//! Open kinds.
ghost use Rattle.std.specs.Prelude.{◌≡◌, ◌<◌, IfOk, IsErrOf};
ghost use Rattle.lf.specs.AtOnce.{lift_renaming_by, shift_by};
ghost use Rattle.lf.specs.Depth.{depth_limit, kind_depth};
ghost use Rattle.lf.specs.Substitution.{reduce, substitute_kind};
ghost use Rattle.lf.specs.Syntax.{kind_pi as kind_pi_of, rename_kind, skeleton};
ghost use Rattle.tw_hered.specs.Fits.{KindFits, put_at};
ghost use Rattle.tw_terms.specs.OpenView.{open_term_of, open_type_of};
ghost use Rattle.tw_terms.specs.View.{kind_of};
ghost use Rattle.tw_open.specs.Deep.{HasDeepDomain};
ghost use Rattle.tw_open.specs.View.{open_kind_of};

use std::alloc::{AllocError, Global};
use tw_hered::HeredFault;
use tw_putting::{open_type, shift_type, substitute_type};
use tw_terms::{Kind, Open, OpenTy};

/// A kind with metavariables.
#[derive(Drop, Debug)]
pub enum OpenKind {
    Pi(Box<OpenTy>, Box<OpenKind>),
    Star,
}

/// The kind as an open one. Fails only for want of memory.
pub fn open_kind(alloc: Global, kind: &Kind) -> Result<OpenKind, AllocError>
    ensures { IfOk result (λ k. open_kind_of k ≡ kind_of kind.now) }
{
    match kind {
        Kind::Pi(domain, range) => {
            kind_pi(alloc, open_type(alloc, domain)?, open_kind(alloc, range)?)
        }
        Kind::Star => Ok(OpenKind::Star),
    }
}

/// The kind with `arg`, a term of the skeleton of `ty`, put in for the variable `index`, as `tw_putting::substitute_type` has it.
/// Answers `TooDeep` only where a domain of the kind that comes out is deeper than 4,096, and `NoMemory` where memory is wanting.
pub fn instantiate_kind(
    alloc: Global,
    kind: &OpenKind,
    index: u64,
    arg: &Open,
    ty: &OpenTy,
) -> Result<OpenKind, HeredFault>
    requires { KindFits (put_at index (skeleton (open_type_of ty.now)) (open_term_of arg.now)) (open_kind_of kind.now) }
    ensures ok { IfOk result (λ k. open_kind_of k ≡ substitute_kind reduce (put_at index (skeleton (open_type_of ty.now)) (open_term_of arg.now)) (open_kind_of kind.now)) }
    ensures too_deep { IsErrOf result HeredFault.TooDeep → depth_limit < kind_depth (substitute_kind reduce (put_at index (skeleton (open_type_of ty.now)) (open_term_of arg.now)) (open_kind_of kind.now)) }
    ensures deep_domain { IsErrOf result HeredFault.TooDeep → HasDeepDomain depth_limit (substitute_kind reduce (put_at index (skeleton (open_type_of ty.now)) (open_term_of arg.now)) (open_kind_of kind.now)) }
{
    match kind {
        OpenKind::Pi(domain, range) => {
            let inside = index.checked_add(1).ok_or(AllocError)?;
            let domain = substitute_type(alloc, domain, index, arg, ty)?;
            let range = instantiate_kind(alloc, range, inside, arg, ty)?;
            Ok(kind_pi(alloc, domain, range)?)
        }
        OpenKind::Star => Ok(OpenKind::Star),
    }
}

/// The kind with each variable from `from` on raised by `by`. Fails only for want of memory.
pub fn shift_kind(
    alloc: Global,
    kind: &OpenKind,
    by: u64,
    from: u64,
) -> Result<OpenKind, AllocError>
    ensures { IfOk result (λ k. open_kind_of k ≡ rename_kind (lift_renaming_by from (shift_by by)) (open_kind_of kind.now)) }
{
    match kind {
        OpenKind::Pi(domain, range) => {
            let inside = from.checked_add(1).ok_or(AllocError)?;
            let domain = shift_type(alloc, domain, by, from)?;
            let range = shift_kind(alloc, range, by, inside)?;
            kind_pi(alloc, domain, range)
        }
        OpenKind::Star => Ok(OpenKind::Star),
    }
}

/// The kind with a domain and a range.
pub fn kind_pi(alloc: Global, domain: OpenTy, range: OpenKind) -> Result<OpenKind, AllocError>
    ensures { IfOk result (λ k. open_kind_of k ≡ kind_pi_of (open_type_of domain) (open_kind_of range)) }
{
    let domain = Box::new(alloc, domain)?;
    Ok(OpenKind::Pi(domain, Box::new(alloc, range)?))
}

//! Judgements of the kernel.
use crate::cases::{forms, said};
use std::alloc::{AllocError, Global};
use tests_forms::{
    Case, FormFault, Names, read_closed_context, read_closed_term, read_closed_type, read_kind,
};
use tw_kernel::{Verdict, check_context, check_kind, check_term, check_type};
use tw_signature::Signature;
use tw_terms::{Context, Term, Ty};

fn words_of(verdict: Verdict) -> &'static str {
    match verdict {
        Verdict::Typed => "typed",
        Verdict::IllTyped => "ill-typed",
        Verdict::TooDeep => "too deep",
    }
}

/// Whether a term has a type in a context.
pub fn typing(
    alloc: Global,
    signature: &Signature,
    names: &mut Names,
    case: &Case,
) -> Result<String, FormFault> {
    case.has_only(&["context", "term", "type"])?;
    let context = forms(alloc, case, "context")?;
    let context = read_closed_context(alloc, names, &context)?;
    let term = read_closed_term(alloc, names, &case.form(alloc, "term")?)?;
    let ty = read_closed_type(alloc, names, &case.form(alloc, "type")?)?;
    said(alloc, judged(alloc, signature, &context, &term, &ty)?)
}

// The kernel is asked of a term where the context and the type are sound.
fn judged(
    alloc: Global,
    signature: &Signature,
    context: &Context,
    term: &Term,
    ty: &Ty,
) -> Result<&'static str, AllocError> {
    let verdict = check_context(alloc, signature, context)?;
    if !matches!(verdict, Verdict::Typed) {
        return Ok("no context");
    }
    let verdict = check_type(alloc, signature, context, ty)?;
    if !matches!(verdict, Verdict::Typed) {
        return Ok("no type");
    }
    Ok(words_of(check_term(alloc, signature, context, term, ty)?))
}

/// Whether a type is one in the empty context.
pub fn ty(
    alloc: Global,
    signature: &Signature,
    names: &mut Names,
    case: &Case,
) -> Result<String, FormFault> {
    case.has_only(&["type"])?;
    let context = Context::new(alloc);
    let ty = read_closed_type(alloc, names, &case.form(alloc, "type")?)?;
    said(
        alloc,
        words_of(check_type(alloc, signature, &context, &ty)?),
    )
}

/// Whether a kind is one in the empty context.
pub fn kind(
    alloc: Global,
    signature: &Signature,
    names: &mut Names,
    case: &Case,
) -> Result<String, FormFault> {
    case.has_only(&["kind"])?;
    let context = Context::new(alloc);
    let kind = read_kind(alloc, names, &case.form(alloc, "kind")?)?;
    said(
        alloc,
        words_of(check_kind(alloc, signature, &context, &kind)?),
    )
}

//! Whether something is written in full.
ghost use Rattle.std.specs.Prelude.{◌<◌, ◌≤◌, MatchBool};
ghost use Rattle.tw_elaborate.specs.Nesting.{domain_nesting, term_nesting, type_nesting};
ghost use Rattle.tw_elaborate.specs.Plain.{DomainIsPlain, HasNoImplicit, IsDefined, IsSteady, TermIsPlain, TypeIsPlain};
ghost use Rattle.tw_written.specs.View.{written_domain_of, written_of, written_type_of};

use tw_signature::{Body, Signature};
use tw_terms::ConstId;
use tw_written::{Written, WrittenDomain, WrittenType};

/// Whether the type of a binder is written in full: it has no definition, hole, ascription or implicit argument in it, and only names take arguments. It takes no memory.
#[cycle(plain)]
pub fn is_plain_domain(signature: &Signature, domain: &WrittenDomain) -> bool
    ensures { MatchBool result (DomainIsPlain signature.now (written_domain_of domain.now)) (DomainIsPlain signature.now (written_domain_of domain.now) → ⊥) }
{
    match domain {
        WrittenDomain::OfType(ty) => is_plain_type(signature, ty),
        WrittenDomain::OfSkeleton(_, _) => false,
    }
}

/// The same of a type.
#[cycle(plain)]
fn is_plain_type(signature: &Signature, ty: &WrittenType) -> bool
    ensures { MatchBool result (TypeIsPlain signature.now (written_type_of ty.now)) (TypeIsPlain signature.now (written_type_of ty.now) → ⊥) }
{
    match ty {
        WrittenType::Arrow(domain, range) => {
            is_plain_type(signature, domain) && is_plain_type(signature, range)
        }
        WrittenType::Quantified(domain, range) => {
            is_plain_domain(signature, domain) && is_plain_type(signature, range)
        }
        WrittenType::Family(id, _) => has_no_implicit(signature, *id),
        WrittenType::Applied(family, argument) => {
            is_plain_type(signature, family) && is_plain_term(signature, argument)
        }
        WrittenType::Hole(_, _) | WrittenType::Ascribed(_, _) => false,
    }
}

/// The same of a term.
#[cycle(plain)]
fn is_plain_term(signature: &Signature, term: &Written) -> bool
    ensures { MatchBool result (TermIsPlain signature.now (written_of term.now)) (TermIsPlain signature.now (written_of term.now) → ⊥) }
{
    match term {
        Written::Function(domain, body) => {
            is_plain_domain(signature, domain) && is_plain_term(signature, body)
        }
        Written::Free(_, _)
        | Written::Bound(_)
        | Written::Declared(_, _)
        | Written::Applied(_, _)
        | Written::Hole(_, _)
        | Written::Ascribed(_, _) => is_steady(signature, term),
    }
}

/// The same of a term that stays before its arguments.
#[cycle(plain)]
fn is_steady(signature: &Signature, term: &Written) -> bool
    ensures { MatchBool result (IsSteady signature.now (written_of term.now)) (IsSteady signature.now (written_of term.now) → ⊥) }
{
    match term {
        Written::Free(_, _) | Written::Bound(_) => true,
        Written::Declared(id, _) => !is_defined(signature, *id) && has_no_implicit(signature, *id),
        Written::Applied(function, argument) => {
            is_steady(signature, function) && is_plain_term(signature, argument)
        }
        Written::Function(_, _) | Written::Hole(_, _) | Written::Ascribed(_, _) => false,
    }
}

/// Whether it is the number of a definition.
fn is_defined(signature: &Signature, id: ConstId) -> bool
    ensures { MatchBool result (IsDefined signature.now id.0) (IsDefined signature.now id.0 → ⊥) }
{
    match signature.entry(id) {
        Some(entry) => match &entry.body {
            Body::Defined { .. } => true,
            Body::Family(_) | Body::Constant(_) => false,
        },
        None => false,
    }
}

/// Whether what has this number has no implicit arguments.
fn has_no_implicit(signature: &Signature, id: ConstId) -> bool
    ensures { MatchBool result (HasNoImplicit signature.now id.0) (HasNoImplicit signature.now id.0 → ⊥) }
{
    match signature.entry(id) {
        Some(entry) => entry.implicit == 0,
        None => true,
    }
}

/// Whether no more than so many parts nest in the type of a binder. A walk through it by calls takes the machine's stack, of which this one takes no more than for these. It takes no memory.
#[cycle(nesting)]
pub fn domain_nests_within(domain: &WrittenDomain, levels: u32) -> bool
    ensures { MatchBool result (domain_nesting (written_domain_of domain.now) ≤ levels) (levels < domain_nesting (written_domain_of domain.now)) }
{
    match domain {
        WrittenDomain::OfType(ty) => type_nests_within(ty, levels),
        WrittenDomain::OfSkeleton(_, _) => true,
    }
}

/// The same of a type. What isn't written in full is gone into nowhere.
#[cycle(nesting)]
fn type_nests_within(ty: &WrittenType, levels: u32) -> bool
    ensures { MatchBool result (type_nesting (written_type_of ty.now) ≤ levels) (levels < type_nesting (written_type_of ty.now)) }
{
    let Some(left) = levels.checked_sub(1) else {
        return false;
    };
    match ty {
        WrittenType::Arrow(domain, range) => {
            type_nests_within(domain, left) && type_nests_within(range, left)
        }
        WrittenType::Quantified(domain, range) => {
            domain_nests_within(domain, left) && type_nests_within(range, left)
        }
        WrittenType::Applied(family, argument) => {
            type_nests_within(family, left) && term_nests_within(argument, left)
        }
        WrittenType::Family(_, _) | WrittenType::Hole(_, _) | WrittenType::Ascribed(_, _) => true,
    }
}

/// The same of a term.
#[cycle(nesting)]
fn term_nests_within(term: &Written, levels: u32) -> bool
    ensures { MatchBool result (term_nesting (written_of term.now) ≤ levels) (levels < term_nesting (written_of term.now)) }
{
    let Some(left) = levels.checked_sub(1) else {
        return false;
    };
    match term {
        Written::Function(domain, body) => {
            domain_nests_within(domain, left) && term_nests_within(body, left)
        }
        Written::Applied(function, argument) => {
            term_nests_within(function, left) && term_nests_within(argument, left)
        }
        Written::Free(_, _)
        | Written::Bound(_)
        | Written::Declared(_, _)
        | Written::Hole(_, _)
        | Written::Ascribed(_, _) => true,
    }
}

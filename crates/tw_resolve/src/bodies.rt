//! What a declaration or a query is written with, its names resolved.
ghost use Rattle.std.specs.Prelude.{◌≡◌, map, true, false, Some, IfOk, option_map};
ghost use Rattle.tw_approx.specs.Answer.{rows_of};
ghost use Rattle.tw_approx.specs.Readings.{found};
ghost use Rattle.tw_names.specs.Texts.{ends_in_type};
ghost use Rattle.tw_parse.specs.View.{term_of, declaration_of};
ghost use Rattle.tw_resolve.specs.Resolved.{classifier_read, definition_read, body_read, taken_whole, resolved_body, resolved_goal};
ghost use Rattle.tw_resolve.specs.Rest.{rest_of};
ghost use Rattle.tw_terms.specs.View.{skeleton_of};
ghost use Rattle.tw_written.specs.View.{written_body_of};

use crate::resolving::Resolving;
use crate::texts::{resolve_kind, resolve_term, resolve_type};
use std::alloc::{AllocError, Global};
use tw_approx::Row;
use tw_names::ends_in_type;
use tw_parse::{ExtDecl, ExtTerm};
use tw_signature::Signature;
use tw_terms::Skeleton;
use tw_written::WrittenBody;

/// What a declaration is written with, its names resolved: its free variables are those of the rows, and what isn't written takes its skeletons from the list.
/// Entries, free variables and holes have the places where they are written, and a binder without a type that of its bracket. There is none where a text has no
/// resolution, where something of the list is left over, and where nothing is declared. Fails for want of memory alone.
pub fn resolve(
    alloc: Global,
    signature: &Signature,
    decl: &ExtDecl,
    rows: &[Row],
    omitted: Vec<Skeleton>,
) -> Result<Option<WrittenBody>, AllocError>
    ensures { IfOk result (λ o. option_map written_body_of o ≡ resolved_body signature.now (rows_of rows.now) (map skeleton_of omitted.items) (declaration_of decl.now)) }
{
    let mut resolving = Resolving::new(alloc, rows, omitted)?;
    let body = body(alloc, signature, &mut resolving, decl)?;
    Ok(whole(&resolving, body))
}

/// The same of a query's goal, which is read as a constant's type.
pub fn resolve_goal(
    alloc: Global,
    signature: &Signature,
    goal: &ExtTerm,
    rows: &[Row],
    omitted: Vec<Skeleton>,
) -> Result<Option<WrittenBody>, AllocError>
    ensures { IfOk result (λ o. option_map written_body_of o ≡ resolved_goal signature.now (rows_of rows.now) (map skeleton_of omitted.items) (term_of goal.now)) }
{
    let mut resolving = Resolving::new(alloc, rows, omitted)?;
    let body = constant(alloc, signature, &mut resolving, goal)?;
    Ok(whole(&resolving, body))
}

/// What is read, if nothing of the list is left over.
fn whole(resolving: &Resolving, body: Option<WrittenBody>) -> Option<WrittenBody>
    ensures { option_map written_body_of result ≡ taken_whole (found (option_map written_body_of body) (rest_of resolving.now)) }
{
    if resolving.omitted.is_empty() {
        body
    } else {
        None
    }
}

fn body(
    alloc: Global,
    signature: &Signature,
    resolving: &mut Resolving,
    decl: &ExtDecl,
) -> Result<Option<WrittenBody>, AllocError>
    ensures { IfOk result (λ o. found (option_map written_body_of o) (rest_of resolving.new) ≡ body_read signature.now resolving.old.free resolving.old.scope (declaration_of decl.now) (rest_of resolving.old)) }
{
    match decl {
        ExtDecl::Declare(_, _, text) => classifier(alloc, signature, resolving, text),
        ExtDecl::Define(_, ty, term, abbreviated) => {
            definition(alloc, signature, resolving, ty, term, *abbreviated)
        }
        ExtDecl::NamePref(_, _, _) | ExtDecl::Fixity(_, _) => Ok(None),
    }
}

/// A family's kind or a constant's type.
fn classifier(
    alloc: Global,
    signature: &Signature,
    resolving: &mut Resolving,
    text: &ExtTerm,
) -> Result<Option<WrittenBody>, AllocError>
    ensures { IfOk result (λ o. found (option_map written_body_of o) (rest_of resolving.new) ≡ classifier_read signature.now resolving.old.free resolving.old.scope (ends_in_type (term_of text.now)) (term_of text.now) (rest_of resolving.old)) }
{
    if ends_in_type(text) {
        family(alloc, signature, resolving, text)
    } else {
        constant(alloc, signature, resolving, text)
    }
}

fn family(
    alloc: Global,
    signature: &Signature,
    resolving: &mut Resolving,
    kind: &ExtTerm,
) -> Result<Option<WrittenBody>, AllocError>
    ensures { IfOk result (λ o. found (option_map written_body_of o) (rest_of resolving.new) ≡ classifier_read signature.now resolving.old.free resolving.old.scope true (term_of kind.now) (rest_of resolving.old)) }
{
    match resolve_kind(alloc, signature, resolving, kind)? {
        Some(kind) => Ok(Some(WrittenBody::Family(kind))),
        None => Ok(None),
    }
}

fn constant(
    alloc: Global,
    signature: &Signature,
    resolving: &mut Resolving,
    ty: &ExtTerm,
) -> Result<Option<WrittenBody>, AllocError>
    ensures { IfOk result (λ o. found (option_map written_body_of o) (rest_of resolving.new) ≡ classifier_read signature.now resolving.old.free resolving.old.scope false (term_of ty.now) (rest_of resolving.old)) }
{
    match resolve_type(alloc, signature, resolving, ty)? {
        Some(ty) => Ok(Some(WrittenBody::Constant(ty))),
        None => Ok(None),
    }
}

fn definition(
    alloc: Global,
    signature: &Signature,
    resolving: &mut Resolving,
    ty: &Option<ExtTerm>,
    term: &ExtTerm,
    abbreviated: bool,
) -> Result<Option<WrittenBody>, AllocError>
    ensures { IfOk result (λ o. found (option_map written_body_of o) (rest_of resolving.new) ≡ definition_read signature.now resolving.old.free resolving.old.scope (option_map term_of ty.now) (term_of term.now) abbreviated (rest_of resolving.old)) }
{
    match ty {
        Some(ty) => typed_definition(alloc, signature, resolving, ty, term, abbreviated),
        None => match resolve_term(alloc, signature, resolving, term)? {
            Some(term) => Ok(Some(WrittenBody::Definition(term, abbreviated))),
            None => Ok(None),
        },
    }
}

// its type comes before the term
fn typed_definition(
    alloc: Global,
    signature: &Signature,
    resolving: &mut Resolving,
    ty: &ExtTerm,
    term: &ExtTerm,
    abbreviated: bool,
) -> Result<Option<WrittenBody>, AllocError>
    ensures { IfOk result (λ o. found (option_map written_body_of o) (rest_of resolving.new) ≡ definition_read signature.now resolving.old.free resolving.old.scope (Some (term_of ty.now)) (term_of term.now) abbreviated (rest_of resolving.old)) }
{
    let Some(ty) = resolve_type(alloc, signature, resolving, ty)? else {
        return Ok(None);
    };
    let Some(term) = resolve_term(alloc, signature, resolving, term)? else {
        return Ok(None);
    };
    Ok(Some(WrittenBody::DefinitionOf(term, ty, abbreviated)))
}

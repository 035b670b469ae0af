//! Cases of values put in.
ghost use Rattle.std.specs.Prelude.{map};
ghost use Rattle.tw_terms.specs.View.{skeleton_of};
ghost use Rattle.tests_substitution.specs.Kept.{IsBound};

use crate::putting::{arguments_with_values, type_is_all_in, type_with_values, with_values};
use crate::reading::{read_arguments, read_skeleton, read_skeletons, read_term, read_type};
use crate::showing::{put_found, put_found_arguments, put_found_type};
use crate::substitution::Around;
use std::alloc::Global;
use tests_forms::{Case, FormFault, Names};
use tw_metas::Store;
use tw_signature::Signature;
use tw_terms::{Open, OpenSpine, OpenTy, Skeleton};

/// Adds what the terms, types and arguments of a case are with the values put in, under the inner variables.
pub(crate) fn put_answer(
    alloc: Global,
    signature: &Signature,
    names: &mut Names,
    case: &Case,
    store: &Store,
    outer: &[Skeleton],
    line: &mut String,
) -> Result<(), FormFault>
    requires { IsBound signature.now (map skeleton_of outer.now) store.now.now }
{
    let inner = read_skeletons(alloc, names, case, "inner")?;
    let around = Around {
        signature,
        store,
        inner: &inner,
        outer,
    };
    put_parts(alloc, around, names, case, line)
}

fn put_parts(
    alloc: Global,
    around: Around<'_>,
    names: &mut Names,
    case: &Case,
    line: &mut String,
) -> Result<(), FormFault>
    requires { IsBound around.signature.now (map skeleton_of around.outer.now) around.store.now.now }
{
    for field in &case.fields {
        put_part(alloc, around, names, case, field.word.as_str(), line)?;
    }
    Ok(())
}

fn put_part(
    alloc: Global,
    around: Around<'_>,
    names: &mut Names,
    case: &Case,
    word: &str,
    line: &mut String,
) -> Result<(), FormFault>
    requires { IsBound around.signature.now (map skeleton_of around.outer.now) around.store.now.now }
{
    match word {
        "term" => put_term(alloc, around, names, case, line),
        "type" => put_type(alloc, around, names, case, line),
        "arguments" => put_arguments(alloc, around, names, case, line),
        _ => Ok(()),
    }
}

// The term `term`, of the type `of`.
fn put_term(
    alloc: Global,
    around: Around<'_>,
    names: &mut Names,
    case: &Case,
    line: &mut String,
) -> Result<(), FormFault>
    requires { IsBound around.signature.now (map skeleton_of around.outer.now) around.store.now.now }
{
    let made = read_skeleton(alloc, names, case)?;
    let term = read_term(alloc, names, case, "term")?;
    put_term_of(alloc, around, names, &term, &made, line)
}

fn put_term_of(
    alloc: Global,
    around: Around<'_>,
    names: &mut Names,
    term: &Open,
    made: &Skeleton,
    line: &mut String,
) -> Result<(), FormFault>
    requires { IsBound around.signature.now (map skeleton_of around.outer.now) around.store.now.now }
{
    let found = with_values(alloc, around, term, made);
    put_found(alloc, line, names, &found)
}

// The type `type`, and whether nothing was to be put in.
fn put_type(
    alloc: Global,
    around: Around<'_>,
    names: &mut Names,
    case: &Case,
    line: &mut String,
) -> Result<(), FormFault>
    requires { IsBound around.signature.now (map skeleton_of around.outer.now) around.store.now.now }
{
    let ty = read_type(alloc, names, case, "type")?;
    put_type_read(alloc, around, names, &ty, line)
}

fn put_type_read(
    alloc: Global,
    around: Around<'_>,
    names: &mut Names,
    ty: &OpenTy,
    line: &mut String,
) -> Result<(), FormFault>
    requires { IsBound around.signature.now (map skeleton_of around.outer.now) around.store.now.now }
{
    let found = type_with_values(alloc, around, ty);
    put_found_type(alloc, line, names, &found)?;
    let is_plain = type_is_all_in(around, ty);
    Ok(line.push_str(if is_plain { "; all in" } else { "; not all in" })?)
}

// The arguments `arguments` of a head of the type `of`.
fn put_arguments(
    alloc: Global,
    around: Around<'_>,
    names: &mut Names,
    case: &Case,
    line: &mut String,
) -> Result<(), FormFault>
    requires { IsBound around.signature.now (map skeleton_of around.outer.now) around.store.now.now }
{
    let taken = read_skeleton(alloc, names, case)?;
    let spine = read_arguments(alloc, names, case)?;
    put_arguments_of(alloc, around, names, &spine, &taken, line)
}

fn put_arguments_of(
    alloc: Global,
    around: Around<'_>,
    names: &mut Names,
    spine: &OpenSpine,
    taken: &Skeleton,
    line: &mut String,
) -> Result<(), FormFault>
    requires { IsBound around.signature.now (map skeleton_of around.outer.now) around.store.now.now }
{
    let found = arguments_with_values(alloc, around, spine, taken);
    put_found_arguments(alloc, line, names, &found)
}

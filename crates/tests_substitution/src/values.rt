//! Cases over a store of metavariables and their values.
ghost use Rattle.std.specs.Prelude.{map};
ghost use Rattle.tw_terms.specs.View.{skeleton_of};
ghost use Rattle.tests_substitution.specs.Kept.{IsBound};

use crate::binding::{bind_all, declare_all};
use crate::reading::read_skeletons;
use crate::showing::put_not_asked;
use crate::substitution::Around;
use crate::{filling, substituting};
use std::alloc::Global;
use tests_forms::{Case, FormFault, Names, read_metas};
use tw_metas::Store;
use tw_signature::Signature;
use tw_terms::{OpenTy, Skeleton};

/// The words of these cases.
const WORDS: [&str; 11] = [
    "meta",
    "bind",
    "chain",
    "outer",
    "variable",
    "inner",
    "arg",
    "term",
    "type",
    "arguments",
    "of",
];

/// Adds what comes out of a case whose terms stand in the context of `outer` and then `inner` variables, over a store of metavariables and their values.
pub(crate) fn put_answer(
    alloc: Global,
    signature: &Signature,
    names: &mut Names,
    case: &Case,
    line: &mut String,
) -> Result<(), FormFault> {
    case.has_only(&WORDS)?;
    let types = read_metas(alloc, names, case)?;
    put_over_types(alloc, signature, names, case, &types, line)
}

fn put_over_types(
    alloc: Global,
    signature: &Signature,
    names: &mut Names,
    case: &Case,
    types: &[OpenTy],
    line: &mut String,
) -> Result<(), FormFault> {
    let outer = read_skeletons(alloc, names, case, "outer")?;
    let mut store = Store::new(alloc);
    put_over_outer(
        alloc, signature, names, case, types, &outer, &mut store, line,
    )
}

fn put_over_outer(
    alloc: Global,
    signature: &Signature,
    names: &mut Names,
    case: &Case,
    types: &[OpenTy],
    outer: &[Skeleton],
    store: &mut Store,
    line: &mut String,
) -> Result<(), FormFault>
    requires { IsBound signature.now (map skeleton_of outer.now) store.old.now }
{
    declare_all(alloc, names, case, types, store)?;
    if bind_all(alloc, signature, names, case, outer, store)? {
        put_over_store(alloc, signature, names, case, store, outer, line)
    } else {
        put_not_asked(line)
    }
}

fn put_over_store(
    alloc: Global,
    signature: &Signature,
    names: &mut Names,
    case: &Case,
    store: &Store,
    outer: &[Skeleton],
    line: &mut String,
) -> Result<(), FormFault>
    requires { IsBound signature.now (map skeleton_of outer.now) store.now.now }
{
    match case.kind.as_str() {
        "put" => filling::put_answer(alloc, signature, names, case, store, outer, line),
        _ => {
            let around = Around {
                signature,
                store,
                inner: &[],
                outer,
            };
            substituting::put_answer(alloc, around, names, case, line)
        }
    }
}

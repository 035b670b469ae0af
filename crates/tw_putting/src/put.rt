//! The values of metavariables put into terms and types.
ghost use Rattle.std.specs.Prelude.{◌≤◌, IfOk, IsErrOf};
ghost use Rattle.lf.specs.Depth.{depth, spine_depth, type_depth, depth_limit};
ghost use Rattle.tw_terms.specs.OpenView.{open_term_of, open_spine_of, open_type_of};
ghost use Rattle.tw_putting.specs.Fits.{PutFits, PutSpineFits, PutTypeFits};
ghost use Rattle.tw_putting.specs.Stores.{Puts, PutsSpine, PutsType, PutsDeep, PutsDeepSpine, PutsDeepType};

use crate::environment::Environment;
use crate::normal::{normal_spine, normal_term, normal_type};
use bumpalo::Bump;
use std::alloc::Global;
use tw_hered::HeredFault;
use tw_metas::Store;
use tw_terms::{Open, OpenSpine, OpenTy};

/// The greatest depth of a result.
const DEPTH_LIMIT: u64 = 4_096;

/// The term with the values of all bound metavariables put in. The values stand outside the `binders` newest variables of the term.
///
/// Answers `TooDeep` only where the result is deeper than 4,096, and `NoMemory` where memory is wanting.
pub fn put_in(alloc: Global, store: &Store, binders: u64, term: &Open) -> Result<Open, HeredFault>
    requires { PutFits store.now.now binders (open_term_of term.now) }
    ensures ok { IfOk result (λ m. Puts store.now.now binders (open_term_of term.now) (open_term_of m)) }
    ensures shallow { IfOk result (λ m. depth (open_term_of m) ≤ depth_limit) }
    ensures too_deep { IsErrOf result HeredFault.TooDeep → PutsDeep store.now.now binders (open_term_of term.now) }
{
    let arena = Bump::new(alloc);
    let outside = Environment::Outside;
    normal_term(alloc, &arena, store, binders, term, &outside, DEPTH_LIMIT)
}

/// The same in each argument.
pub fn put_in_spine(
    alloc: Global,
    store: &Store,
    binders: u64,
    spine: &OpenSpine,
) -> Result<OpenSpine, HeredFault>
    requires { PutSpineFits store.now.now binders (open_spine_of spine.now) }
    ensures ok { IfOk result (λ s. PutsSpine store.now.now binders (open_spine_of spine.now) (open_spine_of s)) }
    ensures shallow { IfOk result (λ s. spine_depth (open_spine_of s) ≤ depth_limit) }
    ensures too_deep { IsErrOf result HeredFault.TooDeep → PutsDeepSpine store.now.now binders (open_spine_of spine.now) }
{
    let arena = Bump::new(alloc);
    let outside = Environment::Outside;
    normal_spine(alloc, &arena, store, binders, spine, &outside, DEPTH_LIMIT)
}

/// The same in a type.
pub fn put_in_type(
    alloc: Global,
    store: &Store,
    binders: u64,
    ty: &OpenTy,
) -> Result<OpenTy, HeredFault>
    requires { PutTypeFits store.now.now binders (open_type_of ty.now) }
    ensures ok { IfOk result (λ a. PutsType store.now.now binders (open_type_of ty.now) (open_type_of a)) }
    ensures shallow { IfOk result (λ a. type_depth (open_type_of a) ≤ depth_limit) }
    ensures too_deep { IsErrOf result HeredFault.TooDeep → PutsDeepType store.now.now binders (open_type_of ty.now) }
{
    let arena = Bump::new(alloc);
    let outside = Environment::Outside;
    normal_type(alloc, &arena, store, binders, ty, &outside, DEPTH_LIMIT)
}

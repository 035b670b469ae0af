//! An equation that is left, as it can be shown.
ghost use Rattle.std.specs.Prelude.{◌≡◌, ◌<◌, ◌++◌, [], ◌∷◌, IfOk, OnOk, IfSome, MatchResult, length, map, slice_get};
ghost use Rattle.lf.specs.Entries.{signature_of};
ghost use Rattle.tw_terms.specs.OpenView.{open_type_of};
ghost use Rattle.tw_metas.specs.View.{equation_of};
ghost use Rattle.tw_putting.specs.Whole.{AreDistinct};
ghost use Rattle.tw_putting.specs.Fits.{TypesCanTake};
ghost use Rattle.tw_putting.specs.Ready.{IsReady};
ghost use Rattle.tw_unify.specs.Showing.{BlamesEquation, BlamesLocals, BlamesShown, BlamesTypeOf, BlamesTypes, CanShow, Grows, LocalsCanTake, NeedsEquation, NeedsLocals, NeedsTypeOf, NeedsTypes, Shows, ShowsEquation, ShowsLocals, ShowsMetavariables, ShowsTypeOf, name_of, unbound_of};
ghost use Rattle.tw_metas.specs.Named.{named_of, shown_type_of};

use crate::fault::UnifyFault;
use crate::numbering::{number_term, number_type};
use crate::sides::put_sides;
use std::alloc::{AllocError, Global};
use tw_fixity::Name;
use tw_metas::{Equation, LeftEquation, Store};
use tw_putting::put_in_type;
use tw_signature::Signature;
use tw_terms::{MetaId, OpenContext, OpenTy};

/// The postponed equation at this place, with the bindings put in. First come those of the named metavariables that are not bound, in their order, and then
/// the others that occur. `TooDeep` only where putting the bindings in gives something deeper than 4,096.
pub fn left_equation(
    alloc: Global,
    store: &Store,
    signature: &Signature,
    at: usize,
    names: &[(MetaId, Name)],
) -> Result<LeftEquation, UnifyFault>
    requires ready { IsReady (signature_of signature.now) [] store.now.now }
    requires at { at < length store.now.now.equations }
    requires names { AreDistinct (map (λ n. n.0) (map named_of names.now)) }
    ensures { MatchResult result (λ l. IfSome (slice_get store.now.now.equations at) (λ e. Shows store.now.now e (map named_of names.now) (map shown_type_of l.metas.items) l.names.items (equation_of l.equation))) (λ f. IfSome (slice_get store.now.now.equations at) (λ e. BlamesShown f store.now.now e (map named_of names.now))) }
{
    signature.is_canonical();
    show(alloc, store, &store.equations()[at], names)
}

/// The same of an equation.
fn show(
    alloc: Global,
    store: &Store,
    equation: &Equation,
    names: &[(MetaId, Name)],
) -> Result<LeftEquation, UnifyFault>
    requires can { CanShow store.now.now (equation_of equation.now) }
    requires names { AreDistinct (map (λ n. n.0) (map named_of names.now)) }
    ensures { MatchResult result (λ l. Shows store.now.now (equation_of equation.now) (map named_of names.now) (map shown_type_of l.metas.items) l.names.items (equation_of l.equation)) (λ f. BlamesShown f store.now.now (equation_of equation.now) (map named_of names.now)) }
{
    let mut order = unbound(alloc, store, names)?;
    let equation = show_equation(alloc, store, &mut order, equation)?;
    let metas = show_types(alloc, store, &mut order)?;
    let names = names_in_order(alloc, &order, names)?;
    Ok(LeftEquation {
        metas,
        names,
        equation,
    })
}

/// Those of the named metavariables that are not bound.
fn unbound(alloc: Global, store: &Store, names: &[(MetaId, Name)]) -> Result<Vec<u64>, AllocError>
    ensures { IfOk result (λ v. v.items ≡ unbound_of store.now.now (map named_of names.now)) }
{
    let mut order = Vec::new(alloc);
    for (meta, _) in names {
        if store.value(*meta).is_none() {
            order.push(meta.0)?;
        }
    }
    Ok(order)
}

/// The equation with the bindings put in, and its metavariables numbered.
fn show_equation(
    alloc: Global,
    store: &Store,
    order: &mut Vec<u64>,
    equation: &Equation,
) -> Result<Equation, UnifyFault>
    requires { CanShow store.now.now (equation_of equation.now) }
    ensures shown { MatchResult result (λ e. ShowsEquation store.now.now order.new.items (equation_of equation.now) (equation_of e)) (λ f. BlamesEquation f store.now.now (equation_of equation.now)) }
    ensures grown { OnOk result (Grows (NeedsEquation store.now.now (equation_of equation.now)) order.old.items order.new.items) }
{
    let context = show_context(alloc, store, order, &equation.context)?;
    let (put_left, put_right) = put_sides(alloc, store, equation)?;
    let binders = equation.context.len() as u64;
    let put_ty = put_in_type(alloc, store, binders, &equation.ty)?;
    let left = number_term(alloc, order, &put_left)?;
    let right = number_term(alloc, order, &put_right)?;
    let ty = number_type(alloc, order, &put_ty)?;
    Ok(Equation {
        context,
        left,
        right,
        ty,
    })
}

/// The local context with the bindings put in, and its metavariables numbered.
fn show_context(
    alloc: Global,
    store: &Store,
    order: &mut Vec<u64>,
    context: &OpenContext,
) -> Result<OpenContext, UnifyFault>
    requires { LocalsCanTake store.now.now context.now }
    ensures shown { MatchResult result (λ d. ShowsLocals store.now.now order.new.items context.now d) (λ f. BlamesLocals f store.now.now context.now) }
    ensures grown { OnOk result (Grows (NeedsLocals store.now.now context.now) order.old.items order.new.items) }
{
    let mut shown = OpenContext::new(alloc);
    let count = context.len() as u64;
    for place in 0..count {
        let ty = context.get(count - 1 - place).unwrap();
        let put = put_in_type(alloc, store, place, ty)?;
        let numbered = number_type(alloc, order, &put)?;
        shown.push(numbered)?;
    }
    Ok(shown)
}

/// The types of the metavariables in the order, which grows by those that they mention.
fn show_types(
    alloc: Global,
    store: &Store,
    order: &mut Vec<u64>,
) -> Result<Vec<(OpenContext, OpenTy)>, UnifyFault>
    requires { TypesCanTake store.now.now }
    ensures shown { MatchResult result (λ v. ShowsMetavariables store.now.now order.new.items order.new.items (map shown_type_of v.items)) (λ f. BlamesTypes f store.now.now order.old.items) }
    ensures grown { OnOk result (Grows (NeedsTypes store.now.now) order.old.items order.new.items) }
{
    let mut metas = Vec::new(alloc);
    for _ in 0..u64::MAX {
        if metas.len() >= order.len() {
            return Ok(metas);
        }
        let shown = show_type(alloc, store, order, MetaId(order[metas.len()]))?;
        add_type(alloc, &mut metas, shown)?;
    }
    // Each turn shows another metavariable, so there are fewer turns; no clause says how many there are.
    Err(UnifyFault::NoMemory)
}

/// The type comes behind the others, in the empty context.
fn add_type(
    alloc: Global,
    metas: &mut Vec<(OpenContext, OpenTy)>,
    ty: OpenTy,
) -> Result<(), AllocError>
    ensures { OnOk result (map shown_type_of metas.new.items ≡ map shown_type_of metas.old.items ++ (([], open_type_of ty) ∷ [])) }
{
    metas.push((OpenContext::new(alloc), ty))?;
    Ok(())
}

/// The type of a metavariable with the bindings put in, and its metavariables numbered.
fn show_type(
    alloc: Global,
    store: &Store,
    order: &mut Vec<u64>,
    meta: MetaId,
) -> Result<OpenTy, UnifyFault>
    requires { TypesCanTake store.now.now }
    ensures shown { MatchResult result (λ b. ShowsTypeOf store.now.now order.new.items meta.0 (open_type_of b)) (λ f. BlamesTypeOf f store.now.now meta.0) }
    ensures grown { OnOk result (Grows (NeedsTypeOf store.now.now meta.0) order.old.items order.new.items) }
{
    match store.about(meta) {
        Some((_, ty)) => {
            let put = put_in_type(alloc, store, 0, ty)?;
            Ok(number_type(alloc, order, &put)?)
        }
        // What an equation of the store mentions is declared; the clauses of this call do not know where the number is from.
        None => Err(UnifyFault::NoMemory),
    }
}

/// The names of the metavariables in the order, where they have one.
fn names_in_order(
    alloc: Global,
    order: &[u64],
    names: &[(MetaId, Name)],
) -> Result<Vec<Option<Name>>, AllocError>
    ensures { IfOk result (λ v. v.items ≡ map (name_of (map named_of names.now)) order.now) }
{
    let mut found = Vec::with_capacity(alloc, order.len())?;
    for meta in order {
        found.push(name_for(alloc, *meta, names)?)?;
    }
    Ok(found)
}

/// The first name that is given to the metavariable.
fn name_for(alloc: Global, meta: u64, names: &[(MetaId, Name)]) -> Result<Option<Name>, AllocError>
    ensures { IfOk result (λ o. o ≡ name_of (map named_of names.now) meta) }
{
    for (named, name) in names {
        if named.0 == meta {
            return Ok(Some(name.copy(alloc)?));
        }
    }
    Ok(None)
}

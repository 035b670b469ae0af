//! The names that free variables give to metavariables.
ghost use Rattle.std.specs.Prelude.{◌≡◌, ◌≤◌, ◌-◌, ◌++◌, ℕ, Option, None, Some, is_some, IfOk, IsErrOf, OnOk, length, map, option_map, replicate, slice_get};
ghost use Rattle.lf.specs.Syntax.{Term};
ghost use Rattle.tw_approx.specs.Answer.{rows_of};
ghost use Rattle.tw_elaborate.specs.View.{numbers_of};
ghost use Rattle.tw_metas.specs.State.{joined, value_of};
ghost use Rattle.tw_putting.specs.Stores.{PutsDeep};
ghost use Rattle.tw_abstract.specs.Reading.{IsSettled};
ghost use Rattle.tw_metas.specs.Named.{named_of};
ghost use Rattle.tw_recon.specs.Names.{AreNames, FreeIsDeep, IsSole, named_from, names_of, variables_of, with_name, with_sole};
ghost use Rattle.tw_recon.specs.NamingView.{naming_of};

use std::alloc::{AllocError, Global};
use tw_abstract::{Positions, sole_metavariable};
use tw_approx::Row;
use tw_fixity::Name;
use tw_hered::HeredFault;
use tw_metas::Store;
use tw_putting::put_in;
use tw_terms::MetaId;

/// The names of metavariables, by number, where those behind the last one have none; and the metavariables that have one, as they got them.
#[derive(Drop)]
pub struct Naming {
    pub names: Vec<Option<Name>>,
    pub firsts: Vec<MetaId>,
}

/// The names of metavariables: each has that of the first free variable, in this order, that stands for it alone, up to eta.
///
/// Answers `TooDeep` only where the value of a free variable is deeper than 4,096, with all values put in.
pub fn names(
    alloc: Global,
    store: &Store,
    rows: &[Row],
    frees: &[MetaId],
    order: &[usize],
) -> Result<Naming, HeredFault>
    requires { IsSettled store.now.now }
    ensures named { IfOk result (λ n. AreNames store.now.now (numbers_of frees.now) (rows_of rows.now) order.now (naming_of n)) }
    ensures too_deep { IsErrOf result HeredFault.TooDeep → FreeIsDeep store.now.now (numbers_of frees.now) }
{
    let mut naming = Naming {
        names: Vec::new(alloc),
        firsts: Vec::new(alloc),
    };
    for place in order {
        if let Some(meta) = frees.get(*place) {
            if let Some(row) = rows.get(*place) {
                match name_one(alloc, store, &mut naming, *meta, &row.name) {
                    Ok(()) => {}
                    Err(fault) => return Err(fault),
                }
            }
        }
    }
    Ok(naming)
}

/// Gives the name to the metavariable that another one stands for alone.
fn name_one(
    alloc: Global,
    store: &Store,
    naming: &mut Naming,
    meta: MetaId,
    name: &Name,
) -> Result<(), HeredFault>
    requires { IsSettled store.now.now }
    ensures named { OnOk result ((n : Option ℕ) × IsSole store.now.now meta.0 n × (naming_of naming.new ≡ with_sole n name.now (naming_of naming.old))) }
    ensures too_deep { IsErrOf result HeredFault.TooDeep → (N : Term) × (value_of store.now.now meta.0 ≡ Some N) × PutsDeep store.now.now 0 N }
{
    if let Some(sole) = sole_of(alloc, store, meta)? {
        add_name(alloc, naming, sole, name)?;
    }
    Ok(())
}

/// The metavariable that another one stands for alone, with all values put in.
fn sole_of(alloc: Global, store: &Store, meta: MetaId) -> Result<Option<MetaId>, HeredFault>
    requires { IsSettled store.now.now }
    ensures sole { IfOk result (λ o. IsSole store.now.now meta.0 (option_map (λ m. m.0) o)) }
    ensures too_deep { IsErrOf result HeredFault.TooDeep → (N : Term) × (value_of store.now.now meta.0 ≡ Some N) × PutsDeep store.now.now 0 N }
{
    match store.value(meta) {
        None => Ok(Some(meta)),
        Some(value) => {
            let value = put_in(alloc, store, 0, value)?;
            Ok(sole_metavariable(&value)?)
        }
    }
}

/// Gives a name to a metavariable, unless it has one.
fn add_name(alloc: Global, naming: &mut Naming, meta: MetaId, name: &Name) -> Result<(), AllocError>
    ensures { OnOk result (naming_of naming.new ≡ with_sole (Some meta.0) name.now (naming_of naming.old)) }
{
    if has_name(&naming.names, meta) {
        return Ok(());
    }
    put_name(&mut naming.names, meta, name.copy(alloc)?)?;
    naming.firsts.push(meta)?;
    Ok(())
}

/// Whether the metavariable has a name.
fn has_name(names: &[Option<Name>], meta: MetaId) -> bool
    ensures { result ≡ is_some (joined (slice_get names.now meta.0)) }
{
    match names.get(meta.0 as usize) {
        Some(name) => name.is_some(),
        None => false,
    }
}

/// Puts a name at the place of its metavariable, which has none.
fn put_name(names: &mut Vec<Option<Name>>, meta: MetaId, name: Name) -> Result<(), AllocError>
    requires { joined (slice_get names.old.items meta.0) ≡ None }
    ensures { OnOk result (names.new.items ≡ with_name meta.0 name names.old.items) }
{
    let at = meta.0 as usize;
    if at < names.len() {
        names[at] = Some(name);
    } else {
        reach(names, at)?;
        names.push(Some(name))?;
    }
    Ok(())
}

/// Adds places without names, so that there are so many.
fn reach(names: &mut Vec<Option<Name>>, count: usize) -> Result<(), AllocError>
    requires { length names.old.items ≤ count }
    ensures { OnOk result (names.new.items ≡ names.old.items ++ replicate (count - length names.old.items) None) }
{
    while names.len() < count {
        names.push(None)?;
    }
    Ok(())
}

/// The names of these metavariables.
pub fn hints(
    alloc: Global,
    names: &[Option<Name>],
    metas: &[MetaId],
) -> Result<Vec<Option<Name>>, AllocError>
    ensures { IfOk result (λ h. h.items ≡ names_of names.now (numbers_of metas.now)) }
{
    let mut hints = Vec::with_capacity(alloc, metas.len())?;
    for meta in metas {
        hints.push(name_of(alloc, names, *meta)?)?;
    }
    Ok(hints)
}

/// The name of a metavariable, if it has one.
fn name_of(alloc: Global, names: &[Option<Name>], meta: MetaId) -> Result<Option<Name>, AllocError>
    ensures { IfOk result (λ n. n ≡ joined (slice_get names.now meta.0)) }
{
    match names.get(meta.0 as usize) {
        Some(Some(name)) => Ok(Some(name.copy(alloc)?)),
        Some(None) | None => Ok(None),
    }
}

/// The variables of these metavariables among the quantifiers, counted from the innermost.
pub fn shown(
    alloc: Global,
    quantifiers: &Positions,
    metas: &[MetaId],
) -> Result<Vec<u64>, AllocError>
    ensures { IfOk result (λ v. v.items ≡ variables_of quantifiers.now (numbers_of metas.now)) }
{
    let mut shown = Vec::new(alloc);
    for meta in metas {
        if let Some(variable) = quantifiers.variable(*meta) {
            shown.push(variable)?;
        }
    }
    Ok(shown)
}

/// The metavariables that have names, with these.
pub fn named(alloc: Global, names: &[Option<Name>]) -> Result<Vec<(MetaId, Name)>, AllocError>
    ensures { IfOk result (λ v. map named_of v.items ≡ named_from 0 names.now) }
{
    let mut named = Vec::new(alloc);
    for (number, name) in names.iter().enumerate() {
        if let Some(name) = name {
            named.push((MetaId(number as u64), name.copy(alloc)?))?;
        }
    }
    Ok(named)
}

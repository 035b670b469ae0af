//! The names that the variables of a goal give to metavariables.
ghost use Rattle.std.specs.Prelude.{◌≡◌, [], ℕ, Option, Some, IfOk, IsErrOf, OnOk, is_some, length, map, option_map, slice_get};
ghost use Rattle.lf.specs.Syntax.{Term};
ghost use Rattle.tw_abstract.specs.Reading.{IsSettled};
ghost use Rattle.tw_metas.specs.Named.{named_of};
ghost use Rattle.tw_metas.specs.State.{joined, value_of};
ghost use Rattle.tw_putting.specs.Stores.{PutsDeep};
ghost use Rattle.tw_putting.specs.Whole.{AreDistinct};
ghost use Rattle.tw_signature.specs.Goal.{goal_of};
ghost use Rattle.tw_unify.specs.Showing.{name_of};
ghost use Rattle.tw_search.specs.Names.{AreNames, IsSole, NamesVariable, ThisIsDeep, VariableIsDeep, place_of, with_name};

use std::alloc::{AllocError, Global};
use tw_abstract::sole_metavariable;
use tw_fixity::{Name, copy_option};
use tw_hered::HeredFault;
use tw_metas::Store;
use tw_putting::put_in;
use tw_signature::Goal;
use tw_terms::{Context, MetaId};

/// The metavariables that have names, with these: each has that of the first variable, in the order of the text, that stands for it alone.
///
/// Answers `TooDeep` only where the value of a variable is deeper than 4,096, with all values put in.
pub(crate) fn names(
    alloc: Global,
    store: &Store,
    goal: &Goal,
) -> Result<Vec<(MetaId, Name)>, HeredFault>
    requires { IsSettled store.now.now }
    ensures named { IfOk result (λ v. AreNames store.now.now (goal_of goal.now) (map named_of v.items)) }
    ensures distinct { IfOk result (λ v. AreDistinct (map (λ n. n.0) (map named_of v.items))) }
    ensures too_deep { IsErrOf result HeredFault.TooDeep → VariableIsDeep store.now.now (goal_of goal.now) }
{
    let mut names = Vec::new(alloc);
    for variable in &goal.shown {
        name_variable(alloc, store, goal, *variable, &mut names)?;
    }
    Ok(names)
}

/// A variable gives its name, if it has one.
fn name_variable(
    alloc: Global,
    store: &Store,
    goal: &Goal,
    variable: u64,
    names: &mut Vec<(MetaId, Name)>,
) -> Result<(), HeredFault>
    requires { IsSettled store.now.now }
    ensures named { OnOk result (NamesVariable store.now.now (goal_of goal.now) variable (map named_of names.old.items) (map named_of names.new.items)) }
    ensures distinct { OnOk result (AreDistinct (map (λ n. n.0) (map named_of names.old.items)) → AreDistinct (map (λ n. n.0) (map named_of names.new.items))) }
    ensures too_deep { IsErrOf result HeredFault.TooDeep → ThisIsDeep store.now.now (goal_of goal.now) variable }
{
    let Some(place) = place_of(&goal.variables, variable) else {
        return Ok(());
    };
    let Some(name) = name_in(alloc, &goal.names, variable)? else {
        return Ok(());
    };
    if let Some(sole) = sole_of(alloc, store, MetaId(place))? {
        add_name(names, sole, name)?;
    }
    Ok(())
}

/// The name of a variable, if it has one.
fn name_in(alloc: Global, names: &[Option<Name>], variable: u64) -> Result<Option<Name>, AllocError>
    ensures { IfOk result (λ n. n ≡ joined (slice_get names.now variable)) }
{
    match names.get(variable as usize) {
        Some(name) => copy_option(alloc, name),
        None => Ok(None),
    }
}

/// The place of a variable of a goal among the values of an answer, which has that of the outermost variable first: its metavariable has this number.
pub fn place_of(variables: &Context, variable: u64) -> Option<u64>
    ensures { result ≡ place_of variables.now variable }
{
    let count = variables.len() as u64;
    if variable < count {
        Some(count - 1 - variable)
    } else {
        None
    }
}

/// The metavariable for which another one stands alone, with all values put in.
fn sole_of(alloc: Global, store: &Store, meta: MetaId) -> Result<Option<MetaId>, HeredFault>
    requires { IsSettled store.now.now }
    ensures sole { IfOk result (λ o. IsSole store.now.now meta.0 (option_map (λ m. m.0) o)) }
    ensures too_deep { IsErrOf result HeredFault.TooDeep → (N : Term) × (value_of store.now.now meta.0 ≡ Some N) × PutsDeep store.now.now 0 N }
{
    match store.value(meta) {
        None => Ok(Some(meta)),
        Some(value) => {
            let value = put_in(alloc, store, 0, value)?;
            Ok(sole_metavariable(&value)?)
        }
    }
}

/// Gives a name to a metavariable, unless it has one.
fn add_name(names: &mut Vec<(MetaId, Name)>, meta: MetaId, name: Name) -> Result<(), AllocError>
    ensures { OnOk result (map named_of names.new.items ≡ with_name (Some meta.0) name (map named_of names.old.items)) }
{
    if !has_name(names, meta) {
        names.push((meta, name))?;
    }
    Ok(())
}

/// Whether the metavariable has a name.
fn has_name(names: &[(MetaId, Name)], meta: MetaId) -> bool
    ensures { result ≡ is_some (name_of (map named_of names.now) meta.0) }
{
    for (named, _) in names {
        if named.0 == meta.0 {
            return true;
        }
    }
    false
}

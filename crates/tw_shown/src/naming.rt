//! Names for the variables of a context, in the order in which they are shown.
ghost use Rattle.std.specs.Prelude.{◌≡◌, IfOk, OnOk, slice_get};
ghost use Rattle.tw_print.specs.ShowEnv.{scene_of};
ghost use Rattle.tw_shown.specs.Naming.{MarksShown, lacks_name, name_one, named};
ghost use Rattle.tw_shown.specs.Shown.{outside};

use std::alloc::{AllocError, Global};
use tw_fixity::{Name, Scope};
use tw_print::ShowEnv;
use tw_terms::{Context, Ty, target};

/// The variables as seen from outside the innermost `count`, which aren't among them.
pub fn outside(alloc: Global, shown: &[u64], count: u64) -> Result<Vec<u64>, AllocError>
    ensures { IfOk result (λ v. v.items ≡ outside count shown.now) }
{
    let mut outer = Vec::new(alloc);
    for variable in shown {
        if *variable < count {
            continue;
        }
        outer.push(*variable - count)?;
    }
    Ok(outer)
}

/// For each of the innermost `count` variables, whether it is shown.
pub fn shown_marks(alloc: Global, shown: &[u64], count: usize) -> Result<Vec<bool>, AllocError>
    ensures { IfOk result (λ marks. MarksShown count shown.now marks.items) }
{
    let mut marks = vec![in alloc; false; count]?;
    for variable in shown {
        if *variable < count as u64 {
            marks[*variable as usize] = true;
        }
    }
    Ok(marks)
}

/// Names variables as they are shown: one that has no name takes the first one from the uppercase base of its type that isn't taken.
/// `names` has those of the context's variables, the innermost first. Fails only for want of memory; a variable that isn't in the context counts as such.
pub fn name_shown(
    alloc: Global,
    env: &ShowEnv,
    context: &Context,
    shown: &[u64],
    names: &mut [Option<Name>],
    mut taken: Scope,
) -> Result<(), AllocError>
    ensures { OnOk result (names.new ≡ named (scene_of env.now) context.now (record { names = names.old; taken = taken }) shown.now) }
{
    for variable in shown {
        name_variable(alloc, env, context, *variable, names, &mut taken)?;
    }
    Ok(())
}

/// Names a variable that is shown, if it has no name.
fn name_variable(
    alloc: Global,
    env: &ShowEnv,
    context: &Context,
    variable: u64,
    names: &mut [Option<Name>],
    taken: &mut Scope,
) -> Result<(), AllocError>
    ensures { OnOk result (record { names = names.new; taken = taken.new } ≡ name_one (scene_of env.now) context.now (record { names = names.old; taken = taken.old }) variable) }
{
    if !lacks_name(names, variable) {
        return Ok(());
    }
    let Some(ty) = context.get(variable) else {
        // What is shown has variables of its context only; no clause of this call asks for it.
        return Err(AllocError);
    };
    let name = env.fresh_name(alloc, taken, env.upper_base(target(ty)))?;
    taken.push(Some(name.copy(alloc)?))?;
    names[variable as usize] = Some(name);
    Ok(())
}

/// Whether there is a variable of this number without a name.
fn lacks_name(names: &[Option<Name>], variable: u64) -> bool
    ensures { result ≡ lacks_name (slice_get names.now variable) }
{
    match names.get(variable as usize) {
        Some(None) => true,
        _ => false,
    }
}

//! The check of worlds, of single subgoals and of groups.
ghost use Rattle.std.specs.Prelude.{IfOk};
ghost use Rattle.lf.specs.Entries.{signature_of};
ghost use Rattle.lf.specs.Subordination.{AreTypedBlocks};
ghost use Rattle.lf.specs.Typing.{IsContext, IsType};
ghost use Rattle.tw_clause.specs.View.{worlds_of};
ghost use Rattle.tw_terms.specs.View.{type_of};

use crate::blocks::{is_context, is_type, typed_worlds};
use crate::reading::{read_context, read_type};
use crate::setting::{Setting, read_setting};
use crate::showing::put_fault;
use std::alloc::Global;
use tests_forms::{Case, FormFault, Names};
use tw_clause::Worlds;
use tw_hered::HeredFault;
use tw_signature::Signature;
use tw_terms::{Context, Ty};
use tw_world::{WorldFault, check_worlds, subgoal_is_worlded};

/// Adds what comes out of a case of worlds.
pub(crate) fn put_answer(
    alloc: Global,
    signature: &Signature,
    names: &mut Names,
    case: &Case,
    line: &mut String,
) -> Result<(), FormFault> {
    let worlds = typed_worlds(alloc, signature, names, case)?;
    put_answer_in(alloc, signature, names, case, &worlds, line)
}

fn put_answer_in(
    alloc: Global,
    signature: &Signature,
    names: &mut Names,
    case: &Case,
    worlds: &Worlds,
    line: &mut String,
) -> Result<(), FormFault>
    requires { AreTypedBlocks (signature_of signature.now) (worlds_of worlds.now) }
{
    let setting = read_setting(alloc, signature, names, case, worlds)?;
    match case.kind.as_str() {
        "subgoal" => subgoal(alloc, signature, names, case, worlds, &setting, line),
        "group" => group(alloc, signature, names, worlds, &setting, line),
        _ => Err(FormFault::NoMeaning),
    }
}

// What the check of worlds says of a group.
fn group(
    alloc: Global,
    signature: &Signature,
    names: &Names,
    worlds: &Worlds,
    setting: &Setting,
    line: &mut String,
) -> Result<(), FormFault>
    requires { AreTypedBlocks (signature_of signature.now) (worlds_of worlds.now) }
{
    let verdict = check_worlds(
        alloc,
        signature,
        &setting.subord,
        &setting.rows,
        &setting.group,
        worlds,
    );
    put_verdict(line, names, &verdict)
}

// Adds `ok`, `too deep`, or the clause with the number of its subgoal.
fn put_verdict(
    line: &mut String,
    names: &Names,
    verdict: &Result<(), WorldFault>,
) -> Result<(), FormFault> {
    match verdict {
        Ok(()) => Ok(line.push_str("ok")?),
        Err(WorldFault::TooDeep) => Ok(line.push_str("too deep")?),
        Err(WorldFault::NoMemory) => Err(FormFault::NoMemory),
        Err(WorldFault::Fault { clause, subgoal }) => {
            Ok(put_fault(line, names, clause, *subgoal)?)
        }
    }
}

// Whether a subgoal passes.
fn subgoal(
    alloc: Global,
    signature: &Signature,
    names: &mut Names,
    case: &Case,
    worlds: &Worlds,
    setting: &Setting,
    line: &mut String,
) -> Result<(), FormFault>
    requires { AreTypedBlocks (signature_of signature.now) (worlds_of worlds.now) }
{
    names.forget_all_but_constants(alloc);
    let scope = read_scope(alloc, signature, names, case)?;
    let goal = read_goal(alloc, signature, names, case, &scope)?;
    let passes = subgoal_is_worlded(
        alloc,
        signature,
        &setting.subord,
        &setting.rows,
        &setting.group,
        worlds,
        &scope,
        &goal,
    );
    put_passes(line, passes)
}

fn put_passes(line: &mut String, passes: Result<bool, HeredFault>) -> Result<(), FormFault> {
    match passes {
        Ok(true) => Ok(line.push_str("yes")?),
        Ok(false) => Ok(line.push_str("no")?),
        Err(HeredFault::TooDeep) => Ok(line.push_str("too deep")?),
        Err(HeredFault::NoMemory) => Err(FormFault::NoMemory),
    }
}

// The context `scope`, where it is one. Its variables stay in scope.
fn read_scope(
    alloc: Global,
    signature: &Signature,
    names: &mut Names,
    case: &Case,
) -> Result<Context, FormFault>
    ensures { IfOk result (λ g. IsContext (signature_of signature.now) g) }
{
    let scope = read_context(alloc, names, case, "scope")?;
    if is_context(alloc, signature, &scope)? {
        Ok(scope)
    } else {
        Err(FormFault::NoMeaning)
    }
}

// The type `goal`, where it is one in the scope.
fn read_goal(
    alloc: Global,
    signature: &Signature,
    names: &mut Names,
    case: &Case,
    scope: &Context,
) -> Result<Ty, FormFault>
    requires { IsContext (signature_of signature.now) scope.now }
    ensures { IfOk result (λ a. IsType (signature_of signature.now) scope.now (type_of a)) }
{
    let goal = read_type(alloc, names, case, "goal")?;
    if is_type(alloc, signature, scope, &goal)? {
        Ok(goal)
    } else {
        Err(FormFault::NoMeaning)
    }
}

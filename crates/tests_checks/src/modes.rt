//! The check of modes.
ghost use Rattle.lf.specs.Entries.{signature_of};
ghost use Rattle.lf.specs.Subordination.{AreTypedBlocks};
ghost use Rattle.tw_clause.specs.View.{worlds_of};

use crate::before::put_before;
use crate::blocks::typed_worlds;
use crate::marks::{read_marks, read_modes};
use crate::reading::{read_family, read_group};
use crate::short_and_full::{full, short};
use crate::showing::put_fault;
use crate::subordination::{below, families};
use std::alloc::{AllocError, Global};
use tests_forms::{Case, FormFault, Names};
use tw_clause::Worlds;
use tw_mode::{ModeFault, check_mode, check_modes};
use tw_signature::Signature;
use tw_terms::ConstId;

/// Adds what comes out of a case of modes or of subordination.
pub(crate) fn put_answer(
    alloc: Global,
    signature: &Signature,
    names: &mut Names,
    case: &Case,
    line: &mut String,
) -> Result<(), FormFault> {
    match case.kind.as_str() {
        "check" => check(alloc, signature, names, case, line),
        "mode" => mode(alloc, signature, names, case, line),
        "short" => short(alloc, signature, names, case, line),
        "full" => full(alloc, names, case, line),
        "ground" => put_before(alloc, names, case, line),
        "below" => below(alloc, signature, names, case, line),
        "families" => families(alloc, signature, names, case, line),
        _ => Err(FormFault::NoMeaning),
    }
}

// What the check of modes says of a group.
fn check(
    alloc: Global,
    signature: &Signature,
    names: &mut Names,
    case: &Case,
    line: &mut String,
) -> Result<(), FormFault> {
    let worlds = typed_worlds(alloc, signature, names, case)?;
    check_in(alloc, signature, names, case, &worlds, line)
}

fn check_in(
    alloc: Global,
    signature: &Signature,
    names: &Names,
    case: &Case,
    worlds: &Worlds,
    line: &mut String,
) -> Result<(), FormFault>
    requires { AreTypedBlocks (signature_of signature.now) (worlds_of worlds.now) }
{
    let modes = read_modes(alloc, names, case)?;
    let group = read_group(alloc, names, case)?;
    let verdict = check_modes(alloc, signature, &modes, worlds, &group);
    put_verdict(line, names, &verdict)
}

// What it says of one family with marks that aren't in the table yet.
fn mode(
    alloc: Global,
    signature: &Signature,
    names: &Names,
    case: &Case,
    line: &mut String,
) -> Result<(), FormFault> {
    let family = read_family(names, case, "family")?;
    let modes = read_modes(alloc, names, case)?;
    let marks = read_marks(alloc, case)?;
    let verdict = check_mode(alloc, signature, &modes, family, &marks);
    put_verdict(line, names, &verdict)
}

// Adds `ok`, or the clause with the numbers of its subgoal and its argument, or the family without a mode.
fn put_verdict(
    line: &mut String,
    names: &Names,
    verdict: &Result<(), ModeFault>,
) -> Result<(), FormFault> {
    match verdict {
        Ok(()) => Ok(line.push_str("ok")?),
        Err(ModeFault::NoMemory) => Err(FormFault::NoMemory),
        Err(ModeFault::NoMode(family)) => Ok(put_no_mode(line, names, *family)?),
        Err(
            ModeFault::Fault {
                clause,
                subgoal,
                argument,
            },
        ) => {
            put_fault(line, names, clause, *subgoal)?;
            Ok(write!(line, " {argument}")?)
        }
    }
}

fn put_no_mode(line: &mut String, names: &Names, family: ConstId) -> Result<(), AllocError> {
    line.push_str("no mode ")?;
    names.show_constant(line, family)
}

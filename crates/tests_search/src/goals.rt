//! The goal of a case, which the kernel finds typed.
ghost use Rattle.std.specs.Prelude.{IfOk, IsTrue};
ghost use Rattle.lf.specs.Entries.{signature_of};
ghost use Rattle.lf.specs.Typing.{IsContext, IsType};
ghost use Rattle.tw_terms.specs.View.{type_of};

use std::alloc::{AllocError, Global};
use tests_forms::{
    Case, Form, FormFault, Names, read_closed_context, read_closed_term, read_closed_type,
    read_forms,
};
use tw_fixity::Name;
use tw_kernel::{Verdict, check_context, check_type};
use tw_signature::{Goal, Signature};
use tw_terms::{Head, Term};

/// The goal, with the names of its context, the variables that are shown, and the name of the proof.
pub(crate) fn read_goal(
    alloc: Global,
    signature: &Signature,
    names: &mut Names,
    case: &Case,
) -> Result<Goal, FormFault>
    ensures { IfOk result (λ g. IsContext (signature_of signature.now) g.variables × IsType (signature_of signature.now) g.variables (type_of g.goal)) }
{
    let forms = read_forms(alloc, case.text("context")?)?;
    let variables = read_closed_context(alloc, names, &forms)?;
    let shown = variables_in(alloc, names, &read_forms(alloc, case.text("shown")?)?)?;
    let goal = read_closed_type(alloc, names, &case.form(alloc, "goal")?)?;
    names.leave_scope(0);
    let goal = Goal {
        variables,
        names: names_in(alloc, &forms)?,
        shown,
        proof: name_of(alloc, case.text("proof")?)?,
        goal,
    };
    if !is_typed(alloc, signature, &goal)? {
        return Err(FormFault::NoMeaning);
    }
    Ok(goal)
}

/// Whether the kernel finds the goal typed.
fn is_typed(alloc: Global, signature: &Signature, goal: &Goal) -> Result<bool, AllocError>
    ensures { IfOk result (λ b. IsTrue b → IsContext (signature_of signature.now) goal.now.variables × IsType (signature_of signature.now) goal.now.variables (type_of goal.now.goal)) }
{
    signature.is_canonical();
    let Verdict::Typed = check_context(alloc, signature, &goal.variables)? else {
        return Ok(false);
    };
    let Verdict::Typed = check_type(alloc, signature, &goal.variables, &goal.goal)? else {
        return Ok(false);
    };
    Ok(true)
}

/// The variables that the words name.
fn variables_in(alloc: Global, names: &mut Names, forms: &[Form]) -> Result<Vec<u64>, FormFault> {
    let mut variables = Vec::new(alloc);
    for form in forms {
        match read_closed_term(alloc, names, form)? {
            Term::Root(Head::Var(variable), _) => variables.push(variable)?,
            _ => return Err(FormFault::NoMeaning),
        }
    }
    Ok(variables)
}

/// The names in a context of names and types in turn, the newest first.
fn names_in(alloc: Global, forms: &[Form]) -> Result<Vec<Option<Name>>, AllocError> {
    let mut names = Vec::new(alloc);
    for place in (0..forms.len() / 2).rev() {
        names.push(name_of(alloc, forms[2 * place].word().unwrap_or(""))?)?;
    }
    Ok(names)
}

/// The name, unless there is none.
fn name_of(alloc: Global, word: &str) -> Result<Option<Name>, AllocError> {
    if word.is_empty() || word == "_" {
        return Ok(None);
    }
    Ok(Some(Name::from_text(alloc, word)?))
}

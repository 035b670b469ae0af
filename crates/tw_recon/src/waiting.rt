//! What is still to be looked through of a text for free variables, so that the walk nests on the heap and not on the machine's stack.
ghost use Rattle.std.specs.Prelude.{◌+◌, ◌++◌, OnOk};
ghost use Rattle.tw_names.specs.Domains.{written_domain};
ghost use Rattle.tw_names.specs.Waiting.{size, size_of_domain};
ghost use Rattle.tw_parse.specs.View.{term_of};
ghost use Rattle.tw_recon.specs.FreeNames.{free_names, free_under};
ghost use Rattle.tw_recon.specs.Waiting.{Adds};

use std::alloc::AllocError;
use tw_fixity::Name;
use tw_parse::ExtTerm;

/// What waits to be looked through.
#[derive(Clone, Copy)]
pub enum Waiting<'a> {
    /// A term, in the scope that stands by then.
    Term(&'a ExtTerm),
    /// A term under one more binder.
    Under(&'a Name, &'a ExtTerm),
    /// The end of the innermost binder's scope.
    End,
}

/// Two terms wait, the first to be looked through before the second.
#[inline(never)]
pub fn wait_for_both<'a>(
    waiting: &mut Vec<Waiting<'a>>,
    first: &'a ExtTerm,
    second: &'a ExtTerm,
) -> Result<(), AllocError>
    ensures { OnOk result (Adds (λ es N. free_names es N (term_of first.now) ++ free_names es N (term_of second.now)) (size (term_of first.now) + size (term_of second.now)) waiting.old.items waiting.new.items) }
{
    waiting.push(Waiting::Term(second))?;
    waiting.push(Waiting::Term(first))?;
    Ok(())
}

/// The domain of a binder waits, and what stands under the binder.
#[inline(never)]
pub fn wait_for_binder<'a>(
    waiting: &mut Vec<Waiting<'a>>,
    name: &'a Name,
    domain: &'a Option<Box<ExtTerm>>,
    body: &'a ExtTerm,
) -> Result<(), AllocError>
    ensures { OnOk result (Adds (λ es N. free_under es N name.now (written_domain domain.now) (term_of body.now)) (size_of_domain (written_domain domain.now) + size (term_of body.now) + 2) waiting.old.items waiting.new.items) }
{
    waiting.push(Waiting::Under(name, body))?;
    match domain {
        Some(ty) => Ok(waiting.push(Waiting::Term(ty))?),
        None => Ok(()),
    }
}

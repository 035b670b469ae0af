//! The parts of what is written that a walk is still to look at. They wait on the heap, so that no walk nests on the machine's stack.
ghost use Rattle.std.specs.Prelude.{◌≡◌, ◌++◌, ◌∷◌, [], OnOk};

use crate::{Written, WrittenDomain, WrittenKind, WrittenType};
use std::alloc::AllocError;

/// A part of what is written.
#[derive(Clone, Copy)]
pub enum Part<'a> {
    /// A term, and whether its type is given from outside.
    Term(&'a Written, bool),
    Domain(&'a WrittenDomain),
    Type(&'a WrittenType),
    Kind(&'a WrittenKind),
}

/// Two parts wait, the first to be looked at before the second. The last one is looked at next.
#[inline(never)]
pub fn wait_for<'a>(
    waiting: &mut Vec<Part<'a>>,
    first: Part<'a>,
    second: Part<'a>,
) -> Result<(), AllocError>
    ensures { OnOk result (waiting.new.items ≡ waiting.old.items ++ second.entry ∷ first.entry ∷ []) }
{
    waiting.push(second)?;
    waiting.push(first)?;
    Ok(())
}

//! The resolution of a written term, type or kind.
ghost use Rattle.std.specs.Prelude.{◌≡◌, IfOk, OnOk, option_map};
ghost use Rattle.tw_approx.specs.Readings.{found};
ghost use Rattle.tw_parse.specs.View.{term_of};
ghost use Rattle.tw_resolve.specs.Rest.{rest_of};
ghost use Rattle.tw_resolve.specs.Resolving.{resolved_term, resolved_type, resolved_kind};
ghost use Rattle.tw_written.specs.View.{written_of, written_type_of as type_of, written_kind_of as kind_of};

use crate::resolution::{resolved_kind, resolved_term, resolved_type};
use crate::resolving::Resolving;
use std::alloc::{AllocError, Global};
use tw_parse::ExtTerm;
use tw_signature::Signature;
use tw_written::{Written, WrittenKind, WrittenType};

/// How many calls the walk nests at most, over all groups in brackets together; past these it wants memory. What nests 4,096 deep takes a call a level, and three more at most for each of
/// the 1,000 brackets that may be open, so only what doesn't count in that depth comes to more. Rows in rows and ascriptions one behind the other nest on the heap.
const FRAMES: u32 = 7_200;

/// A written term with its names resolved. What isn't written takes its skeletons from what is left of the list. There is none where a name is unknown, where the
/// list is too short, or where a hole stands for a family. Fails for want of memory alone.
pub fn resolve_term(
    alloc: Global,
    signature: &Signature,
    resolving: &mut Resolving,
    term: &ExtTerm,
) -> Result<Option<Written>, AllocError>
    ensures read { IfOk result (λ o. found (option_map written_of o) (rest_of resolving.new) ≡ resolved_term signature.now resolving.old.free resolving.old.scope (term_of term.now) (rest_of resolving.old)) }
    ensures scope { OnOk result (resolving.new.scope ≡ resolving.old.scope) }
    ensures free { OnOk result (resolving.new.free ≡ resolving.old.free) }
{
    resolved_term(alloc, signature, resolving, term, FRAMES)
}

/// The same of a written type.
pub fn resolve_type(
    alloc: Global,
    signature: &Signature,
    resolving: &mut Resolving,
    term: &ExtTerm,
) -> Result<Option<WrittenType>, AllocError>
    ensures read { IfOk result (λ o. found (option_map type_of o) (rest_of resolving.new) ≡ resolved_type signature.now resolving.old.free resolving.old.scope (term_of term.now) (rest_of resolving.old)) }
    ensures scope { OnOk result (resolving.new.scope ≡ resolving.old.scope) }
    ensures free { OnOk result (resolving.new.free ≡ resolving.old.free) }
{
    resolved_type(alloc, signature, resolving, term, FRAMES)
}

/// The same of a written kind.
pub fn resolve_kind(
    alloc: Global,
    signature: &Signature,
    resolving: &mut Resolving,
    term: &ExtTerm,
) -> Result<Option<WrittenKind>, AllocError>
    ensures read { IfOk result (λ o. found (option_map kind_of o) (rest_of resolving.new) ≡ resolved_kind signature.now resolving.old.free resolving.old.scope (term_of term.now) (rest_of resolving.old)) }
    ensures scope { OnOk result (resolving.new.scope ≡ resolving.old.scope) }
    ensures free { OnOk result (resolving.new.free ≡ resolving.old.free) }
{
    resolved_kind(alloc, signature, resolving, term, FRAMES)
}

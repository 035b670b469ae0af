//! Reading blocks.
ghost use Rattle.std.specs.Prelude.{IfOk, IfErr};
ghost use Rattle.tw_parse.specs.Faults.{DotEnds};
ghost use Rattle.tw_parse_checks.specs.Checks.{check_of};
ghost use Rattle.tw_parse_checks.specs.Faults.{IsCheck, IsFault};
ghost use Rattle.tw_parse_checks.specs.declared.check.CheckForm.TheVariants.{Block};

use crate::binders::{binders, some_binders};
use crate::binding::bound_over;
use crate::check::ExtCheck;
use crate::heads::{closes, ext_name, is_label, says};
use std::alloc::Global;
use tw_parse::{ExtDecl, ExtTerm, Part, Source, SyntaxFault};

/// Reads a block.
pub fn block(alloc: Global, source: &Source<'_>) -> Result<ExtCheck, SyntaxFault>
    requires { DotEnds source.now }
    ensures reads { IfOk result (λ c. IsCheck source.now Block (check_of c)) }
    ensures fault { IfErr result (IsFault source.now Block) }
{
    if !is_label(source, 1) {
        return Err(SyntaxFault::BadDecl(source.place(0)));
    }
    let (some, at) = some_binders(alloc, source, 3)?;
    if !says(source, at, b"block") {
        return Err(SyntaxFault::BadDecl(source.place(0)));
    }
    let (entries, end) = binders(alloc, source, at + 1)?;
    if !closes(source, end, false) {
        return Err(SyntaxFault::BadDecl(source.place(0)));
    }
    let label = ext_name(alloc, source, 1)?;
    let count = some.variables.len();
    let behind = bound_over(alloc, entries, Part::Term(ExtTerm::Star))?;
    match bound_over(alloc, some, behind)? {
        Part::AtFault(place) => Err(SyntaxFault::Fixity(place)),
        Part::Term(kind) => {
            let name = label.name.copy(alloc)?;
            let family = ExtDecl::Declare(name, label.at, kind);
            Ok(ExtCheck::Block(label, count, family))
        }
    }
}

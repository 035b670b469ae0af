//! The entry of a declaration.
ghost use Rattle.std.specs.Prelude.{IfErr, IfOk};
ghost use Rattle.lf.specs.Entries.{signature_of, IsCanonicalEntry};
ghost use Rattle.tw_parse.specs.View.{declaration_of};
ghost use Rattle.tw_signature.specs.View.{entry_of};
ghost use Rattle.tw_recon.specs.Causes.{HasCause};
ghost use Rattle.tw_recon.specs.Reconstruction.{IsReconstructed};

use crate::begun::tell;
use crate::completing::complete;
use crate::entry::entry;
use crate::fault::ReconFault;
use std::alloc::Global;
use tw_parse::ExtDecl;
use tw_signature::{Entry, Signature};

/// The entry that a declaration or definition gives, with all that it leaves out filled in the most general way. A declaration of operators or of
/// preferred names has none: it is a mismatch.
pub fn reconstruct(
    alloc: Global,
    signature: &Signature,
    decl: &ExtDecl,
) -> Result<Entry, ReconFault>
    ensures reconstructed { IfOk result (λ e. IsReconstructed signature.now (declaration_of decl.now) (entry_of e)) }
    ensures canonical { IfOk result (λ e. IsCanonicalEntry (signature_of signature.now) (entry_of e)) }
    ensures refused { IfErr result (λ f. HasCause signature.now (declaration_of decl.now) f) }
{
    let told = match tell(alloc, signature, decl) {
        Ok(told) => told,
        Err(fault) => return Err(fault),
    };
    let completed = match complete(alloc, signature, told) {
        Ok(completed) => completed,
        Err(fault) => return Err(fault),
    };
    match entry(alloc, signature, decl, completed) {
        Ok(entry) => Ok(entry),
        Err(fault) => Err(fault),
    }
}

//! The entry of what is completed.
ghost use Rattle.std.specs.Prelude.{◌≡◌, ◌≤◌, ◌++◌, ◌⊎◌, IfErr, IfOk, IsErrOf, length};
ghost use Rattle.lf.specs.Depth.{depth_limit};
ghost use Rattle.lf.specs.Entries.{body_quantifiers, signature_of, BodyIsTyped, BodyIsWithin};
ghost use Rattle.lf_elaboration.specs.Principal.{body_over};
ghost use Rattle.tw_parse.specs.View.{declaration_of};
ghost use Rattle.tw_signature.specs.View.{body_of, entry_of};
ghost use Rattle.tw_recon.specs.Causes.{BodyReachesDeep};
ghost use Rattle.tw_recon.specs.Reconstruction.{IsEntryOf, declared_name};

use crate::closing::closed_body;
use crate::completing::Completed;
use crate::fault::ReconFault;
use crate::hints::add_written;
use crate::kernel::approve;
use std::alloc::{AllocError, Global};
use tw_fixity::Name;
use tw_parse::ExtDecl;
use tw_signature::{Entry, Signature};
use tw_terms::Context;

/// The entry: what is completed, and typed, is closed over its implicit quantifiers, and the kernel says yes to it.
pub fn entry(
    alloc: Global,
    signature: &Signature,
    decl: &ExtDecl,
    completed: Completed,
) -> Result<Entry, ReconFault>
    requires { BodyIsTyped (signature_of signature.now) (body_over completed.quantifiers (body_of completed.body)) }
    ensures entry { IfOk result (λ e. IsEntryOf (declaration_of decl.now) completed.quantifiers completed.hints.items (body_of completed.body) (entry_of e)) }
    ensures typed { IfOk result (λ e. BodyIsTyped (signature_of signature.now) (body_of e.body)) }
    ensures within { IfOk result (λ e. BodyIsWithin depth_limit (body_of e.body)) }
    ensures fault { IfErr result (λ f. (f ≡ ReconFault.TooDeep) ⊎ (f ≡ ReconFault.NoMemory)) }
    ensures too_deep { IsErrOf result ReconFault.TooDeep → BodyReachesDeep (signature_of signature.now) (body_over completed.quantifiers (body_of completed.body)) }
{
    let Completed {
        quantifiers,
        hints,
        body: inner,
        ..
    } = completed;
    let hints = add_written(alloc, decl, &inner, hints)?;
    let name = declared_name(alloc, decl)?;
    let body = closed_body(alloc, &quantifiers, inner)?;
    match approve(alloc, signature, &body) {
        Ok(()) => {}
        Err(fault) => return Err(fault),
    }
    let implicit = implicit_count(&quantifiers);
    Ok(Entry {
        name,
        body,
        implicit,
        hints,
    })
}

/// How many quantifiers there are: no more than a type may be deep.
fn implicit_count(quantifiers: &Context) -> u32
    requires { length quantifiers.now ≤ depth_limit }
    ensures { result ≡ length quantifiers.now }
{
    quantifiers.len() as u32
}

/// The name that is declared; `_` where there is none.
fn declared_name(alloc: Global, decl: &ExtDecl) -> Result<Name, AllocError>
    ensures { IfOk result (λ n. n ≡ declared_name (declaration_of decl.now)) }
{
    match decl {
        ExtDecl::Declare(name, _, _) => name.copy(alloc),
        ExtDecl::Define(Some(name), _, _, _) => name.copy(alloc),
        ExtDecl::Define(None, _, _, _) | ExtDecl::NamePref(_, _, _) | ExtDecl::Fixity(_, _) => {
            Name::from_bytes(alloc, b"_")
        }
    }
}

//! What an identifier names.
ghost use Rattle.std.specs.Prelude.{◌≡◌, IfOk, option_map};
ghost use Rattle.tw_terms.specs.View.{head_of};
ghost use Rattle.tw_names.specs.Scope.{binder_name, named};

use std::alloc::{AllocError, Global};
use tw_fixity::{Name, Scope};
use tw_signature::Signature;
use tw_terms::Head;

/// The name that a binder gives to its variable.
#[inline(never)]
pub fn binder_name(alloc: Global, name: &Name) -> Result<Option<Name>, AllocError>
    ensures { IfOk result (λ n. n ≡ binder_name name.now) }
{
    if name.as_bytes() == b"_".as_slice() {
        Ok(None)
    } else {
        Ok(Some(name.copy(alloc)?))
    }
}

/// What the name names.
#[inline(never)]
pub fn named(signature: &Signature, scope: &Scope, name: &Name) -> Option<Head>
    ensures { option_map head_of result ≡ named signature.now scope.now name.now }
{
    match scope.variable(name.as_bytes()) {
        Some(variable) => Some(Head::Var(variable)),
        None => match signature.lookup(name) {
            Some(id) => Some(Head::Const(id)),
            None => None,
        },
    }
}

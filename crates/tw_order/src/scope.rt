//! Where a call stands.
ghost use Rattle.std.specs.Prelude.{◌≡◌};
ghost use Rattle.tw_order.specs.Scopes.{fixed_in, local_in};

use tw_terms::Context;

/// The types of all variables in scope. The newest are those of the call's local context, then come those of the clause, and then the entries that stand before a block entry; past these stand its `some` variables.
#[derive(Clone, Copy)]
pub struct Scope<'a> {
    pub context: &'a Context,
    pub locals: u64,
    pub own: u64,
    pub entries: u64,
}

/// Whether a variable is one of the call's local context.
pub fn is_local(scope: &Scope, variable: u64) -> bool
    ensures { result ≡ local_in scope.now variable }
{
    variable < scope.locals
}

/// Whether a variable is a parameter: one of the local context, or an entry before a block entry. A variable of the clause is none, and nor is a `some` variable.
pub fn is_parameter(scope: &Scope, variable: u64) -> bool
    ensures { result ≡ fixed_in scope.now variable }
{
    if variable < scope.locals {
        return true;
    }
    let outside = variable - scope.locals;
    if outside < scope.own {
        return false;
    }
    outside - scope.own < scope.entries
}

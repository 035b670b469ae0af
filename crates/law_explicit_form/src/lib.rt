//! The explicit form of declarations, in which nothing is left out, and what such a text gives. No function here has code: each carries one law as its contract.
#![tactic(auto)]

ghost use Rattle.law_explicit_form.specs.Laws.{GivenHasHints, GivenIsTyped};

/// What a written kind, type or term gives is typed.
pub fn given_is_typed()
    ensures { GivenIsTyped }
{}

/// The body that a written type or kind gives has a quantifier for each leading binder.
pub fn given_has_hints()
    ensures { GivenHasHints }
{}

//! What is read off the quantifiers of a type, one after the other.
ghost use Rattle.std.specs.Prelude.{◌≡◌, ◌∷◌, OnOk, cond};
ghost use Rattle.lf.specs.Syntax.{rename_type};
ghost use Rattle.tw_terms.specs.View.{type_of};
ghost use Rattle.tw_clause.specs.Numbers.{numbering};
ghost use Rattle.tw_clause.specs.View.{in_solving_order};

use crate::clause::Subgoal;
use crate::renumbering::{Numbers, renumber_type, subgoal};
use std::alloc::{AllocError, Global};
use tw_terms::{Context, Ty};

/// The variables, and the subgoals in the order of the text.
#[derive(Drop)]
pub struct Collected {
    pub variables: Context,
    pub subgoals: Vec<Subgoal>,
}

impl Collected {
    /// Adds a quantifier of this type: a variable stands inside the variables so far, a subgoal in the whole scope.
    pub fn add(
        &mut self,
        alloc: Global,
        is_variable: bool,
        inside: &Numbers,
        whole: &Numbers,
        domain: &Ty,
    ) -> Result<(), AllocError>
        ensures variables { OnOk result (self.new.variables ≡ cond is_variable (rename_type (numbering inside.now) (type_of domain.now) ∷ self.old.variables) self.old.variables) }
        ensures subgoals { OnOk result (in_solving_order self.new.subgoals.items ≡ cond is_variable (in_solving_order self.old.subgoals.items) (rename_type (numbering whole.now) (type_of domain.now) ∷ in_solving_order self.old.subgoals.items)) }
    {
        if is_variable {
            self.variables
                .push(renumber_type(alloc, inside, 0, domain)?)?;
        } else {
            self.subgoals.push(subgoal(alloc, whole, domain)?)?;
        }
        Ok(())
    }
}

//! A walk through a text.
ghost use Rattle.std.specs.Prelude.{◌≡◌, [], ◌∷◌, ◌-◌, OnOk, drop};
ghost use Rattle.tw_terms.specs.View.{head_of, type_of};
ghost use Rattle.tw_shown.specs.Shown.{of_head};
ghost use Rattle.tw_shown.specs.Walks.{Adds, Enters};

use std::alloc::AllocError;
use tw_terms::numbers::one_more;
use tw_terms::{Context, Head, Ty};

/// The variables that are shown so far, as seen from outside all binders; the types of the variables in scope; and how many of these are bound by the text itself.
#[derive(Drop)]
pub struct Walk {
    pub shown: Vec<u64>,
    pub context: Context,
    pub binders: u64,
}

impl Walk {
    /// Shows a head.
    pub fn show_head(&mut self, head: Head) -> Result<(), AllocError>
        ensures { OnOk result (Adds self.old self.new (of_head (head_of head))) }
    {
        match head {
            Head::Const(_) => Ok(()),
            Head::Var(variable) => self.show_variable(variable),
        }
    }

    /// Shows a variable.
    fn show_variable(&mut self, variable: u64) -> Result<(), AllocError>
        ensures { OnOk result (Adds self.old self.new (variable ∷ [])) }
    {
        if variable < self.binders {
            return Ok(());
        }
        self.shown.push(variable - self.binders)?;
        Ok(())
    }

    /// Brings a variable of this type in scope.
    pub fn enter(&mut self, ty: Ty) -> Result<(), AllocError>
        ensures { OnOk result (Enters self.old self.new (type_of ty)) }
    {
        self.binders = one_more(self.binders)?;
        self.context.push(ty)
    }

    /// Takes the newest variable out of scope.
    pub fn leave(&mut self)
        ensures shown { self.new.shown.items ≡ self.old.shown.items }
        ensures context { self.new.context ≡ drop 1 self.old.context }
        ensures binders { self.new.binders ≡ self.old.binders - 1 }
    {
        let _ = self.context.pop();
        self.binders = self.binders.saturating_sub(1);
    }
}

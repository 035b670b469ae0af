//! The inverse of a pattern, as a table.
ghost use Rattle.std.specs.Prelude.{◌≡◌, ◌↔◌, IfOk, IsTrue, is_some, length, option_map};
ghost use Rattle.tw_terms.specs.OpenView.{open_head_of};
ghost use Rattle.tw_prune.specs.View.{table_of};
ghost use Rattle.tw_prune.specs.Walks.{behind, head_behind};
ghost use Rattle.tw_prune.specs.Tables.{IsTableOf};

use std::alloc::{AllocError, Global};
use tw_terms::OpenHead;

/// What each variable of the local context is under the lambdas of the value, where the pattern has it, and how many lambdas these are.
/// The variables of the local context count from the innermost one, those under the lambdas from the last argument.
#[derive(Drop)]
pub struct Inverse {
    pub places: Vec<Option<u64>>,
    pub arity: u64,
}

impl Inverse {
    /// The inverse of a pattern in a local context of `inner` variables. It takes room for each of them.
    pub fn of(alloc: Global, pattern: &[u64], inner: u64) -> Result<Inverse, AllocError>
        ensures { IfOk result (λ i. IsTableOf pattern.now inner (table_of i)) }
    {
        let mut places = vec![in alloc; None; inner as usize]?;
        let mut left = pattern.len();
        for variable in pattern {
            left -= 1;
            let variable = *variable as usize;
            if variable < places.len() {
                places[variable] = Some(left as u64);
            }
        }
        Ok(Inverse {
            places,
            arity: pattern.len() as u64,
        })
    }

    /// What the variable is under the lambdas and the binders that the walk has passed since; None where the pattern lacks it.
    /// Fails where no context in memory is so long.
    pub fn find(&self, binders: u64, variable: u64) -> Result<Option<u64>, AllocError>
        ensures { IfOk result (λ r. r ≡ behind (table_of self.now) binders variable) }
    {
        if variable < binders {
            return Ok(Some(variable));
        }
        let local = variable - binders;
        let inner = self.places.len() as u64;
        let place = if local < inner {
            match self.places[local as usize] {
                Some(place) => place,
                None => return Ok(None),
            }
        } else {
            (local - inner).checked_add(self.arity).ok_or(AllocError)?
        };
        Ok(Some(place.checked_add(binders).ok_or(AllocError)?))
    }

    /// Whether the pattern has the variable, or it stands outside the local context, or the walk has passed its binder.
    pub fn has(&self, binders: u64, variable: u64) -> bool
        ensures { result ≡ is_some (behind (table_of self.now) binders variable) }
    {
        if variable < binders {
            return true;
        }
        match self.places.get((variable - binders) as usize) {
            Some(place) => place.is_some(),
            None => true,
        }
    }

    /// The head under the lambdas.
    pub fn head(&self, binders: u64, head: OpenHead) -> Result<Option<OpenHead>, AllocError>
        ensures { IfOk result (λ r. option_map open_head_of r ≡ head_behind (table_of self.now) binders (open_head_of head)) }
    {
        match head {
            OpenHead::Var(variable) => match self.find(binders, variable)? {
                Some(variable) => Ok(Some(OpenHead::Var(variable))),
                None => Ok(None),
            },
            OpenHead::Const(_) => Ok(Some(head)),
            OpenHead::Meta(_) => Ok(Some(head)),
        }
    }
}

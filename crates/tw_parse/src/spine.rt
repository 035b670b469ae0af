//! What is applied, and its arguments.
ghost use Rattle.std.specs.Prelude.{◌≡◌, IfOk};
ghost use Rattle.tw_parse.specs.Applied.{applied_to, written_terms};
ghost use Rattle.tw_parse.specs.View.{term_of};

use crate::term::ExtTerm;
use std::alloc::{AllocError, Global};

impl ExtTerm {
    /// What stands before the arguments, and these, the last one first. Fails only for want of memory.
    pub fn spine<'a>(&'a self, alloc: Global) -> Result<(&'a ExtTerm, Vec<&'a ExtTerm>), AllocError>
        ensures { IfOk result (λ p. applied_to (term_of p.0.now) (written_terms p.1.items) ≡ term_of self.now) }
    {
        let mut arguments: Vec<&'a ExtTerm> = Vec::new(alloc);
        let mut head = self;
        while let ExtTerm::App(function, argument) = head {
            arguments.push(argument)?;
            head = function;
        }
        Ok((head, arguments))
    }
}

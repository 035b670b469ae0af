//! What is known on the way over a text.
ghost use Rattle.std.specs.Prelude.{◌≡◌, [], map, reverse, Some, None, IfOk, option_map};
ghost use Rattle.lf.specs.Syntax.{Skeleton as PlainSkeleton};
ghost use Rattle.tw_approx.specs.Answer.{rows_of};
ghost use Rattle.tw_approx.specs.Readings.{take, found};
ghost use Rattle.tw_resolve.specs.Rest.{rest_of};
ghost use Rattle.tw_resolve.specs.Resolved.{names_of};
ghost use Rattle.tw_resolve.specs.Resolving.{resolved_name, resolved_family};
ghost use Rattle.tw_names.specs.Scope.{named};
ghost use Rattle.tw_written.specs.View.{place_of, written_of, written_type_of as type_of};
ghost use Rattle.tw_fixity.specs.Names.{variable_of};
ghost use Rattle.tw_terms.specs.View.{skeleton_of};

use std::alloc::{AllocError, Global};
use tw_approx::Row;
use tw_fixity::{Name, Scope};
use tw_lexer::Place;
use tw_names::named;
use tw_signature::Signature;
use tw_terms::{Head, Skeleton};
use tw_written::{Written, WrittenType};

/// What is known on the way over a text.
#[derive(Drop)]
pub struct Resolving {
    /// The names of the variables in scope.
    pub scope: Scope,
    /// The names of the free variables: the variable of a name is its place.
    pub free: Scope,
    /// The skeletons of what isn't written from here on, the next one last.
    pub omitted: Vec<Skeleton>,
}

impl Resolving {
    /// Before a text with these free variables, where this isn't written, in the order of the text.
    pub fn new(alloc: Global, rows: &[Row], omitted: Vec<Skeleton>) -> Result<Resolving, AllocError>
        ensures scope { IfOk result (λ r. r.scope ≡ []) }
        ensures free { IfOk result (λ r. r.free ≡ names_of (rows_of rows.now)) }
        ensures rest { IfOk result (λ r. rest_of r ≡ map skeleton_of omitted.items) }
    {
        let mut omitted = omitted;
        omitted.reverse();
        Ok(Resolving {
            scope: Scope::new(alloc),
            free: names(alloc, rows)?,
            omitted,
        })
    }

    /// The skeleton of what comes next and isn't written; none where the list is used up.
    pub fn take(&mut self) -> Option<Skeleton>
        ensures rest { found (option_map skeleton_of result) (rest_of self.new) ≡ take (rest_of self.old) }
        ensures scope { self.new.scope ≡ self.old.scope }
        ensures free { self.new.free ≡ self.old.free }
    {
        self.omitted.pop()
    }

    /// What a name at this place is in a term; none where it is neither in scope nor declared nor free.
    pub fn name(&self, signature: &Signature, name: &Name, at: Place) -> Option<Written>
        ensures { option_map written_of result ≡ resolved_name (place_of at) (named signature.now self.now.scope name.now) (variable_of self.now.free name.now) }
    {
        match named(signature, &self.scope, name) {
            Some(Head::Const(id)) => Some(Written::Declared(id, at)),
            Some(Head::Var(variable)) => Some(Written::Bound(variable)),
            None => match self.free.variable(name.as_bytes()) {
                Some(variable) => Some(Written::Free(variable, at)),
                None => None,
            },
        }
    }

    /// What a name at this place is as a family.
    pub fn family(&self, signature: &Signature, name: &Name, at: Place) -> Option<WrittenType>
        ensures { option_map type_of result ≡ resolved_family (place_of at) (named signature.now self.now.scope name.now) }
    {
        match named(signature, &self.scope, name) {
            Some(Head::Const(id)) => Some(WrittenType::Family(id, at)),
            Some(Head::Var(_)) | None => None,
        }
    }
}

/// The names of the rows, the first one innermost.
fn names(alloc: Global, rows: &[Row]) -> Result<Scope, AllocError>
    ensures { IfOk result (λ s. s ≡ names_of (rows_of rows.now)) }
{
    let mut names = Scope::new(alloc);
    let mut left = rows.len();
    while left > 0 {
        left -= 1;
        names.push(Some(rows[left].name.copy(alloc)?))?;
    }
    Ok(names)
}

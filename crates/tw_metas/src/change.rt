//! The changes of a store.

use crate::equation::Equation;
use std::alloc::Global;

/// A change of a store, with what it takes to take it back.
#[derive(Drop)]
pub enum Change {
    /// A metavariable was declared.
    Declared,
    /// This metavariable was bound.
    Bound(usize),
    /// An equation was postponed.
    Postponed,
    /// This equation was settled, which stood at this place.
    Settled(usize, Box<Equation>),
}

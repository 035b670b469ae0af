//! The store.
ghost use Rattle.std.specs.Prelude.{◌≡◌, ◌<◌, ◌≤◌, ◌∷◌, length, reverse, OnOk, OnErr, IfOk, option_map, vec_len};
ghost use Rattle.tw_terms.specs.OpenView.{open_term_of, open_type_of};
ghost use Rattle.tw_metas.specs.View.{state_of, equation_of, kept_equation_of};
ghost use Rattle.tw_metas.specs.Undoing.{HasRoom, states_before, undone};

use crate::change::Change;
use crate::contents::Contents;
use crate::equation::Equation;
use std::alloc::{AllocError, Global};
use std::marker::Model;
use tw_terms::{MetaId, Open, OpenContext, OpenTy};

/// The metavariables with their types and values, the equations that are postponed, and the way back to each earlier mark.
/// Contracts see a story: what the store holds now, and what it held before each change that stands.
#[derive(Drop)]
pub struct Store {
    contents: Contents,
}

impl Model for Store {
    ghost use Rattle.std.specs.Prelude.{length, reverse};
    ghost use Rattle.std.specs.Vec.{vec_capacity, vec_len};
    ghost use Rattle.tw_metas.specs.State.{Story};
    ghost use Rattle.tw_metas.specs.View.{state_of};
    ghost use Rattle.tw_metas.specs.Undoing.{story_of, HasRoom, IsCounted};
    ghost use Rattle.tw_metas.specs.Codes.{story_code};

    ghost Value = { Story };

    ghost coded = { story_code };

    ghost view = { λ s. story_of (state_of s.contents) (reverse s.contents.trail.items) };

    ghost invariant = { λ s. HasRoom (vec_capacity s.contents.equations) (reverse s.contents.trail.items) (vec_len s.contents.equations) × IsCounted s.contents };
}

/// A moment of a store: how many changes stood.
#[derive(Debug, Drop)]
pub struct Mark {
    changes: usize,
}

impl Model for Mark {
    ghost use Rattle.std.specs.Prelude.{ℕ};

    ghost Value = { ℕ };

    ghost view = { λ m. m.changes };
}

impl Store {
    ghost use Rattle.std.specs.Prelude.{◌≡◌, ◌<◌, ◌≤◌, ◌∷◌, ◌-◌, length, drop, map, nat_eq, OnOk, OnErr, IfOk, option_map, slice_get};
    ghost use Rattle.tw_terms.specs.OpenView.{open_term_of, open_type_of};
    ghost use Rattle.tw_metas.specs.State.{empty_story, changed, states, with_declared, with_value, with_equation, without_equation, value_of, IsUnbound};
    ghost use Rattle.tw_metas.specs.View.{equation_of, kept_equation_of};

    /// The store that holds nothing. It keeps the allocator.
    pub fn new(alloc: Global) -> Store
        ensures { result ≡ empty_story }
    {
        Store {
            contents: Contents {
                metas: Vec::new(alloc),
                bound: 0,
                equations: Vec::new(alloc),
                trail: Vec::new(alloc),
            },
        }
    }

    /// Declares a metavariable in the context, of this type, and gives its number, which is how many were declared before it.
    pub fn fresh(&mut self, context: OpenContext, ty: OpenTy) -> Result<MetaId, AllocError>
        ensures ok { OnOk result (self.new ≡ changed self.old (with_declared self.old.now context (open_type_of ty))) }
        ensures number { IfOk result (λ m. m.0 ≡ length self.old.now.declared) }
        ensures err { OnErr result (self.new ≡ self.old) }
    {
        let number = self.contents.metas.len() as u64;
        self.contents.trail.reserve(1)?;
        self.contents.declare(context, ty)?;
        self.contents.trail.push_reserved(Change::Declared);
        Ok(MetaId(number))
    }

    /// The moment of now.
    pub fn mark(&self) -> Mark
        ensures { result ≡ length self.now.before }
    {
        Mark {
            changes: self.contents.trail.len(),
        }
    }

    /// Whether as many changes stand as at the mark, so that to go back to it takes nothing back.
    pub fn is_at(&self, mark: &Mark) -> bool
        ensures { result ≡ nat_eq (length self.now.before) mark.now }
    {
        self.contents.trail.len() == mark.changes
    }

    /// The context and the type of a metavariable, as they were handed to `fresh`.
    pub fn about(&self, meta: MetaId) -> Option<(&OpenContext, &OpenTy)>
        ensures { option_map (λ p. record { context = p.0.now; of_type = open_type_of p.1.now }) result ≡ slice_get self.now.now.declared meta.0 }
    {
        self.contents.about(meta.0 as usize)
    }

    /// The value of a metavariable, if it is bound.
    pub fn value(&self, meta: MetaId) -> Option<&Open>
        ensures { option_map (λ v. open_term_of v.now) result ≡ value_of self.now.now meta.0 }
    {
        self.contents.value(meta.0 as usize)
    }

    /// How many metavariables are declared.
    pub fn declared_count(&self) -> usize
        ensures { result ≡ length self.now.now.declared }
    {
        self.contents.metas.len()
    }

    /// How many of them are bound.
    pub fn bound_count(&self) -> usize
        ensures { result ≡ length self.now.now.bound }
    {
        self.contents.bound
    }

    /// The equations that are postponed, in order.
    pub fn equations(&self) -> &[Box<Equation>]
        ensures { map kept_equation_of result.now ≡ self.now.now.equations }
    {
        &self.contents.equations
    }

    /// Gives a metavariable its value.
    pub fn bind(&mut self, meta: MetaId, value: Open) -> Result<(), AllocError>
        requires { IsUnbound self.old.now meta.0 }
        ensures ok { OnOk result (self.new ≡ changed self.old (with_value self.old.now meta.0 (open_term_of value))) }
        ensures err { OnErr result (self.new ≡ self.old) }
    {
        self.contents.trail.push(Change::Bound(meta.0 as usize))?;
        self.contents.bind(meta.0 as usize, value);
        Ok(())
    }

    /// Keeps an equation for later, behind the others.
    pub fn postpone(&mut self, alloc: Global, equation: Equation) -> Result<(), AllocError>
        ensures ok { OnOk result (self.new ≡ changed self.old (with_equation self.old.now (equation_of equation))) }
        ensures err { OnErr result (self.new ≡ self.old) }
    {
        self.contents.trail.reserve(1)?;
        let equation = Box::new(alloc, equation)?;
        self.contents.postpone(equation)?;
        self.contents.trail.push_reserved(Change::Postponed);
        Ok(())
    }

    /// Takes out the equation at this place; the others keep their order.
    pub fn settle(&mut self, at: usize) -> Result<(), AllocError>
        requires { at < length self.old.now.equations }
        ensures ok { OnOk result (self.new ≡ changed self.old (without_equation self.old.now at)) }
        ensures err { OnErr result (self.new ≡ self.old) }
    {
        self.contents.trail.reserve(1)?;
        let equation = self.contents.settle(at);
        self.contents
            .trail
            .push_reserved(Change::Settled(at, equation));
        Ok(())
    }

    // Takes the newest change back.
    fn undo(&mut self)
        requires { 0 < length self.old.before }
        ensures { states self.new ≡ drop 1 (states self.old) }
    {
        match self.contents.trail.pop() {
            None => (),
            Some(Change::Declared) => self.contents.undo_declared(),
            Some(Change::Bound(meta)) => self.contents.undo_bound(meta),
            Some(Change::Postponed) => self.contents.undo_postponed(),
            Some(Change::Settled(at, equation)) => self.contents.put_back(at, equation),
        }
    }

    /// Takes back all changes since the mark. The mark is one of this store, and no earlier one was gone back to since. It takes no memory.
    pub fn undo_to(&mut self, mark: &Mark)
        requires { mark.now ≤ length self.old.before }
        ensures { states self.new ≡ drop (length self.old.before - mark.now) (states self.old) }
    {
        while self.contents.trail.len() > mark.changes {
            self.undo();
        }
    }
}

//! What a store holds, and each of its changes with the way back.
ghost use Rattle.std.specs.Prelude.{◌≡◌, ◌<◌, ◌≤◌, ◌+◌, ◌-◌, OnOk, OnErr, IfOk, vec_len, option_map, slice_get, Some, None};
ghost use Rattle.std.specs.Vec.{vec_capacity};
ghost use Rattle.tw_terms.specs.OpenView.{open_term_of, open_type_of};
ghost use Rattle.tw_metas.specs.State.{with_declared, with_equation, without_equation, value_of};
ghost use Rattle.tw_metas.specs.Undoing.{undone, valued};
ghost use Rattle.tw_metas.specs.View.{state_of, equation_of};
ghost use Rattle.tw_metas.specs.declared.change.Change.TheVariants as changes;

use crate::change::Change;
use crate::equation::Equation;
use std::alloc::{AllocError, Global};
use tw_terms::{Open, OpenContext, OpenTy};

/// A metavariable: the context that it stands in, its type there, and its value, if it is bound.
#[derive(Debug, Drop)]
pub struct Metavariable {
    pub context: OpenContext,
    pub ty: OpenTy,
    pub value: Option<Open>,
}

/// The metavariables by number, how many of them are bound, the postponed equations, and the changes that stand, the newest last.
#[derive(Drop)]
pub struct Contents {
    pub metas: Vec<Metavariable>,
    pub bound: usize,
    pub equations: Vec<Box<Equation>>,
    pub trail: Vec<Change>,
}

impl Contents {
    /// What was said of a metavariable when it was declared.
    pub fn about(&self, meta: usize) -> Option<(&OpenContext, &OpenTy)>
        ensures { option_map (λ p. record { context = p.0.now; of_type = open_type_of p.1.now }) result ≡ slice_get (state_of self.now).declared meta }
    {
        match self.metas.get(meta) {
            Some(found) => Some((&found.context, &found.ty)),
            None => None,
        }
    }

    /// The value of a metavariable, if it is bound.
    pub fn value(&self, meta: usize) -> Option<&Open>
        ensures { option_map (λ v. open_term_of v.now) result ≡ value_of (state_of self.now) meta }
    {
        match self.metas.get(meta) {
            Some(found) => match &found.value {
                Some(value) => Some(value),
                None => None,
            },
            None => None,
        }
    }

    /// One metavariable more.
    pub fn declare(&mut self, context: OpenContext, ty: OpenTy) -> Result<(), AllocError>
        ensures ok { OnOk result (state_of self.new ≡ with_declared (state_of self.old) context (open_type_of ty)) }
        ensures err { OnErr result (state_of self.new ≡ state_of self.old) }
        ensures equations { self.new.equations ≡ self.old.equations }
        ensures bound { self.new.bound ≡ self.old.bound }
        ensures trail { self.new.trail ≡ self.old.trail }
    {
        self.metas.push(Metavariable {
            context,
            ty,
            value: None,
        })?;
        Ok(())
    }

    /// The value of a metavariable, whose binding is noted.
    pub fn bind(&mut self, meta: usize, value: Open)
        requires there { meta < vec_len self.old.metas }
        requires room { self.old.bound < vec_len self.old.trail }
        ensures state { state_of self.new ≡ valued (state_of self.old) meta (Some (open_term_of value)) }
        ensures equations { self.new.equations ≡ self.old.equations }
        ensures bound { self.new.bound ≡ self.old.bound + 1 }
        ensures trail { self.new.trail ≡ self.old.trail }
    {
        self.metas[meta].value = Some(value);
        self.bound += 1;
    }

    /// Takes the newest metavariable away.
    pub fn undo_declared(&mut self)
        ensures state { state_of self.new ≡ undone changes.Declared (state_of self.old) }
        ensures equations { self.new.equations ≡ self.old.equations }
        ensures bound { self.new.bound ≡ self.old.bound }
        ensures trail { self.new.trail ≡ self.old.trail }
    {
        self.metas.pop();
    }

    /// Takes the value of a metavariable away, whose binding isn't noted any more.
    pub fn undo_bound(&mut self, meta: usize)
        requires { 0 < self.old.bound }
        ensures state { state_of self.new ≡ valued (state_of self.old) meta None }
        ensures equations { self.new.equations ≡ self.old.equations }
        ensures bound { self.new.bound + 1 ≡ self.old.bound }
        ensures trail { self.new.trail ≡ self.old.trail }
    {
        self.bound -= 1;
        if meta < self.metas.len() {
            self.metas[meta].value = None;
        }
    }

    /// One equation more, behind the others.
    pub fn postpone(&mut self, equation: Box<Equation>) -> Result<(), AllocError>
        ensures ok { OnOk result (state_of self.new ≡ with_equation (state_of self.old) (equation_of equation.value)) }
        ensures len { OnOk result (vec_len self.new.equations ≡ vec_len self.old.equations + 1) }
        ensures err { OnErr result (state_of self.new ≡ state_of self.old) }
        ensures same_len { OnErr result (vec_len self.new.equations ≡ vec_len self.old.equations) }
        ensures room { vec_capacity self.old.equations ≤ vec_capacity self.new.equations }
        ensures bound { self.new.bound ≡ self.old.bound }
        ensures trail { self.new.trail ≡ self.old.trail }
    {
        self.equations.push(equation)?;
        Ok(())
    }

    /// Takes the newest equation away.
    pub fn undo_postponed(&mut self)
        ensures state { state_of self.new ≡ undone changes.Postponed (state_of self.old) }
        ensures len { vec_len self.new.equations ≡ vec_len self.old.equations - 1 }
        ensures room { vec_capacity self.new.equations ≡ vec_capacity self.old.equations }
        ensures bound { self.new.bound ≡ self.old.bound }
        ensures trail { self.new.trail ≡ self.old.trail }
    {
        self.equations.pop();
    }

    /// Takes out the equation at this place.
    pub fn settle(&mut self, at: usize) -> Box<Equation>
        requires { at < vec_len self.old.equations }
        ensures state { state_of self.new ≡ without_equation (state_of self.old) at }
        ensures back { undone (changes.Settled at result) (state_of self.new) ≡ state_of self.old }
        ensures len { vec_len self.new.equations + 1 ≡ vec_len self.old.equations }
        ensures room { vec_capacity self.new.equations ≡ vec_capacity self.old.equations }
        ensures bound { self.new.bound ≡ self.old.bound }
        ensures trail { self.new.trail ≡ self.old.trail }
    {
        self.equations.remove(at)
    }

    /// Puts an equation back in its place, for which there is room.
    pub fn put_back(&mut self, at: usize, equation: Box<Equation>)
        requires place { at ≤ vec_len self.old.equations }
        requires room { vec_len self.old.equations < vec_capacity self.old.equations }
        ensures state { state_of self.new ≡ undone (changes.Settled at equation) (state_of self.old) }
        ensures len { vec_len self.new.equations ≡ vec_len self.old.equations + 1 }
        ensures same_room { vec_capacity self.new.equations ≡ vec_capacity self.old.equations }
        ensures bound { self.new.bound ≡ self.old.bound }
        ensures trail { self.new.trail ≡ self.old.trail }
    {
        match self.equations.insert(at, equation) {
            Ok(()) => (),
            Err(_) => unreachable!(),
        }
    }
}

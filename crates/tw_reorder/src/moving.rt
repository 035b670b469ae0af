//! Types, terms and the context moved to another order of the variables.
ghost use Rattle.std.specs.Prelude.{◌≡◌, [], ◌+◌, suc, IfOk, OnOk, length, map, slice_get};
ghost use Rattle.lf.specs.AtOnce.{lift_renaming_by};
ghost use Rattle.lf.specs.Syntax.{rename, rename_head, rename_spine, rename_type};
ghost use Rattle.tw_terms.specs.View.{head_of, spine_of, term_of, type_of};
ghost use Rattle.tw_reorder.specs.Moving.{moved, moved_types, place_in, with_type};

use std::alloc::{AllocError, Global};
use tw_abstract::Positions;
use tw_terms::numbers::one_more;
use tw_terms::{Context, Head, MetaId, Spine, Term, Ty};

/// How variables are moved: to their place in the order. They stand so many variables further out than those of what is moved, and are then seen from so many further out.
#[derive(Clone, Copy)]
pub struct Moves<'a> {
    pub order: &'a Positions,
    pub shift: u64,
    pub less: u64,
}

impl Moves<'_> {
    // Where a variable is moved. Fails where no context in memory is so long.
    fn variable(&self, variable: u64) -> Result<u64, AllocError>
        ensures { IfOk result (λ i. i ≡ moved self.now.order.now self.now.shift self.now.less variable) }
    {
        let outside = variable.checked_add(self.shift).ok_or(AllocError)?;
        let place = place(self.order, outside);
        Ok(place.saturating_sub(self.less))
    }
}

// Where the order puts a variable.
fn place(order: &Positions, variable: u64) -> u64
    ensures { result ≡ place_in order.now variable }
{
    match order.variable(MetaId(variable)) {
        Some(place) => place,
        None => variable,
    }
}

// The head under so many binders. Fails where no context in memory is so long.
fn moved_head(moves: &Moves, head: Head, under: u64) -> Result<Head, AllocError>
    ensures { IfOk result (λ h. head_of h ≡ rename_head (lift_renaming_by under (moved moves.now.order.now moves.now.shift moves.now.less)) (head_of head)) }
{
    match head {
        Head::Const(id) => Ok(Head::Const(id)),
        Head::Var(variable) => {
            if variable < under {
                return Ok(Head::Var(variable));
            }
            let moved = moves.variable(variable - under)?;
            Ok(Head::Var(moved.checked_add(under).ok_or(AllocError)?))
        }
    }
}

/// The term, whose newest variables stay, moved.
#[cycle(moving)]
pub fn moved_term(alloc: Global, moves: &Moves, term: &Term, under: u64) -> Result<Term, AllocError>
    ensures { IfOk result (λ m. term_of m ≡ rename (lift_renaming_by under (moved moves.now.order.now moves.now.shift moves.now.less)) (term_of term.now)) }
{
    match term {
        Term::Lam(body) => {
            let inside = one_more(under)?;
            let body = moved_term(alloc, moves, body, inside)?;
            Ok(Term::Lam(Box::new(alloc, body)?))
        }
        Term::Root(head, spine) => {
            let spine = moved_spine(alloc, moves, spine, under)?;
            Ok(Term::Root(moved_head(moves, *head, under)?, spine))
        }
    }
}

#[cycle(moving)]
fn moved_spine(alloc: Global, moves: &Moves, spine: &Spine, under: u64) -> Result<Spine, AllocError>
    ensures { IfOk result (λ s. spine_of s ≡ rename_spine (lift_renaming_by under (moved moves.now.order.now moves.now.shift moves.now.less)) (spine_of spine.now)) }
{
    let mut args = Vec::with_capacity(alloc, spine.args.len())?;
    for arg in &spine.args {
        args.push(moved_term(alloc, moves, arg, under)?)?;
    }
    Ok(Spine { args })
}

/// The same of a type.
pub fn moved_type(alloc: Global, moves: &Moves, ty: &Ty, under: u64) -> Result<Ty, AllocError>
    ensures { IfOk result (λ a. type_of a ≡ rename_type (lift_renaming_by under (moved moves.now.order.now moves.now.shift moves.now.less)) (type_of ty.now)) }
{
    match ty {
        Ty::Pi(domain, range) => {
            let inside = one_more(under)?;
            let domain = moved_type(alloc, moves, domain, under)?;
            let range = moved_type(alloc, moves, range, inside)?;
            Ok(Ty::Pi(Box::new(alloc, domain)?, Box::new(alloc, range)?))
        }
        Ty::Atom(family, spine) => {
            Ok(Ty::Atom(*family, moved_spine(alloc, moves, spine, under)?))
        }
    }
}

// Adds the type of a variable, seen from so many variables further out than all of them, to the new context.
fn add_type(
    alloc: Global,
    context: &Context,
    order: &Positions,
    variable: u64,
    less: u64,
    moved: &mut Context,
) -> Result<(), AllocError>
    ensures { OnOk result (moved.new ≡ with_type order.now variable less (slice_get context.now variable) moved.old) }
{
    let Some(ty) = context.get(variable) else {
        return Ok(());
    };
    let moves = Moves {
        order,
        shift: one_more(variable)?,
        less,
    };
    moved.push(moved_type(alloc, &moves, ty, 0)?)?;
    Ok(())
}

/// The context in the order of its variables.
pub fn moved_context(
    alloc: Global,
    context: &Context,
    order: &Positions,
) -> Result<Context, AllocError>
    ensures { IfOk result (λ g. g ≡ moved_types context.now order.now order.now []) }
{
    let mut moved = Context::new(alloc);
    let variables = order.metas();
    for place in 0..variables.len() {
        let inside = (variables.len() - place) as u64;
        add_type(
            alloc,
            context,
            order,
            variables[place].0,
            inside,
            &mut moved,
        )?;
    }
    Ok(moved)
}

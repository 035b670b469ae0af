//! The items of a sequence put together by their levels, from left to right.
ghost use Rattle.std.specs.Prelude.{◌≡◌, IfOk, OnOk, None, Some, [], false};
ghost use Rattle.tw_parse.specs.Grammar.{joined, applied};
ghost use Rattle.tw_parse.specs.Piles.{waits, yields, made, settle, settle_all, with_atom, with_sign, outcome, step, newest_takes, stack_of, side_of, state_of, settled_of, term_for, first_fault, Concludes};
ghost use Rattle.tw_parse.specs.Grammar.{atom, sign};
ghost use Rattle.tw_parse.specs.Syntax.{application};
ghost use Rattle.tw_parse.specs.View.{term_of};
ghost use Rattle.std.specs.Option.{option_map};

use crate::parts::Part;
use crate::sign::{Level, Side, Sign, fits, left_of, level_of, right_of};
use crate::term::ExtTerm;
use crate::words::Separator;
use std::alloc::{AllocError, Global};
use tw_lexer::Place;

/// A sign that waits for its right side, with its left one, if it has one.
#[derive(Debug, Drop)]
pub struct Pending {
    left: Option<ExtTerm>,
    by: Sign,
}

/// What is read last, with the level of its outermost form.
#[derive(Debug, Drop)]
pub struct Operand {
    term: ExtTerm,
    level: Level,
}

/// The items of a sequence so far.
#[derive(Debug, Drop)]
pub struct Pile {
    pending: Vec<Pending>,
    current: Option<Operand>,
    /// The first sequence inside that has not one reading.
    inner: Option<Place>,
    /// Whether the sequence itself has not one reading.
    at_fault: bool,
}

// Whether the first sign can wait while the second takes what stands between.
fn waits(first: &Sign, second: &Sign) -> bool
    ensures { result ≡ waits first.now second.now }
{
    fits(right_of(first), level_of(first), level_of(second))
}

// Whether the second sign can have what the first makes on its left.
fn yields(first: &Sign, second: &Sign) -> bool
    ensures { result ≡ yields first.now second.now }
{
    fits(left_of(second), level_of(second), level_of(first))
}

fn apply(alloc: Global, function: ExtTerm, argument: ExtTerm) -> Result<ExtTerm, AllocError>
    ensures { IfOk result (λ t. term_of t ≡ application (term_of function) (term_of argument)) }
{
    let function = Box::new(alloc, function)?;
    Ok(ExtTerm::App(function, Box::new(alloc, argument)?))
}

fn joined(alloc: Global, sign: Sign, left: ExtTerm, right: ExtTerm) -> Result<ExtTerm, AllocError>
    ensures { IfOk result (λ t. term_of t ≡ joined sign (term_of left) (term_of right)) }
{
    match sign {
        Sign::Separator(by) => {
            let left = Box::new(alloc, left)?;
            let right = Box::new(alloc, right)?;
            match by {
                Separator::Forward => Ok(ExtTerm::Arrow(left, right)),
                Separator::Backward => Ok(ExtTerm::Arrow(right, left)),
                Separator::Colon => Ok(ExtTerm::Ascribe(left, right)),
            }
        }
        Sign::Operator(name, at, _) => {
            let once = apply(alloc, ExtTerm::Ident(name, at), left)?;
            apply(alloc, once, right)
        }
    }
}

// The operator with its one side.
fn applied(alloc: Global, sign: Sign, side: ExtTerm) -> Result<ExtTerm, AllocError>
    ensures { IfOk result (λ t. term_of t ≡ applied sign (term_of side)) }
{
    match sign {
        Sign::Separator(_) => Ok(side),
        Sign::Operator(name, at, _) => apply(alloc, ExtTerm::Ident(name, at), side),
    }
}

fn made(
    alloc: Global,
    left: Option<ExtTerm>,
    by: Sign,
    right: ExtTerm,
) -> Result<ExtTerm, AllocError>
    ensures { IfOk result (λ t. term_of t ≡ made (option_map term_of left) by (term_of right)) }
{
    match left {
        None => applied(alloc, by, right),
        Some(left) => joined(alloc, by, left, right),
    }
}

// Gives the signs that do not wait for the next one their right sides; none where both could stand, or neither.
fn settle(
    alloc: Global,
    pending: &mut Vec<Pending>,
    last: Operand,
    next: &Sign,
) -> Result<Option<Operand>, AllocError>
    ensures { IfOk result (λ o. settled_of pending.new.items o ≡ settle (stack_of pending.old.items) (side_of last) next.now) }
{
    let mut term = last.term;
    let mut level = last.level;
    while let Some(top) = pending.pop() {
        let stays = waits(&top.by, next);
        let goes = yields(&top.by, next);
        if stays {
            pending.push(top)?;
            if goes {
                return Ok(None);
            }
            return Ok(Some(Operand { term, level }));
        }
        let own = level_of(&top.by);
        if !goes || !fits(right_of(&top.by), own, level) {
            return Ok(None);
        }
        term = made(alloc, top.left, top.by, term)?;
        level = own;
    }
    Ok(Some(Operand { term, level }))
}

// Gives all signs their right sides; none where one does not fit.
fn settle_all(
    alloc: Global,
    pending: Vec<Pending>,
    last: Operand,
) -> Result<Option<Operand>, AllocError>
    ensures { IfOk result (λ o. option_map side_of o ≡ settle_all (stack_of pending.items) (side_of last)) }
{
    let mut pending = pending;
    let mut term = last.term;
    let mut level = last.level;
    while let Some(top) = pending.pop() {
        let own = level_of(&top.by);
        if !fits(right_of(&top.by), own, level) {
            return Ok(None);
        }
        term = made(alloc, top.left, top.by, term)?;
        level = own;
    }
    Ok(Some(Operand { term, level }))
}

// Whether the newest sign can have a term of this level on its right.
fn newest_takes(pending: &[Pending], level: Level) -> bool
    ensures { result ≡ newest_takes (stack_of pending.now) level }
{
    match pending.last() {
        None => true,
        Some(top) => fits(right_of(&top.by), level_of(&top.by), level),
    }
}

impl Pile {
    /// The pile of no item.
    pub fn new(alloc: Global) -> Pile
        ensures state { state_of result ≡ Some ([], None) }
        ensures inner { result.inner ≡ None }
    {
        Pile {
            pending: Vec::new(alloc),
            current: None,
            inner: None,
            at_fault: false,
        }
    }

    // One more term, as an argument of what stands before it.
    fn argument(&mut self, alloc: Global, argument: ExtTerm) -> Result<(), AllocError>
        ensures state { OnOk result (state_of self.new ≡ step (state_of self.old) (atom (term_of argument))) }
        ensures inner { OnOk result (self.new.inner ≡ self.old.inner) }
    {
        if self.at_fault {
            return Ok(());
        }
        match self.current.take() {
            None => {
                self.current = Some(Operand {
                    term: argument,
                    level: Level::Application,
                });
            }
            Some(last) => {
                if last.level == Level::Application {
                    let term = apply(alloc, last.term, argument)?;
                    self.current = Some(Operand {
                        term,
                        level: Level::Application,
                    });
                } else {
                    self.at_fault = true;
                }
            }
        }
        Ok(())
    }

    /// One more part, as an argument of what stands before it.
    pub fn apply(&mut self, alloc: Global, part: Part) -> Result<(), AllocError>
        ensures state { OnOk result (state_of self.new ≡ step (state_of self.old) (atom (term_for part))) }
        ensures inner { OnOk result (self.new.inner ≡ first_fault self.old.inner part) }
    {
        match part {
            Part::Term(term) => self.argument(alloc, term),
            Part::AtFault(place) => {
                if self.inner.is_none() {
                    self.inner = Some(place);
                }
                self.argument(alloc, ExtTerm::Star)
            }
        }
    }

    // One more sign, where nothing stands before it.
    fn lead(&mut self, by: Sign) -> Result<(), AllocError>
        requires begun { self.old.current ≡ None }
        requires good { self.old.at_fault ≡ false }
        ensures state { OnOk result (state_of self.new ≡ step (state_of self.old) (sign by)) }
        ensures inner { OnOk result (self.new.inner ≡ self.old.inner) }
    {
        if left_of(&by) == Side::Absent && newest_takes(&self.pending, level_of(&by)) {
            self.pending.push(Pending { left: None, by })?;
        } else {
            self.at_fault = true;
        }
        Ok(())
    }

    // One more sign behind this side.
    fn follow(&mut self, alloc: Global, last: Operand, by: Sign) -> Result<(), AllocError>
        requires begun { self.old.current ≡ None }
        requires good { self.old.at_fault ≡ false }
        ensures state { OnOk result (state_of self.new ≡ with_sign (stack_of self.old.pending.items) (Some (side_of last)) by) }
        ensures inner { OnOk result (self.new.inner ≡ self.old.inner) }
    {
        let own = level_of(&by);
        match settle(alloc, &mut self.pending, last, &by)? {
            None => self.at_fault = true,
            Some(left) => {
                if !fits(left_of(&by), own, left.level) {
                    self.at_fault = true;
                } else if right_of(&by) == Side::Absent {
                    let term = applied(alloc, by, left.term)?;
                    self.current = Some(Operand { term, level: own });
                } else {
                    let left = Some(left.term);
                    self.pending.push(Pending { left, by })?;
                }
            }
        }
        Ok(())
    }

    /// One more sign.
    pub fn put(&mut self, alloc: Global, by: Sign) -> Result<(), AllocError>
        ensures state { OnOk result (state_of self.new ≡ step (state_of self.old) (sign by)) }
        ensures inner { OnOk result (self.new.inner ≡ self.old.inner) }
    {
        if self.at_fault {
            return Ok(());
        }
        match self.current.take() {
            None => self.lead(by),
            Some(last) => self.follow(alloc, last, by),
        }
    }

    /// What the sequence is read as, where it begins here.
    pub fn finish(self, alloc: Global, first: Place) -> Result<Part, AllocError>
        ensures { IfOk result (λ part. Concludes first self.inner (outcome (state_of self)) part) }
    {
        let Pile {
            pending,
            current,
            inner,
            at_fault,
        } = self;
        if at_fault {
            return Ok(Part::AtFault(first));
        }
        let Some(last) = current else {
            return Ok(Part::AtFault(first));
        };
        match settle_all(alloc, pending, last)? {
            None => Ok(Part::AtFault(first)),
            Some(whole) => match inner {
                Some(place) => Ok(Part::AtFault(place)),
                None => Ok(Part::Term(whole.term)),
            },
        }
    }
}

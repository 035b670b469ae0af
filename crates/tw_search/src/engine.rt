//! The steps of the engine: at a goal the heads are tried one after the other, and a leaf is shown.
ghost use Rattle.std.specs.Prelude.{◌≡◌, ◌+◌, ◌-◌, ◌≤◌, ◌<◌, ◌∷◌, [], ℕ, IfOk, List, MatchOption, None, OnErr, OnOk, Option, Some, drop, length, option_map, reverse};
ghost use Rattle.lf.specs.Entries.{Entry};
ghost use Rattle.lf.specs.Syntax.{LfType};
ghost use Rattle.lf_unification.specs.Search.{Pending};
ghost use Rattle.tw_metas.specs.State.{Story, states};
ghost use Rattle.tw_terms.specs.View.{head_of};
ghost use Rattle.tw_unify.specs.Reaching.{IsKnown, marking_of};
ghost use Rattle.tw_search.specs.Chains.{IsFirst, frames_of};
ghost use Rattle.tw_search.specs.Going.{GivesOut, GivesOutTrying, GivesOutUp, Goes, GoesUp, Nears, NearsBelow, Tried, step_of};
ghost use Rattle.tw_search.specs.Standing.{Came, IsAt, IsTakenUp, TriesHead};
ghost use Rattle.tw_search.specs.declared.step.Place.TheVariants as places;

use crate::answer::read_answer;
use crate::choice::next_head;
use crate::frames::Frame;
use crate::goal::open_goal;
use crate::left::first_equation;
use crate::search::Search;
use crate::step::{Choice, End, Place, Step, Stop};
use crate::trying::{attempt, heads_clash};
use std::alloc::{AllocError, Global};
use tw_hered::HeredFault;
use tw_metas::{Mark, Store};
use tw_signature::Signature;
use tw_terms::Head;
use tw_unify::{UnifyFault, Walk};

impl Search {
    /// At the first goal of a node, which is not a leaf, the heads are tried at once.
    pub(crate) fn enter(
        &mut self,
        alloc: Global,
        signature: &Signature,
        last: u64,
        list: usize,
        frame: Frame,
    ) -> Result<Option<Stop>, AllocError>
        requires place { self.old.place ≡ places.Node list }
        requires first { IsFirst (frames_of self.old.frames) list (Some frame) }
        requires at { (agenda : List Pending) × IsAt signature.now self.old agenda }
        requires within { self.old.tries ≤ last }
        ensures goes { IfOk result (λ o. Goes signature.now last self.old self.new (option_map step_of o)) }
        ensures gave_out { OnErr result (GivesOut signature.now last self.old self.new) }
        ensures nears { IfOk result (λ o. Nears last self.old self.new (option_map step_of o)) }
    {
        let goal = open_goal(alloc, &self.store, frame.hole)?;
        let choice = Choice {
            mark: self.store.mark(),
            frames: self.frames.len(),
            goal,
            rest: frame.next,
            local: 0,
            constant: 0,
        };
        self.place = Place::Heads;
        self.take_up(alloc, signature, last, choice)
    }

    /// What is shown of a leaf.
    pub(crate) fn leaf(
        &mut self,
        alloc: Global,
        signature: &Signature,
        list: usize,
    ) -> Result<Step, AllocError>
        requires place { self.old.place ≡ places.Node list }
        requires first { IsFirst (frames_of self.old.frames) list None }
        requires at { (agenda : List Pending) × IsAt signature.now self.old agenda }
        ensures came { IfOk result (λ s. (G : List LfType) → length G ≡ self.old.variables → (agenda : List Pending) → IsAt signature.now self.old agenda → (budget : ℕ) → Came signature.now G self.old self.new agenda budget s) }
        ensures gave_out { OnErr result (self.new.tries ≡ self.old.tries) }
    {
        signature.is_canonical();
        match self.store.equations().first() {
            Some(_) => match first_equation(alloc, signature, &self.store, &self.goal) {
                Ok(left) => {
                    self.place = Place::Heads;
                    Ok(Step::Leftover(left))
                }
                Err(UnifyFault::TooDeep) => {
                    self.place = Place::Over(End::TooDeep);
                    Ok(Step::TooDeep)
                }
                Err(UnifyFault::NoMemory) => Err(AllocError),
            },
            None => match read_answer(
                alloc,
                &self.store,
                self.variables,
                self.goal.proof.is_some(),
            ) {
                Ok(answer) => {
                    self.place = Place::Heads;
                    Ok(Step::Answer(answer))
                }
                Err(HeredFault::TooDeep) => {
                    self.place = Place::Over(End::TooDeep);
                    Ok(Step::TooDeep)
                }
                Err(HeredFault::NoMemory) => Err(AllocError),
            },
        }
    }

    /// The next head at the newest choice point.
    pub(crate) fn retry(
        &mut self,
        alloc: Global,
        signature: &Signature,
        last: u64,
    ) -> Result<Option<Stop>, AllocError>
        requires place { self.old.place ≡ places.Heads }
        requires at { (agenda : List Pending) × IsAt signature.now self.old agenda }
        requires within { self.old.tries ≤ last }
        ensures goes { IfOk result (λ o. Goes signature.now last self.old self.new (option_map step_of o)) }
        ensures gave_out { OnErr result (GivesOut signature.now last self.old self.new) }
        ensures nears { IfOk result (λ o. Nears last self.old self.new (option_map step_of o)) }
    {
        match pop_choice(&mut self.choices) {
            None => {
                self.place = Place::Over(End::Exhausted);
                Ok(Some(Stop::Exhausted))
            }
            Some(choice) => {
                forget(alloc, &mut self.met, &self.store, &choice.mark);
                self.store.undo_to(&choice.mark);
                self.frames.shrink_to(choice.frames);
                self.take_up(alloc, signature, last, choice)
            }
        }
    }

    /// The next head at a choice point, with the store and the frames as they were there. A head that clashes with the goal is a try that gives no child and changes nothing of the store:
    /// such heads are passed over while the choice point is in hand, up to one that doesn't clash.
    fn take_up(
        &mut self,
        alloc: Global,
        signature: &Signature,
        last: u64,
        choice: Choice,
    ) -> Result<Option<Stop>, AllocError>
        requires place { self.old.place ≡ places.Heads }
        requires up { (agenda : List Pending) × IsTakenUp signature.now self.old choice agenda }
        requires within { self.old.tries ≤ last }
        ensures goes { IfOk result (λ o. GoesUp signature.now last self.old self.new choice (option_map step_of o)) }
        ensures gave_out { OnErr result (GivesOutUp signature.now last self.old self.new choice) }
        ensures nears { IfOk result (λ o. NearsBelow last self.old self.new (option_map step_of o)) }
    {
        signature.is_canonical();
        let mut choice = choice;
        'heads: loop {
            let next = next_head(
                signature,
                &choice.goal.locals,
                choice.goal.family,
                choice.local,
                choice.constant,
            );
            match next {
                None => return Ok(None),
                Some(next) => {
                    if self.tries == last {
                        push_choice(&mut self.choices, choice)?;
                        return Ok(Some(Stop::Budget));
                    }
                    choice.local = next.local;
                    choice.constant = next.constant;
                    if heads_clash(&self.store, signature, &choice.goal, next.head) {
                        self.tries += 1;
                    } else {
                        return self.try_head(alloc, signature, last, choice, next.head);
                    }
                }
            }
        }
    }

    /// Tries a head at a choice point, which is behind that head already.
    fn try_head(
        &mut self,
        alloc: Global,
        signature: &Signature,
        last: u64,
        choice: Choice,
        head: Head,
    ) -> Result<Option<Stop>, AllocError>
        requires place { self.old.place ≡ places.Heads }
        requires tries { (agenda : List Pending) × TriesHead signature.now self.old choice (head_of head) agenda }
        requires within { self.old.tries < last }
        ensures tried { IfOk result (λ o. Tried signature.now last self.old self.new choice (head_of head) (option_map step_of o)) }
        ensures gave_out { OnErr result (GivesOutTrying signature.now last self.old self.new choice (head_of head)) }
        ensures nears { IfOk result (λ o. NearsBelow last self.old self.new (option_map step_of o)) }
    {
        signature.is_canonical();
        match attempt(
            alloc,
            &mut self.store,
            signature,
            &mut self.met,
            &choice.goal,
            head,
        ) {
            Ok(None) => {
                self.tries += 1;
                push_choice(&mut self.choices, choice)?;
                Ok(None)
            }
            Ok(Some(subgoals)) => {
                self.tries += 1;
                let list = self.frames.push_all(&subgoals, choice.rest)?;
                push_choice(&mut self.choices, choice)?;
                self.place = Place::Node(list);
                Ok(None)
            }
            Err(UnifyFault::TooDeep) => {
                self.place = Place::Over(End::TooDeep);
                Ok(Some(Stop::TooDeep))
            }
            Err(UnifyFault::NoMemory) => Err(AllocError),
        }
    }
}

/// What was met is forgotten where something is to be taken back.
fn forget(alloc: Global, met: &mut Walk, store: &Store, mark: &Mark)
    requires { IsKnown store.now.now (marking_of met.old) }
    ensures { (y : Story) → states y ≡ drop (length store.now.before - mark.now) (states store.now) → IsKnown y.now (marking_of met.new) }
{
    if !store.is_at(mark) {
        met.forget(alloc);
    }
}

/// One more choice point, the newest.
fn push_choice(choices: &mut Vec<Choice>, choice: Choice) -> Result<(), AllocError>
    ensures { OnOk result (reverse choices.new.items ≡ choice ∷ reverse choices.old.items) }
{
    choices.push(choice)?;
    Ok(())
}

/// Takes away the newest choice point.
fn pop_choice(choices: &mut Vec<Choice>) -> Option<Choice>
    ensures { MatchOption result (reverse choices.old.items ≡ []) (λ c. reverse choices.old.items ≡ c ∷ reverse choices.new.items) }
{
    choices.pop()
}

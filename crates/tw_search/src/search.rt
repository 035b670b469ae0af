//! The search as a value: the goals that wait, the choice points, and the store with a mark for each choice point.
ghost use Rattle.std.specs.Prelude.{◌≡◌, ◌+◌, ◌-◌, ◌≤◌, ◌<◌, ◌^◌, ◌∷◌, [], ℕ, IfOk, List, OnErr, Err, Ok, alloc_error, length};
ghost use Rattle.lf.specs.Entries.{Entry, IsCanonicalSignature, signature_of};
ghost use Rattle.lf.specs.Syntax.{LfType};
ghost use Rattle.lf.specs.Typing.{IsContext, IsType};
ghost use Rattle.lf_unification.specs.Search.{Node, Pending, at_node};
ghost use Rattle.lf_search.specs.Goals.{root_of};
ghost use Rattle.tw_signature.specs.Goal.{Goal as Asked, goal_of};
ghost use Rattle.tw_terms.specs.View.{type_of};
ghost use Rattle.tw_search.specs.Going.{GivesOut, step_of};
ghost use Rattle.tw_search.specs.Standing.{Came, GaveOut, IsAt, IsOver, IsSearch, Stands, StepIs, tries_of};
ghost use Rattle.tw_search.specs.declared.step.End.TheVariants as ends;

use crate::frames::Frames;
use crate::root::declare_root;
use crate::step::{Choice, End, Place, Step, Stop};
use std::alloc::{AllocError, Global};
use tw_metas::Store;
use tw_signature::{Goal, Signature};
use tw_unify::Walk;

/// A search for the proofs of a goal.
#[derive(Drop)]
pub struct Search {
    pub(crate) store: Store,
    pub(crate) frames: Frames,
    pub(crate) choices: Vec<Choice>,
    /// What occurs checks met and still know: it is forgotten where something is taken back, where a hole of it is bound, or where an equation isn't a whole binding.
    pub(crate) met: Walk,
    pub(crate) place: Place,
    /// How many variables the goal has: they are the first metavariables, and the hole of the proof is the next one.
    pub(crate) variables: u64,
    /// Its variables name those of an equation that is left, and its name for the proof says whether the proof is read.
    pub(crate) goal: Goal,
    pub(crate) tries: u64,
}

impl Search {
    /// A search at the root of the goal's tree. Fails only for want of memory.
    pub fn new(alloc: Global, goal: &Goal) -> Result<Search, AllocError>
        ensures stands { IfOk result (λ s. (es : List Entry) → IsCanonicalSignature es → IsContext (signature_of es) goal.now.variables → IsType (signature_of es) goal.now.variables (type_of goal.now.goal) → Stands es (goal_of goal.now) s [] (at_node (root_of goal.now.variables (type_of goal.now.goal)) ∷ [])) }
        ensures tries { IfOk result (λ s. tries_of s ≡ 0) }
    {
        let mut store = Store::new(alloc);
        let hole = declare_root(alloc, &mut store, &goal.variables, &goal.goal)?;
        let mut frames = Frames::new(alloc);
        let root = frames.push(hole, 0)?;
        let choices = Vec::new(alloc);
        let variables = goal.variables.len() as u64;
        let asked = goal.copy(alloc)?;
        Ok(Search {
            store,
            frames,
            choices,
            met: Walk::new(alloc),
            place: Place::Node(root),
            variables,
            goal: asked,
            tries: 0,
        })
    }

    /// How many tries were made.
    pub fn tries(&self) -> u64
        ensures { result ≡ tries_of self.now }
    {
        self.tries
    }

    /// The next leaf in the order of the tree, or the end of the tree or of the budget, which is a number of tries. Over one signature, all calls search one tree.
    ///
    /// After `Budget` the search stands where it was, and goes on with the next call. After `Exhausted`, `TooDeep` or want of memory each later call answers the same; tries that were made
    /// before memory gave out are counted.
    pub fn next(
        &mut self,
        alloc: Global,
        signature: &Signature,
        budget: u64,
    ) -> Result<Step, AllocError>
        requires search { IsSearch signature.now self.old }
        requires budget { tries_of self.old + budget < 2 ^ 64 }
        ensures step { IfOk result (λ s. (g : Asked) (leaves : List Node) (agenda : List Pending) → Stands signature.now g self.old leaves agenda → StepIs signature.now g self.old self.new leaves agenda budget s) }
        ensures exhausted { IsOver ends.Exhausted self.old → (result ≡ Ok Step.Exhausted) × (self.new ≡ self.old) }
        ensures too_deep { IsOver ends.TooDeep self.old → (result ≡ Ok Step.TooDeep) × (self.new ≡ self.old) }
        ensures no_memory { IsOver ends.NoMemory self.old → (result ≡ Err alloc_error) × (self.new ≡ self.old) }
        ensures err { OnErr result (IsOver ends.NoMemory self.new) }
        ensures gave_out { OnErr result ((g : Asked) (leaves : List Node) (agenda : List Pending) → Stands signature.now g self.old leaves agenda → GaveOut signature.now self.old self.new agenda (tries_of self.old + budget)) }
        ensures again { IsSearch signature.now self.new }
    {
        match self.place {
            Place::Over(end) => over(end),
            Place::Node(_) => self.go_on(alloc, signature, budget),
            Place::Heads => self.go_on(alloc, signature, budget),
        }
    }

    /// The same of a search that isn't over.
    fn go_on(
        &mut self,
        alloc: Global,
        signature: &Signature,
        budget: u64,
    ) -> Result<Step, AllocError>
        requires at { (agenda : List Pending) × IsAt signature.now self.old agenda }
        requires budget { self.old.tries + budget < 2 ^ 64 }
        ensures came { IfOk result (λ s. (G : List LfType) → length G ≡ self.old.variables → (agenda : List Pending) → IsAt signature.now self.old agenda → Came signature.now G self.old self.new agenda budget s) }
        ensures gave_out { OnErr result (GivesOut signature.now (self.old.tries + budget) self.old self.new) }
        ensures err { OnErr result (IsOver ends.NoMemory self.new) }
    {
        let last = self.tries + budget;
        match self.run(alloc, signature, last) {
            Ok(step) => Ok(step),
            Err(error) => {
                self.place = Place::Over(End::NoMemory);
                Err(error)
            }
        }
    }

    /// Steps of the engine, until there is something to show.
    fn run(&mut self, alloc: Global, signature: &Signature, last: u64) -> Result<Step, AllocError>
        requires at { (agenda : List Pending) × IsAt signature.now self.old agenda }
        requires within { self.old.tries ≤ last }
        ensures came { IfOk result (λ s. (G : List LfType) → length G ≡ self.old.variables → (agenda : List Pending) → IsAt signature.now self.old agenda → Came signature.now G self.old self.new agenda (last - self.old.tries) s) }
        ensures gave_out { OnErr result (GivesOut signature.now last self.old self.new) }
    {
        'steps: loop {
            match self.place {
                Place::Node(list) => match self.frames.first(list) {
                    Some(frame) => {
                        if let Some(stop) = self.enter(alloc, signature, last, list, frame)? {
                            return Ok(shown(stop));
                        }
                    }
                    None => return self.leaf(alloc, signature, list),
                },
                Place::Heads => {
                    if let Some(stop) = self.retry(alloc, signature, last)? {
                        return Ok(shown(stop));
                    }
                }
                Place::Over(_) => unreachable!(),
            }
        }
    }
}

/// What each call answers where the search is over.
fn over(end: End) -> Result<Step, AllocError>
    ensures exhausted { end ≡ ends.Exhausted → result ≡ Ok Step.Exhausted }
    ensures too_deep { end ≡ ends.TooDeep → result ≡ Ok Step.TooDeep }
    ensures no_memory { end ≡ ends.NoMemory → result ≡ Err alloc_error }
    ensures err { OnErr result (end ≡ ends.NoMemory) }
{
    match end {
        End::Exhausted => Ok(Step::Exhausted),
        End::TooDeep => Ok(Step::TooDeep),
        End::NoMemory => Err(AllocError),
    }
}

/// What is shown where a search stops.
fn shown(stop: Stop) -> Step
    ensures { result ≡ step_of stop }
{
    match stop {
        Stop::Exhausted => Step::Exhausted,
        Stop::Budget => Step::Budget,
        Stop::TooDeep => Step::TooDeep,
    }
}

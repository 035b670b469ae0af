//! The search of a query, gone through round by round.
ghost use Rattle.std.specs.Prelude.{◌≡◌, ◌+◌, ◌-◌, ◌≤◌, ◌<◌, ◌^◌, ◌++◌, IfOk};
ghost use Rattle.lf.specs.Entries.{signature_of};
ghost use Rattle.lf.specs.Typing.{IsContext, IsType};
ghost use Rattle.lf_search.specs.Bounded.{QueryEnd as SearchEnd};
ghost use Rattle.tw_print.specs.ShowEnv.{scene_of};
ghost use Rattle.tw_signature.specs.Goal.{goal_of};
ghost use Rattle.tw_search.specs.Standing.{tries_of};
ghost use Rattle.tw_terms.specs.View.{type_of};
ghost use Rattle.tw_top.specs.Lines.{end_word, ended};
ghost use Rattle.tw_top.specs.Rounds.{Standing, begun, round_budget};
ghost use Rattle.tw_top.specs.UnderWay.{Adds, ComesTo, Holds, asked};

use crate::lines::{add_answer, add_budget, add_outside, add_tries};
use crate::pause::{Pause, Round};
use std::alloc::{AllocError, Global};
use tw_print::ShowEnv;
use tw_search::{Search, Step};
use tw_signature::{Goal, Signature};

/// The search of a query: its goal, how many answers it has come to, and whether a leaf was left over.
#[derive(Drop)]
pub struct Asking {
    pub(crate) goal: Goal,
    pub(crate) search: Search,
    pub(crate) answers: u64,
    pub(crate) left_over: bool,
}

impl Asking {
    /// A search at the root of the goal's tree. Fails only for want of memory.
    pub fn new(alloc: Global, signature: &Signature, goal: Goal) -> Result<Asking, AllocError>
        requires context { IsContext (signature_of signature.now) goal.variables }
        requires goal { IsType (signature_of signature.now) goal.variables (type_of goal.goal) }
        ensures holds { IfOk result (λ a. Holds signature.now a (begun (goal_of goal))) }
        ensures goal { IfOk result (λ a. asked a ≡ goal_of goal) }
    {
        signature.is_canonical();
        let search = Search::new(alloc, &goal)?;
        Ok(Asking {
            goal,
            search,
            answers: 0,
            left_over: false,
        })
    }

    /// The next round: it goes on from where the search stands to the next answer, with as many tries as `steps`, and shows each leaf that is left over on the way.
    ///
    /// In all rounds no more tries are made than a `u64` holds. The scene has to be over the signature of `new`. Fails only for want of memory; the search is over then.
    pub fn round(&mut self, alloc: Global, env: &ShowEnv, steps: u64) -> Result<Round, AllocError>
        requires { (s : Standing) × Holds env.now.sig.now self.old s }
        ensures round { IfOk result (λ r. (s : Standing) → Holds env.now.sig.now self.old s → ComesTo env.now.sig.now (scene_of env.now) (asked self.old) (round_budget steps s.tries) s self.new r.text.items r.pause) }
        ensures goal { asked self.new ≡ asked self.old }
    {
        let last = self.last_try(steps);
        let mut text = Vec::new(alloc);
        loop {
            if let Some(pause) = self.step(alloc, env, last, &mut text)? {
                return Ok(Round { text, pause });
            }
        }
    }

    /// How many tries there may be at the end of a round.
    fn last_try(&self, steps: u64) -> u64
        ensures { result ≡ tries_of self.now.search + round_budget steps (tries_of self.now.search) }
    {
        let tries = self.search.tries();
        let most = u64::MAX - tries;
        if steps < most {
            tries + steps
        } else {
            u64::MAX
        }
    }

    /// One leaf more, with its lines, unless the round ends before. What comes behind the round is given where it ends.
    fn step(
        &mut self,
        alloc: Global,
        env: &ShowEnv,
        last: u64,
        text: &mut Vec<u8>,
    ) -> Result<Option<Pause>, AllocError>
        requires holds { (s : Standing) × Holds env.now.sig.now self.old s }
        requires within { tries_of self.old.search ≤ last }
        ensures adds { IfOk result (λ o. (s : Standing) → Holds env.now.sig.now self.old s → Adds env.now.sig.now (scene_of env.now) (asked self.old) last s self.new text.old.items text.new.items o) }
        ensures goal { asked self.new ≡ asked self.old }
    {
        env.sig.is_canonical();
        let left = last - self.search.tries();
        match self.search.next(alloc, env.sig, left)? {
            Step::Answer(answer) => {
                self.answers += 1;
                add_answer(alloc, env, &self.goal, self.answers, &answer, text)?;
                Ok(Some(Pause::More))
            }
            Step::Leftover(left) => {
                self.left_over = true;
                add_outside(alloc, env, &left, text)?;
                Ok(None)
            }
            Step::Exhausted => {
                add_tries(alloc, end_word(self.left_over), self.search.tries(), text)?;
                Ok(Some(Pause::Over))
            }
            Step::Budget => {
                add_budget(alloc, self.search.tries(), text)?;
                Ok(Some(Pause::More))
            }
            Step::TooDeep => Ok(Some(Pause::TooDeep)),
        }
    }
}

/// The word for the end of a tree, by whether a leaf was left over.
fn end_word(left_over: bool) -> &'static [u8]
    ensures { result.now ≡ end_word (ended left_over) }
{
    if left_over {
        b"incomplete"
    } else {
        b"exhausted"
    }
}

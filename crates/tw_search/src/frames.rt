//! Success continuations: lists of goals that wait, which share their tails.
ghost use Rattle.std.specs.Prelude.{◌≡◌, ◌+◌, ◌++◌, ◌∷◌, [], IfOk, OnOk, List, ℕ, length, map, reverse, take};
ghost use Rattle.lf_unification.specs.Lists.{followed};
ghost use Rattle.tw_search.specs.Chains.{GoalsAre, IsFirst, IsGrown, frames_of};

use std::alloc::{AllocError, Global};
use tw_terms::MetaId;

/// A goal that waits, and the list of those behind it.
#[derive(Clone, Copy, PartialEq, Eq, Debug)]
pub(crate) struct Frame {
    pub(crate) hole: MetaId,
    pub(crate) next: usize,
}

/// Lists of goals. A list is named by a number: 0 is the empty one, and any other is the frame at one place less.
#[derive(Drop)]
pub(crate) struct Frames {
    pub(crate) frames: Vec<Frame>,
}

impl Frames {
    /// No list but the empty one.
    pub(crate) fn new(alloc: Global) -> Frames
        ensures { frames_of result ≡ [] }
    {
        Frames {
            frames: Vec::new(alloc),
        }
    }

    /// How many frames there are.
    pub(crate) fn len(&self) -> usize
        ensures { result ≡ length (frames_of self.now) }
    {
        self.frames.len()
    }

    /// The first goal of a list, and the list behind it.
    pub(crate) fn first(&self, list: usize) -> Option<Frame>
        ensures { IsFirst (frames_of self.now) list result }
    {
        if list == 0 {
            return None;
        }
        match self.frames.get(list - 1) {
            Some(frame) => Some(*frame),
            None => None,
        }
    }

    /// The list with one more goal in front.
    pub(crate) fn push(&mut self, hole: MetaId, next: usize) -> Result<usize, AllocError>
        ensures frames { OnOk result (frames_of self.new ≡ frames_of self.old ++ record { hole = hole; next = next } ∷ []) }
        ensures list { IfOk result (λ n. n ≡ length (frames_of self.old) + 1) }
    {
        self.frames.push(Frame { hole, next })?;
        Ok(self.frames.len())
    }

    /// The list with more goals in front, the last one first.
    pub(crate) fn push_all(&mut self, holes: &[MetaId], next: usize) -> Result<usize, AllocError>
        ensures grown { OnOk result (IsGrown (frames_of self.old) (frames_of self.new)) }
        ensures list { IfOk result (λ n. (gs : List ℕ) → GoalsAre (frames_of self.old) next gs → GoalsAre (frames_of self.new) n (followed (reverse (map (λ m. m.0) holes.now)) gs)) }
    {
        let mut list = next;
        for place in 0..holes.len() {
            list = self.push(holes[place], list)?;
        }
        Ok(list)
    }

    /// Takes away the frames past the first `count`.
    pub(crate) fn shrink_to(&mut self, count: usize)
        ensures { frames_of self.new ≡ take count (frames_of self.old) }
    {
        self.frames.truncate(count);
    }
}

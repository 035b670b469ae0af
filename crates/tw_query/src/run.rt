//! What a query asks for, and what its run comes to.
ghost use Rattle.std.specs.Prelude.{◌≡◌, ◌↔◌, ◌+◌, IfOk, IsTrue, length};
ghost use Rattle.lf_search.specs.Bounded.{AsManyAs};
ghost use Rattle.tw_query.specs.Runs.{answers_in};
ghost use Rattle.tw_query.specs.View.{bound_of};
ghost use Rattle.tw_query.specs.declared.run.QueryFault.TheVariants.{NoMemory};

use std::alloc::AllocError;
use thiserror::Error;
use tw_metas::LeftEquation;
use tw_search::Answer;

/// How many answers are asked for.
#[derive(Clone, Copy, PartialEq, Eq, Debug)]
pub enum Bound {
    Number(u64),
    /// There is no bound.
    Star,
}

impl Bound {
    /// Whether these are as many answers as are asked for.
    pub(crate) fn is_reached(self, answers: u64) -> bool
        ensures { IsTrue result ↔ AsManyAs (bound_of self) answers }
    {
        match self {
            Bound::Number(asked) => answers == asked,
            Bound::Star => false,
        }
    }
}

/// A leaf of a query's search.
#[derive(Drop, Debug)]
pub enum Leaf {
    Answer(Answer),
    /// A leaf is left over. This is its first equation, with the values put in.
    Outside(LeftEquation),
}

/// How a run ends.
#[derive(Clone, Copy, PartialEq, Eq, Debug)]
pub enum QueryEnd {
    /// As many answers were found as are asked for.
    Stopped,
    /// There is no further leaf, and none was left over.
    Exhausted,
    /// There is no further leaf, and one was left over.
    Incomplete,
}

/// The run of a query: its leaves in order, how it ended, and all its tries.
#[derive(Drop)]
pub struct QueryRun {
    pub leaves: Vec<Leaf>,
    pub end: QueryEnd,
    pub tries: u64,
}

impl QueryRun {
    /// How many answers were found.
    pub fn answers(&self) -> u64
        ensures { result ≡ answers_in self.now.leaves.items }
    {
        let mut answers = 0;
        for leaf in &self.leaves {
            if let Leaf::Answer(_) = leaf {
                answers += 1;
            }
        }
        answers
    }
}

/// Why a query has no run.
#[derive(Clone, Copy, PartialEq, Eq, Debug, Error)]
pub enum QueryFault {
    /// So many tries were made, which is the budget, and one more is due.
    #[error("the budget of {0} tries is at its end")]
    Budget(u64),
    /// The equations of the next try are deeper than 4,096, or an answer is, or what is shown of a leaf that is left over.
    #[error("a term is deeper than 4,096")]
    TooDeep,
    /// Memory is wanting, the machine's stack included.
    #[error("out of memory")]
    NoMemory,
}

impl From<AllocError> for QueryFault {
    ghost from_gives = { λ _ e. e ≡ NoMemory };

    fn from(_error: AllocError) -> QueryFault {
        QueryFault::NoMemory
    }
}

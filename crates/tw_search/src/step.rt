//! What a search is made of besides its store: where it stands, its choice points, and what a call shows.
use crate::answer::Answer;
use crate::goal::OpenGoal;
use tw_metas::{LeftEquation, Mark};

/// What a call of a search comes to.
#[derive(Drop, Debug)]
pub enum Step {
    /// A leaf where no equation is postponed.
    Answer(Answer),
    /// A leaf is left over. This is its first equation, with the values put in.
    Leftover(LeftEquation),
    /// The tree has no further leaf.
    Exhausted,
    /// The budget's tries were made, and one more is due.
    Budget,
    /// The equations of the next try are deep, or an answer is, or what is to be shown of a leaf that is left over.
    TooDeep,
}

/// Why a search stops without a leaf to show.
#[derive(Clone, Copy, PartialEq, Eq, Debug)]
pub(crate) enum Stop {
    Exhausted,
    Budget,
    TooDeep,
}

/// Why a search is over.
#[derive(Clone, Copy, PartialEq, Eq, Debug)]
pub(crate) enum End {
    Exhausted,
    TooDeep,
    NoMemory,
}

/// Where a search stands: at a node with this list of goals, or at the heads of its newest choice point; or it is over.
#[derive(Clone, Copy, PartialEq, Eq, Debug)]
pub(crate) enum Place {
    Node(usize),
    Heads,
    Over(End),
}

/// A goal whose heads are tried, with the store's mark and the number of frames there; the list of the goals behind it; and the local variable and the
/// constant of its family from which on they are still to be tried.
#[derive(Drop)]
pub(crate) struct Choice {
    pub(crate) mark: Mark,
    pub(crate) frames: usize,
    pub(crate) goal: OpenGoal,
    pub(crate) rest: usize,
    pub(crate) local: u64,
    pub(crate) constant: usize,
}

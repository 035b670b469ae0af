//! What a round of answers comes to.

/// What comes behind the lines of a round.
#[derive(Clone, Copy, PartialEq, Eq, Debug)]
pub enum Pause {
    /// The search stands, and goes on in the next round. The last line is `More?`.
    More,
    /// The tree has no further leaf.
    Over,
    /// Something is too deep: the equations of the next try, an answer, or what is to be shown of a leaf that is left over.
    TooDeep,
}

/// A round: its lines, and what comes behind them.
#[derive(Drop, Debug)]
pub struct Round {
    pub text: Vec<u8>,
    pub pause: Pause,
}

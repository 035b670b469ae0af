//! What the loop reads next.
ghost use Rattle.std.specs.Prelude.{◌≡◌};
ghost use Rattle.tw_server.specs.Playing.{last_of};
ghost use Rattle.tw_server.specs.Replies.{reply_bytes};

use crate::reply::Reply;
use tw_lexer::Place;
use tw_top::Asking;

/// A search behind `More?`, and the place where the first token of its query stands.
#[derive(Drop)]
pub struct Waiting {
    pub asking: Asking,
    pub at: Place,
}

/// What is read next.
#[derive(Drop)]
pub enum Phase {
    /// A command.
    Command,
    /// The text of a query.
    Query,
    /// A line that says whether a search goes on.
    Choice(Waiting),
}

impl Phase {
    /// The reply at the end of the input: the loop of answers ends.
    pub fn last_reply(&self) -> Reply
        ensures { reply_bytes result ≡ last_of self.now }
    {
        match self {
            Phase::Command => Reply::Nothing,
            Phase::Query => Reply::Done,
            Phase::Choice(_) => Reply::Done,
        }
    }
}

//! What is reported of accepted declarations.
ghost use Rattle.std.specs.Prelude.{◌≡◌};
ghost use Rattle.tw_decl.specs.Reports.{lines_alone, reported, with_answers};
ghost use Rattle.tw_decl.specs.View.{told};

use crate::session::Session;
use std::alloc::Global;

/// From how much chatter on accepted declarations are reported.
pub const REPORTS_FROM: u8 = 3;

/// What is reported of an accepted declaration.
#[derive(Debug, Drop)]
pub struct Report {
    /// Whole lines; none where the chatter is below 3.
    pub text: Vec<u8>,
    /// How many records of totality are made. No form that is built makes one.
    pub totals: u32,
    /// How many answers of a query are found.
    pub answers: u64,
}

/// The report of a form that makes no record of totality and asks for no answers.
pub fn lines_alone(text: Vec<u8>) -> Report
    ensures { reported result ≡ lines_alone text.items }
{
    Report {
        text,
        totals: 0,
        answers: 0,
    }
}

/// The report of a query, which found so many answers.
pub fn with_answers(text: Vec<u8>, answers: u64) -> Report
    ensures { reported result ≡ with_answers text.items answers }
{
    Report {
        text,
        totals: 0,
        answers,
    }
}

/// What is reported of a line.
pub fn told(alloc: Global, session: &Session, line: Vec<u8>) -> Report
    ensures { reported result ≡ lines_alone (told session.now line.items) }
{
    if session.parameters().chatter < REPORTS_FROM {
        return lines_alone(Vec::new(alloc));
    }
    lines_alone(line)
}

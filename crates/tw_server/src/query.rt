//! The replies of the loop of answers.
ghost use Rattle.std.specs.Prelude.{◌≡◌, ◌≤◌, ◌++◌, List, ℕ, OnOk, codes, length};
ghost use Rattle.std.specs.Option.{option_copied};
ghost use Rattle.lf.specs.Entries.{signature_of};
ghost use Rattle.lf.specs.Typing.{IsContext, IsType};
ghost use Rattle.tw_decl.specs.Question.{HasQueryCause};
ghost use Rattle.tw_decl.specs.Refusals.{refusal_line};
ghost use Rattle.tw_decl.specs.View.{View};
ghost use Rattle.tw_decl.specs.declared.refusal.Refusal.TheVariants as refusals;
ghost use Rattle.tw_signature.specs.Goal.{goal_of};
ghost use Rattle.tw_terms.specs.View.{type_of};
ghost use Rattle.tw_top.specs.Rounds.{Standing, begun};
ghost use Rattle.tw_top.specs.UnderWay.{asked};
ghost use Rattle.tw_server.specs.Gather.{IsGathered, IsKept};
ghost use Rattle.tw_server.specs.Limits.{text_limit};
ghost use Rattle.tw_server.specs.Phases.{Waiting as Stood, choice_by, choice_of, first_choice};
ghost use Rattle.tw_server.specs.Playing.{GoesOnTo, HoldsSearch, IsPlayed, RepliesToChoice, RepliesToQuery, choice_is};
ghost use Rattle.tw_server.specs.Replies.{no_memory, reply_bytes};
ghost use Rattle.tw_server.specs.declared.phase.Phase.TheVariants as nexts;

use crate::phase::{Phase, Waiting};
use crate::reply::Reply;
use crate::show::environment;
use crate::text::{Lost, Text};
use std::alloc::{AllocError, Global};
use tw_decl::{Question, Refusal, Session, read_query, show_refusal};
use tw_lexer::Place;
use tw_signature::Goal;
use tw_top::{Asking, Pause, Round};

/// Where the texts of queries come from.
const ORIGIN: &str = "stdin";

/// A reply, and what is read behind it.
#[derive(Drop)]
pub struct Answered {
    pub reply: Reply,
    pub next: Phase,
}

// The reply where memory is wanting: the search ends.
fn out_of_memory() -> Answered
    ensures reply { reply_bytes result.reply ≡ no_memory }
    ensures next { result.next ≡ nexts.Query }
{
    Answered {
        reply: Reply::MemoryAlone,
        next: Phase::Query,
    }
}

// Adds the refusal of a query for which something is too deep.
fn add_too_deep(alloc: Global, at: Place, text: &mut Vec<u8>) -> Result<(), AllocError>
    ensures { OnOk result (text.new.items ≡ text.old.items ++ refusal_line (codes "stdin") (refusals.TooDeep at)) }
{
    let line = show_refusal(alloc, &Refusal::TooDeep(at), ORIGIN)?;
    text.extend_from_slice(&line)
}

// The reply of a round, and what is read behind it.
fn behind_round(alloc: Global, waiting: Waiting, round: Round) -> Answered
    ensures { (v : View) (s : Standing) → IsPlayed v s waiting round → GoesOnTo v (asked waiting.asking) waiting.at s result }
{
    let mut text = round.text;
    match round.pause {
        Pause::More => Answered {
            reply: Reply::Lines(text),
            next: Phase::Choice(waiting),
        },
        Pause::Over => Answered {
            reply: Reply::Lines(text),
            next: Phase::Query,
        },
        Pause::TooDeep => match add_too_deep(alloc, waiting.at, &mut text) {
            Ok(()) => Answered {
                reply: Reply::Lines(text),
                next: Phase::Query,
            },
            Err(_) => out_of_memory(),
        },
    }
}

// The next round of a search, with a budget of its own.
fn go_on(alloc: Global, session: &Session, waiting: Waiting) -> Answered
    requires { (w : Stood) × HoldsSearch session.now.signature waiting w }
    ensures { (w : Stood) → HoldsSearch session.now.signature waiting w → GoesOnTo session.now w.goal w.at w.standing result }
{
    let mut waiting = waiting;
    let steps = session.parameters().steps;
    match waiting.asking.round(alloc, &environment(session), steps) {
        Ok(round) => behind_round(alloc, waiting, round),
        Err(_) => out_of_memory(),
    }
}

// The first round of the search for a goal, whose query begins here.
fn begin(alloc: Global, session: &Session, goal: Goal, at: Place) -> Answered
    requires context { IsContext (signature_of session.now.signature) goal.variables }
    requires goal { IsType (signature_of session.now.signature) goal.variables (type_of goal.goal) }
    ensures { GoesOnTo session.now (goal_of goal) at (begun (goal_of goal)) result }
{
    match Asking::new(alloc, session.signature(), goal) {
        Ok(asking) => go_on(alloc, session, Waiting { asking, at }),
        Err(_) => out_of_memory(),
    }
}

// The reply to a query that is refused.
fn refused(alloc: Global, refusal: &Refusal) -> Answered
    ensures { (v : View) (text : List ℕ) → length text ≤ text_limit → HasQueryCause v text refusal.now → RepliesToQuery v text result }
{
    match show_refusal(alloc, refusal, ORIGIN) {
        Ok(line) => Answered {
            reply: Reply::Lines(line),
            next: Phase::Query,
        },
        Err(_) => out_of_memory(),
    }
}

// The reply to the text of a query, of which all was kept.
fn answer_kept(alloc: Global, session: &Session, text: &[u8]) -> Answered
    requires { length text.now ≤ text_limit }
    ensures { RepliesToQuery session.now text.now result }
{
    match read_query(alloc, session, text) {
        Ok(Question::Nothing) => Answered {
            reply: Reply::Done,
            next: Phase::Command,
        },
        Ok(Question::Answers(goal, at)) => begin(alloc, session, goal, at),
        Err(refusal) => refused(alloc, &refusal),
    }
}

/// The reply to the text of a query, and what is read behind it.
pub fn answer_query(alloc: Global, session: &Session, text: &Text) -> Answered
    ensures { (bytes : List ℕ) → IsGathered text.now.lost text.now.bytes.items bytes → RepliesToQuery session.now bytes result }
{
    match text.lost {
        Lost::NoMemory => out_of_memory(),
        Lost::TooLong => Answered {
            reply: Reply::TextLongAlone,
            next: Phase::Query,
        },
        Lost::Nothing => answer_kept(alloc, session, &text.bytes),
    }
}

/// What a line behind `More?` chooses.
#[derive(Clone, Copy, PartialEq, Eq, Debug)]
enum Choice {
    GoOn,
    Leave,
    Drop,
}

// What a line's first byte chooses.
fn choice_by(byte: u8) -> Choice
    ensures { choice_is result ≡ choice_by byte }
{
    match byte {
        b'y' | b'Y' => Choice::GoOn,
        b'q' | b'Q' => Choice::Leave,
        _ => Choice::Drop,
    }
}

// What a line chooses that isn't too long.
fn first_choice(body: &[u8]) -> Choice
    ensures { choice_is result ≡ first_choice body.now }
{
    match body {
        [] => Choice::Drop,
        [first, ..] => choice_by(*first),
    }
}

// What a line chooses, which is kept where it isn't too long.
fn choice_of(line: Option<&[u8]>) -> Choice
    ensures { (body : List ℕ) → IsKept (option_copied line.entry) body → choice_is result ≡ choice_of body }
{
    match line {
        None => Choice::Drop,
        Some(body) => first_choice(body),
    }
}

/// The reply to a line behind `More?`, and what is read behind it.
pub fn answer_choice(
    alloc: Global,
    session: &Session,
    waiting: Waiting,
    line: Option<&[u8]>,
) -> Answered
    requires { (w : Stood) × HoldsSearch session.now.signature waiting w }
    ensures { (w : Stood) (body : List ℕ) → HoldsSearch session.now.signature waiting w → IsKept (option_copied line.entry) body → RepliesToChoice session.now w body result }
{
    match choice_of(line) {
        Choice::GoOn => go_on(alloc, session, waiting),
        Choice::Leave => Answered {
            reply: Reply::Done,
            next: Phase::Command,
        },
        Choice::Drop => Answered {
            reply: Reply::Nothing,
            next: Phase::Query,
        },
    }
}

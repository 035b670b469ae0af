//! `%query`: a goal is searched, its answers are counted and reported, and nothing changes.
ghost use Rattle.std.specs.Prelude.{◌≡◌, ◌≢◌, ◌++◌, codes, decimal, IfErr, IfOk, IsSome, OnOk};
ghost use Rattle.lf.specs.Entries.{signature_of};
ghost use Rattle.lf.specs.Typing.{IsContext, IsType};
ghost use Rattle.tw_parse.specs.Queries.{query_of};
ghost use Rattle.tw_query.specs.Runs.{answers_in};
ghost use Rattle.tw_query.specs.View.{bound_of as plain_bound};
ghost use Rattle.tw_query.specs.declared.run.QueryEnd.TheVariants as ends;
ghost use Rattle.tw_signature.specs.Goal.{goal_of};
ghost use Rattle.tw_terms.specs.View.{type_of};
ghost use Rattle.tw_decl.specs.Declaration.{AnswersQuery};
ghost use Rattle.tw_decl.specs.Reports.{reported, with_answers};
ghost use Rattle.tw_decl.specs.Searching.{IsAsExpected, bound_of, bound_word, end_line, end_word, first_left, leaf_lines, lines_of_leaves, query_heading, query_lines};
ghost use Rattle.tw_decl.specs.SearchSteps.{AreAnswers, IsAnswerLeaf, IsUnexpected};
ghost use Rattle.tw_decl.specs.Unanswered.{IsNotAnswered};
ghost use Rattle.tw_decl.specs.View.{told};

use crate::entering::{environment, leftover};
use crate::refusal::Refusal;
use crate::report::{REPORTS_FROM, Report, with_answers};
use crate::searching::{asked, first_left, run};
use crate::session::Session;
use std::alloc::{AllocError, Global};
use tw_equation::show_equation;
use tw_lexer::Place;
use tw_parse::ExtQuery;
use tw_parse_queries::ExtBound;
use tw_query::{Bound, Leaf, QueryEnd, QueryRun, show_answer};
use tw_signature::Goal;

// How many answers are looked for.
fn bound(bound: ExtBound) -> Bound
    ensures { plain_bound result ≡ bound_of bound }
{
    match bound {
        ExtBound::Number(number) => Bound::Number(number),
        ExtBound::Star => Bound::Star,
    }
}

// The refusal where an equation is left at the end of the search, and a number of answers is expected.
fn left_over(
    alloc: Global,
    session: &Session,
    first: Place,
    expected: u64,
    run: &QueryRun,
) -> Refusal
    requires incomplete { run.now.end ≡ ends.Incomplete }
    requires left { IsSome (first_left run.now.leaves.items) }
    ensures { IsUnexpected session.now (ExtBound.Number expected) run.now.leaves.items run.now.end first result }
{
    match first_left(&run.leaves) {
        Some(left) => leftover(alloc, session, first, left),
        None => unreachable!(),
    }
}

// Tests that the answers are as expected.
fn counted(
    alloc: Global,
    session: &Session,
    first: Place,
    expected: ExtBound,
    run: &QueryRun,
) -> Result<(), Refusal>
    requires { run.now.end ≡ ends.Incomplete → IsSome (first_left run.now.leaves.items) }
    ensures expected { OnOk result (IsAsExpected expected run.now.leaves.items run.now.end) }
    ensures cause { IfErr result (IsUnexpected session.now expected run.now.leaves.items run.now.end first) }
{
    let ExtBound::Number(number) = expected else {
        return Ok(());
    };
    if run.end == QueryEnd::Incomplete {
        return Err(left_over(alloc, session, first, number, run));
    }
    let found = run.answers();
    if found == number {
        Ok(())
    } else {
        Err(Refusal::Count(first, found, number))
    }
}

// A bound as it is shown: a number without leading zeros, or `*`.
fn bound_word(alloc: Global, bound: ExtBound) -> Result<Vec<u8>, AllocError>
    ensures { IfOk result (λ word. word.items ≡ bound_word bound) }
{
    match bound {
        ExtBound::Number(number) => {
            let digits = format!(in alloc; "{number}")?;
            Vec::from_slice(alloc, digits.as_bytes())
        }
        ExtBound::Star => b"*".to_vec(alloc),
    }
}

// `%query e t`.
fn heading(alloc: Global, expected: ExtBound, sought: ExtBound) -> Result<Vec<u8>, AllocError>
    ensures { IfOk result (λ line. line.items ≡ query_heading expected sought) }
{
    let mut line = b"%query ".to_vec(alloc)?;
    let word = bound_word(alloc, expected)?;
    line.extend_from_slice(&word)?;
    line.extend_from_slice(b" ")?;
    let word = bound_word(alloc, sought)?;
    line.extend_from_slice(&word)?;
    line.extend_from_slice(b"\n")?;
    Ok(line)
}

// Adds the lines of a leaf, where so many answers come with it.
fn add_leaf(
    alloc: Global,
    session: &Session,
    goal: &Goal,
    number: u64,
    leaf: &Leaf,
    text: &mut Vec<u8>,
) -> Result<(), AllocError>
    requires context { IsContext (signature_of session.now.signature) goal.now.variables }
    requires goal { IsType (signature_of session.now.signature) goal.now.variables (type_of goal.now.goal) }
    requires answer { IsAnswerLeaf session.now.signature (goal_of goal.now) leaf.now }
    ensures { OnOk result (text.new.items ≡ text.old.items ++ leaf_lines session.now (goal_of goal.now) number leaf.now) }
{
    match leaf {
        Leaf::Answer(answer) => {
            let shown = show_answer(alloc, &environment(session), goal, number, answer)?;
            text.extend_from_slice(&shown)?;
            text.extend_from_slice(b"\n")?;
        }
        Leaf::Outside(left) => {
            let shown = show_equation(alloc, &environment(session), left)?;
            text.extend_from_slice(b"outside ")?;
            text.extend_from_slice(&shown)?;
            text.extend_from_slice(b"\n")?;
        }
    }
    Ok(())
}

// Adds the lines of all leaves, in their order.
fn add_leaves(
    alloc: Global,
    session: &Session,
    goal: &Goal,
    leaves: &[Leaf],
    text: &mut Vec<u8>,
) -> Result<(), AllocError>
    requires context { IsContext (signature_of session.now.signature) goal.now.variables }
    requires goal { IsType (signature_of session.now.signature) goal.now.variables (type_of goal.now.goal) }
    requires answers { AreAnswers session.now.signature (goal_of goal.now) leaves.now }
    ensures { OnOk result (text.new.items ≡ text.old.items ++ lines_of_leaves session.now (goal_of goal.now) 1 leaves.now) }
{
    let mut number = 1u64;
    for leaf in leaves {
        add_leaf(alloc, session, goal, number, leaf, text)?;
        if let Leaf::Answer(_) = leaf {
            number += 1;
        }
    }
    Ok(())
}

// How the search ended.
fn end_word(end: QueryEnd) -> &'static [u8]
    ensures { result.now ≡ end_word end }
{
    match end {
        QueryEnd::Stopped => b"stopped",
        QueryEnd::Exhausted => b"exhausted",
        QueryEnd::Incomplete => b"incomplete",
    }
}

// Adds the last line.
fn add_end(alloc: Global, run: &QueryRun, text: &mut Vec<u8>) -> Result<(), AllocError>
    ensures { OnOk result (text.new.items ≡ text.old.items ++ end_line run.now.end run.now.tries) }
{
    text.extend_from_slice(end_word(run.end))?;
    text.extend_from_slice(b" tries ")?;
    let tries = run.tries;
    let digits = format!(in alloc; "{tries}")?;
    text.extend_from_slice(digits.as_bytes())?;
    text.extend_from_slice(b"\n")?;
    Ok(())
}

// The lines of a query.
fn lines(
    alloc: Global,
    session: &Session,
    expected: ExtBound,
    sought: ExtBound,
    goal: &Goal,
    run: &QueryRun,
) -> Result<Vec<u8>, AllocError>
    requires context { IsContext (signature_of session.now.signature) goal.now.variables }
    requires goal { IsType (signature_of session.now.signature) goal.now.variables (type_of goal.now.goal) }
    requires answers { AreAnswers session.now.signature (goal_of goal.now) run.now.leaves.items }
    ensures { IfOk result (λ text. text.items ≡ query_lines session.now expected sought (goal_of goal.now) run.now.leaves.items run.now.end run.now.tries) }
{
    let mut text = heading(alloc, expected, sought)?;
    add_leaves(alloc, session, goal, &run.leaves, &mut text)?;
    add_end(alloc, run, &mut text)?;
    Ok(text)
}

// What is reported of a query.
fn report(
    alloc: Global,
    session: &Session,
    expected: ExtBound,
    sought: ExtBound,
    goal: &Goal,
    run: &QueryRun,
) -> Result<Report, AllocError>
    requires context { IsContext (signature_of session.now.signature) goal.now.variables }
    requires goal { IsType (signature_of session.now.signature) goal.now.variables (type_of goal.now.goal) }
    requires answers { AreAnswers session.now.signature (goal_of goal.now) run.now.leaves.items }
    ensures { IfOk result (λ r. reported r ≡ with_answers (told session.now (query_lines session.now expected sought (goal_of goal.now) run.now.leaves.items run.now.end run.now.tries)) (answers_in run.now.leaves.items)) }
{
    let answers = run.answers();
    if session.parameters().chatter < REPORTS_FROM {
        return Ok(with_answers(Vec::new(alloc), answers));
    }
    let text = lines(alloc, session, expected, sought, goal, run)?;
    Ok(with_answers(text, answers))
}

/// Answers a query. Nothing changes.
pub fn answer(
    alloc: Global,
    session: &Session,
    first: Place,
    expected: ExtBound,
    sought: ExtBound,
    query: &ExtQuery,
) -> Result<Report, Refusal>
    ensures ok { IfOk result (λ report. AnswersQuery session.now expected sought (query_of query.now) (reported report) session.now) }
    ensures cause { IfErr result (IsNotAnswered session.now expected sought (query_of query.now) first) }
{
    let goal = match asked(alloc, session, first, query) {
        Ok(goal) => goal,
        Err(refusal) => return Err(refusal),
    };
    let run = match run(alloc, session, first, &goal, bound(sought)) {
        Ok(run) => run,
        Err(refusal) => return Err(refusal),
    };
    match counted(alloc, session, first, expected, &run) {
        Ok(()) => {}
        Err(refusal) => return Err(refusal),
    }
    match report(alloc, session, expected, sought, &goal, &run) {
        Ok(report) => Ok(report),
        Err(_) => Err(Refusal::Memory),
    }
}

//! `%solve`: the first answer of a goal is kept as a definition.
ghost use Rattle.std.specs.Prelude.{◌≡◌, IfErr, IfOk, IsSome, OnErr, OnOk, Some, option_map};
ghost use Rattle.lf.specs.Entries.{signature_of, IsCanonicalEntry};
ghost use Rattle.lf.specs.Typing.{IsContext, IsType};
ghost use Rattle.lf_search.specs.Bounded as bounded;
ghost use Rattle.tw_parse.specs.Queries.{query_of};
ghost use Rattle.tw_parse.specs.View.{term_of as written_of};
ghost use Rattle.tw_query.specs.Runs.{IsRunOf, IsTypedAnswer};
ghost use Rattle.tw_signature.specs.Goal.{goal_of};
ghost use Rattle.tw_signature.specs.View.{entry_of};
ghost use Rattle.tw_terms.specs.View.{term_of, type_of};
ghost use Rattle.tw_decl.specs.Declaration.{KeepsAnswer, entry_report};
ghost use Rattle.tw_decl.specs.Reports.{reported};
ghost use Rattle.tw_decl.specs.SearchSteps.{HasNoSolution, IsDeepEntry};
ghost use Rattle.tw_decl.specs.Searching.{first_answer, first_left};
ghost use Rattle.tw_decl.specs.Solutions.{IsFound, IsSolution, solve_query};
ghost use Rattle.tw_decl.specs.Unanswered.{IsNotSolved};
ghost use Rattle.tw_decl.specs.View.{with_entry};

use crate::entering::{leftover, report_of};
use crate::refusal::Refusal;
use crate::report::Report;
use crate::searching::{asked, first_left, run};
use crate::session::Session;
use crate::solution::{is_approved, solution};
use std::alloc::{AllocError, Global};
use tw_fixity::Name;
use tw_lexer::Place;
use tw_parse::{ExtQuery, ExtTerm};
use tw_query::{Bound, Leaf, QueryRun};
use tw_search::Answer;
use tw_signature::{Entry, Goal};

// The first answer among the leaves.
fn first_answer(leaves: &[Leaf]) -> Option<&Answer>
    ensures { option_map (λ a. a.now) result ≡ first_answer leaves.now }
{
    for leaf in leaves {
        if let Leaf::Answer(answer) = leaf {
            return Some(answer);
        }
    }
    None
}

// The refusal where no answer was found: an equation is left, or none is.
fn unsolved(alloc: Global, session: &Session, first: Place, run: &QueryRun) -> Refusal
    ensures { HasNoSolution session.now run.now.leaves.items first result }
{
    match first_left(&run.leaves) {
        Some(left) => leftover(alloc, session, first, left),
        None => Refusal::NoAnswer(first),
    }
}

// The definition that an answer gives, to which the kernel says yes.
fn solved(
    alloc: Global,
    session: &Session,
    first: Place,
    name: Name,
    text: &ExtTerm,
    goal: &Goal,
    answer: &Answer,
) -> Result<Entry, Refusal>
    requires context { IsContext (signature_of session.now.signature) goal.now.variables }
    requires goal { IsType (signature_of session.now.signature) goal.now.variables (type_of goal.now.goal) }
    requires named { IsSome goal.now.proof }
    requires answer { IsTypedAnswer (signature_of session.now.signature) (goal_of goal.now) answer.now }
    ensures solution { IfOk result (λ e. IsSolution name (written_of text.now) (goal_of goal.now) answer.now (entry_of e)) }
    ensures stands { IfOk result (λ e. IsCanonicalEntry (signature_of session.now.signature) (entry_of e)) }
    ensures cause { IfErr result (IsDeepEntry session.now name (written_of text.now) (goal_of goal.now) answer.now first) }
{
    let signature = session.signature();
    signature.is_canonical();
    let entry = match solution(alloc, signature, name, text, goal, answer) {
        Ok(entry) => entry,
        Err(_) => return Err(Refusal::Memory),
    };
    match is_approved(alloc, signature, &entry.body) {
        Ok(true) => Ok(entry),
        Ok(false) => Err(Refusal::TooDeep(first)),
        Err(_) => Err(Refusal::Memory),
    }
}

// Keeps an entry, and reports it. Without memory nothing has changed.
fn keep(alloc: Global, session: &mut Session, entry: Entry) -> Result<Report, AllocError>
    requires { IsCanonicalEntry (signature_of session.old.signature) (entry_of entry) }
    ensures says { IfOk result (λ report. reported report ≡ entry_report session.old (entry_of entry)) }
    ensures keeps { OnOk result (session.new ≡ with_entry session.old (entry_of entry)) }
    ensures err { OnErr result (session.new ≡ session.old) }
{
    let report = report_of(alloc, session, &entry)?;
    session.keep(alloc, entry)?;
    Ok(report)
}

// The definition by the first answer of a goal.
fn found(
    alloc: Global,
    session: &Session,
    first: Place,
    name: Name,
    query: &ExtQuery,
) -> Result<Entry, Refusal>
    requires { (query_of query.now).proof ≡ Some name }
    ensures ok { IfOk result (λ e. IsFound session.now name (query_of query.now).goal (entry_of e)) }
    ensures cause { IfErr result (IsNotSolved session.now name (query_of query.now).goal first) }
{
    let goal = match asked(alloc, session, first, query) {
        Ok(goal) => goal,
        Err(refusal) => return Err(refusal),
    };
    let run = match run(alloc, session, first, &goal, Bound::Number(1)) {
        Ok(run) => run,
        Err(refusal) => return Err(refusal),
    };
    match first_answer(&run.leaves) {
        Some(answer) => solved(alloc, session, first, name, &query.goal, &goal, answer),
        None => Err(unsolved(alloc, session, first, &run)),
    }
}

// The query of a goal whose proof has this name.
fn solve_query(alloc: Global, name: &Name, goal: ExtTerm) -> Result<ExtQuery, AllocError>
    ensures { IfOk result (λ q. query_of q ≡ solve_query name.now (written_of goal)) }
{
    let proof = Some(name.copy(alloc)?);
    Ok(ExtQuery { proof, goal })
}

/// Keeps the first answer of a goal. After a refusal nothing has changed.
pub fn solve(
    alloc: Global,
    session: &mut Session,
    first: Place,
    name: Name,
    goal: ExtTerm,
) -> Result<Report, Refusal>
    ensures ok { IfOk result (λ report. KeepsAnswer session.old name (written_of goal) (reported report) session.new) }
    ensures err { OnErr result (session.new ≡ session.old) }
    ensures cause { IfErr result (IsNotSolved session.old name (written_of goal) first) }
{
    let query = match solve_query(alloc, &name, goal) {
        Ok(query) => query,
        Err(_) => return Err(Refusal::Memory),
    };
    let entry = match found(alloc, session, first, name, &query) {
        Ok(entry) => entry,
        Err(refusal) => return Err(refusal),
    };
    match keep(alloc, session, entry) {
        Ok(report) => Ok(report),
        Err(_) => Err(Refusal::Memory),
    }
}

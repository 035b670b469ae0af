//! Declarations of termination: the calls of families are checked to descend by their orders, and the declaration is reported.
ghost use Rattle.std.specs.Prelude.{◌≡◌, true, length, map, option_map, IfErr, IfOk, OnOk};
ghost use Rattle.lf_checks.specs.ModeRows.{first_unmoded, is_moded, marks_of};
ghost use Rattle.lf_checks.specs.OrderFaults.{AreJoined};
ghost use Rattle.tw_clause.specs.View.{mark_of, name_of, worlds_of};
ghost use Rattle.tw_order.specs.Rows.{families_of};
ghost use Rattle.tw_mode.specs.ModeTables.{mode_rows};
ghost use Rattle.tw_parse_checks.specs.Checks.{call_of, order_of as written_of};
ghost use Rattle.tw_decl.specs.Applications.{all_take_just, application_of as application_of_call, takes_just};
ghost use Rattle.tw_decl.specs.Declaration.{TestsOrders};
ghost use Rattle.tw_decl.specs.Obstacles.{IsNotDescending};
ghost use Rattle.tw_decl.specs.Operators.{newest};
ghost use Rattle.tw_decl.specs.Reports.{lines_alone, reported};
ghost use Rattle.tw_decl.specs.Steps.{AreRowsOf, CallFails, IsRowOf, ShowsCall, application_of};
ghost use Rattle.tw_decl.specs.Termination.{Descend, GivesOrders, NamesModed, termination_line};
ghost use Rattle.tw_decl.specs.View.{told};

use crate::applications::{Application, applications_of, applied, family_words};
use crate::modes::clause_word;
use crate::moding::no_mode;
use crate::orders::order_at;
use crate::refusal::Refusal;
use crate::report::{Report, told};
use crate::session::Session;
use std::alloc::{AllocError, Global};
use tw_clause::{ClauseName, Mark3, Order, Worlds};
use tw_lexer::Place;
use tw_order::{OrderFault, check_order};
use tw_parse_checks::{ExtOrder, ExtPattern};
use tw_terms::ConstId;
use tw_world::joined_worlds;

// The marks of a family; one without a mode has none.
fn marks_of(session: &Session, family: ConstId) -> &[Mark3]
    ensures { map mark_of result.now ≡ marks_of (mode_rows session.now.checked.modes) family.0 }
{
    match session.modes().marks(family) {
        Some(marks) => marks,
        None => &[],
    }
}

// Whether a family has a mode.
fn has_mode(session: &Session, family: ConstId) -> bool
    ensures { result ≡ is_moded (mode_rows session.now.checked.modes) family.0 }
{
    match session.modes().marks(family) {
        Some(_) => true,
        None => false,
    }
}

// The first of the families without a mode.
fn first_unmoded(session: &Session, families: &[ConstId]) -> Option<ConstId>
    ensures { option_map (λ f. f.0) result ≡ first_unmoded (is_moded (mode_rows session.now.checked.modes)) (map (λ f. f.0) families.now) }
{
    for family in families {
        if !has_mode(session, *family) {
            return Some(*family);
        }
    }
    None
}

// The family of a call pattern, and the order over its places that the pattern gives it, if each of them is an input.
fn row_of(
    alloc: Global,
    session: &Session,
    order: &ExtOrder,
    number: usize,
    pattern: &ExtPattern,
) -> Result<Option<(ConstId, Order)>, AllocError>
    requires { takes_just (length pattern.now.names.items) (newest session.now.signature pattern.now.family.name) ≡ true }
    ensures { IfOk result (IsRowOf session.now number (written_of order.now) (call_of pattern.now)) }
{
    let signature = session.signature();
    signature.is_canonical();
    let Some(id) = signature.lookup(&pattern.family.name) else {
        return Ok(None);
    };
    let Some(entry) = signature.entry(id) else {
        return Ok(None);
    };
    let marks = marks_of(session, id);
    match order_at(alloc, order, number, &pattern.names, entry.implicit, marks)? {
        Some(order) => Ok(Some((id, order))),
        None => Ok(None),
    }
}

// Those of all call patterns.
fn rows_of(
    alloc: Global,
    session: &Session,
    order: &ExtOrder,
    patterns: &[ExtPattern],
) -> Result<Option<Vec<(ConstId, Order)>>, AllocError>
    requires { all_take_just session.now.signature (map application_of_call (map call_of patterns.now)) ≡ true }
    ensures { IfOk result (AreRowsOf session.now (written_of order.now) (map call_of patterns.now)) }
{
    let mut rows = Vec::new(alloc);
    let mut number = 0;
    for pattern in patterns {
        match row_of(alloc, session, order, number, pattern)? {
            Some(row) => rows.push(row)?,
            None => return Ok(None),
        }
        number += 1;
    }
    Ok(Some(rows))
}

// A clause that doesn't descend.
fn call_fault(
    alloc: Global,
    session: &Session,
    first: Place,
    clause: &ClauseName,
    subgoal: u64,
) -> Refusal
    ensures { ShowsCall session.now first (name_of clause.now) subgoal result }
{
    match clause_word(alloc, session, clause) {
        Ok(word) => Refusal::OrderFault(first, word, subgoal),
        Err(_) => Refusal::Memory,
    }
}

// The families of these rows. Fails only for want of memory.
fn families_in(alloc: Global, rows: &[(ConstId, Order)]) -> Result<Vec<ConstId>, AllocError>
    ensures { IfOk result (λ ids. map (λ f. f.0) ids.items ≡ families_of rows.now) }
{
    let mut families = Vec::with_capacity(alloc, rows.len())?;
    for (family, _) in rows {
        families.push(*family)?;
    }
    Ok(families)
}

// The blocks of the worlds of these families, each once. Fails only for want of memory.
fn worlds_in(
    alloc: Global,
    session: &Session,
    rows: &[(ConstId, Order)],
) -> Result<Worlds, AllocError>
    ensures { IfOk result (λ w. AreJoined session.now.checked.worlds (families_of rows.now) (worlds_of w)) }
{
    let families = families_in(alloc, rows)?;
    joined_worlds(alloc, session.worlds(), &families)
}

// Tests that the calls of these families descend by their orders.
fn descending(
    alloc: Global,
    session: &Session,
    first: Place,
    rows: &[(ConstId, Order)],
) -> Result<(), Refusal>
    ensures descend { OnOk result (Descend session.now rows.now) }
    ensures cause { IfErr result (CallFails session.now rows.now first) }
{
    session.is_sound();
    let worlds = match worlds_in(alloc, session, rows) {
        Ok(worlds) => worlds,
        Err(_) => return Err(Refusal::Memory),
    };
    match check_order(alloc, session.signature(), rows, &worlds) {
        Ok(()) => Ok(()),
        Err(OrderFault::Fault { clause, subgoal }) => {
            Err(call_fault(alloc, session, first, &clause, subgoal))
        }
        Err(OrderFault::NoMemory) => Err(Refusal::Memory),
    }
}

// The families that call patterns name with just their arguments, each of which has a mode.
fn moded_families(
    alloc: Global,
    session: &Session,
    first: Place,
    order: &ExtOrder,
    patterns: &[ExtPattern],
    applications: &[Application],
) -> Result<Vec<ConstId>, Refusal>
    requires { map application_of applications.now ≡ map application_of_call (map call_of patterns.now) }
    ensures named { IfOk result (λ ids. NamesModed session.now (written_of order.now) (map call_of patterns.now) (map (λ f. f.0) ids.items)) }
    ensures cause { IfErr result (IsNotDescending session.now (written_of order.now) (map call_of patterns.now) first) }
{
    let families = match applied(alloc, session, first, None, applications) {
        Ok(families) => families,
        Err(refusal) => return Err(refusal),
    };
    match first_unmoded(session, &families) {
        Some(family) => Err(no_mode(alloc, session, first, family)),
        None => Ok(families),
    }
}

// The families that call patterns name, and the orders that they get.
fn orders(
    alloc: Global,
    session: &Session,
    first: Place,
    order: &ExtOrder,
    patterns: &[ExtPattern],
    applications: &[Application],
) -> Result<Vec<(ConstId, Order)>, Refusal>
    requires { map application_of applications.now ≡ map application_of_call (map call_of patterns.now) }
    ensures gives { IfOk result (λ rows. GivesOrders session.now (written_of order.now) (map call_of patterns.now) rows.items) }
    ensures cause { IfErr result (IsNotDescending session.now (written_of order.now) (map call_of patterns.now) first) }
{
    match moded_families(alloc, session, first, order, patterns, applications) {
        Ok(_) => {}
        Err(refusal) => return Err(refusal),
    }
    match rows_of(alloc, session, order, patterns) {
        Ok(Some(rows)) => Ok(rows),
        Ok(None) => Err(Refusal::BadDecl(first)),
        Err(_) => Err(Refusal::Memory),
    }
}

// What is reported. Fails only for want of memory.
fn report_of(
    alloc: Global,
    session: &Session,
    applications: &[Application],
) -> Result<Report, AllocError>
    ensures { IfOk result (λ report. reported report ≡ lines_alone (told session.now (termination_line (map application_of applications.now)))) }
{
    let mut line = family_words(alloc, b"%terminates", applications)?;
    line.extend_from_slice(b".\n")?;
    Ok(told(alloc, session, line))
}

/// Tests that families' calls descend. Nothing changes.
pub fn terminate(
    alloc: Global,
    session: &Session,
    first: Place,
    order: &ExtOrder,
    patterns: &[ExtPattern],
) -> Result<Report, Refusal>
    ensures ok { IfOk result (λ report. TestsOrders session.now (written_of order.now) (map call_of patterns.now) (reported report) session.now) }
    ensures cause { IfErr result (IsNotDescending session.now (written_of order.now) (map call_of patterns.now) first) }
{
    let applications = match applications_of(alloc, patterns) {
        Ok(applications) => applications,
        Err(_) => return Err(Refusal::Memory),
    };
    let rows = match orders(alloc, session, first, order, patterns, &applications) {
        Ok(rows) => rows,
        Err(refusal) => return Err(refusal),
    };
    match descending(alloc, session, first, &rows) {
        Ok(()) => {}
        Err(refusal) => return Err(refusal),
    }
    match report_of(alloc, session, &applications) {
        Ok(report) => Ok(report),
        Err(_) => Err(Refusal::Memory),
    }
}

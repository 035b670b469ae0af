//! How deep a text nests, where what stays of it counts, and each of its annotations by itself.
ghost use Rattle.std.specs.Prelude.{◌≡◌, ◌<◌, ◌≤◌, ◌+◌, ◌&&◌, nat_le, suc, zero, true, IfOk, OnOk, MatchBool, MatchOption};
ghost use Rattle.lf.specs.Depth.{depth_limit};
ghost use Rattle.tw_approx.specs.Nested.{all_within, is_within, steps, work};
ghost use Rattle.tw_approx.specs.Nesting.{declared_depth, is_declared, is_kept, text_depth, written_depth};
ghost use Rattle.tw_names.specs.Waiting.{size};
ghost use Rattle.tw_parse.specs.Syntax.{application};
ghost use Rattle.tw_parse.specs.View.{declaration_of, term_of};

use crate::annotations::open_annotated;
use crate::waiting::{Waiting, wait_for, wait_for_annotations, wait_for_domain};
use std::alloc::{AllocError, Global};
use tw_fixity::Name;
use tw_parse::{ExtDecl, ExtTerm};
use tw_signature::{Body, Signature};
use tw_terms::DEPTH_LIMIT;

/// Whether a declaration nests deeper than 4,096.
pub fn declares_deeply(
    alloc: Global,
    signature: &Signature,
    decl: &ExtDecl,
) -> Result<bool, AllocError>
    ensures { IfOk result (λ b. MatchBool b (depth_limit < declared_depth signature.now (declaration_of decl.now)) (declared_depth signature.now (declaration_of decl.now) ≤ depth_limit)) }
{
    match decl {
        ExtDecl::Declare(_, _, term) => nests_deeply(alloc, signature, term),
        ExtDecl::Define(_, Some(ty), term, _) => {
            Ok(nests_deeply(alloc, signature, ty)? || nests_deeply(alloc, signature, term)?)
        }
        ExtDecl::Define(_, None, term, _) => nests_deeply(alloc, signature, term),
        ExtDecl::NamePref(_, _, _) | ExtDecl::Fixity(_, _) => Ok(false),
    }
}

/// Whether a text nests deeper than 4,096. Parts that are still to be gone over wait on the heap, so a text of any depth is gone over.
pub fn nests_deeply(
    alloc: Global,
    signature: &Signature,
    term: &ExtTerm,
) -> Result<bool, AllocError>
    ensures { IfOk result (λ b. MatchBool b (depth_limit < text_depth signature.now (term_of term.now)) (text_depth signature.now (term_of term.now) ≤ depth_limit)) }
{
    let mut waiting = Vec::new(alloc);
    wait_for_annotations(&mut waiting, term)?;
    wait_for(&mut waiting, term, DEPTH_LIMIT)?;
    while let Some(next) = waiting.pop() {
        if !opened(signature, &mut waiting, next)? {
            return Ok(true);
        }
    }
    Ok(false)
}

/// What counts of a part waits; false where it may nest no level.
#[inline(never)]
fn opened<'a>(
    signature: &Signature,
    waiting: &mut Vec<Waiting<'a>>,
    part: Waiting<'a>,
) -> Result<bool, AllocError>
    ensures within { IfOk result (λ b. (b && all_within signature.now waiting.new.items) ≡ (is_within signature.now part.entry && all_within signature.now waiting.old.items)) }
    ensures work { OnOk result (work waiting.new.items < steps part.entry + work waiting.old.items) }
{
    match part {
        Waiting::Counted(term, levels) => counted(signature, waiting, term, levels),
        Waiting::Searched(term) => {
            open_annotated(waiting, term)?;
            Ok(true)
        }
    }
}

/// The parts of a term that stay wait; false where it may nest no level.
#[inline(never)]
fn counted<'a>(
    signature: &Signature,
    waiting: &mut Vec<Waiting<'a>>,
    term: &'a ExtTerm,
    levels: u32,
) -> Result<bool, AllocError>
    ensures within { IfOk result (λ b. (b && all_within signature.now waiting.new.items) ≡ (nat_le (written_depth signature.now (term_of term.now)) levels && all_within signature.now waiting.old.items)) }
    ensures work { OnOk result (work waiting.new.items < size (term_of term.now) + work waiting.old.items) }
{
    match below(levels) {
        Some(left) => {
            open(signature, waiting, term, levels, left)?;
            Ok(true)
        }
        None => Ok(false),
    }
}

/// One level less, where there is one.
fn below(levels: u32) -> Option<u32>
    ensures { MatchOption result (levels ≡ zero) (λ left. levels ≡ suc left) }
{
    levels.checked_sub(1)
}

/// The parts of a term that stay wait, where it may nest so many levels, and so many are left behind its own.
#[inline(never)]
fn open<'a>(
    signature: &Signature,
    waiting: &mut Vec<Waiting<'a>>,
    term: &'a ExtTerm,
    levels: u32,
    left: u32,
) -> Result<(), AllocError>
    requires { levels ≡ suc left }
    ensures within { OnOk result (all_within signature.now waiting.new.items ≡ (nat_le (written_depth signature.now (term_of term.now)) (suc left) && all_within signature.now waiting.old.items)) }
    ensures work { OnOk result (work waiting.new.items < size (term_of term.now) + work waiting.old.items) }
{
    match term {
        ExtTerm::Ident(_, _) | ExtTerm::Hole(_) | ExtTerm::Star => Ok(()),
        ExtTerm::Arrow(domain, range) => {
            wait_for(waiting, range, left)?;
            wait_for(waiting, domain, left)
        }
        ExtTerm::Pi(_, _, domain, range) => {
            wait_for(waiting, range, left)?;
            wait_for_domain(waiting, domain, left)
        }
        ExtTerm::Lam(_, _, _, body) => wait_for(waiting, body, left),
        ExtTerm::App(function, argument) => open_row(signature, waiting, function, argument, left),
        ExtTerm::Ascribe(inner, _) => wait_for(waiting, inner, levels),
    }
}

/// The arguments of a row wait, where it is kept.
#[inline(never)]
fn open_row<'a>(
    signature: &Signature,
    waiting: &mut Vec<Waiting<'a>>,
    function: &'a ExtTerm,
    argument: &'a ExtTerm,
    left: u32,
) -> Result<(), AllocError>
    ensures within { OnOk result (all_within signature.now waiting.new.items ≡ (nat_le (written_depth signature.now (application (term_of function.now) (term_of argument.now))) (suc left) && all_within signature.now waiting.old.items)) }
    ensures work { OnOk result (work waiting.new.items ≤ size (term_of function.now) + size (term_of argument.now) + work waiting.old.items) }
{
    if !is_kept(signature, function) {
        return Ok(());
    }
    wait_for(waiting, argument, left)?;
    wait_for_arguments(signature, waiting, function, left)
}

/// The arguments of a row that is kept wait.
#[inline(never)]
fn wait_for_arguments<'a>(
    signature: &Signature,
    waiting: &mut Vec<Waiting<'a>>,
    row: &'a ExtTerm,
    left: u32,
) -> Result<(), AllocError>
    requires { is_kept signature.now (term_of row.now) ≡ true }
    ensures within { OnOk result (all_within signature.now waiting.new.items ≡ (nat_le (written_depth signature.now (term_of row.now)) (suc left) && all_within signature.now waiting.old.items)) }
    ensures work { OnOk result (work waiting.new.items ≤ size (term_of row.now) + work waiting.old.items) }
{
    let _signature = signature;
    let mut rest = row;
    while let ExtTerm::App(function, argument) = rest {
        wait_for(waiting, argument, left)?;
        rest = function;
    }
    Ok(())
}

/// Whether a row is kept: its head is the name of a family or a constant.
fn is_kept(signature: &Signature, row: &ExtTerm) -> bool
    ensures { result ≡ is_kept signature.now (term_of row.now) }
{
    let mut rest = row;
    loop {
        match rest {
            ExtTerm::Ident(name, _) => return is_declared(signature, name),
            ExtTerm::App(function, _) => rest = function,
            ExtTerm::Hole(_)
            | ExtTerm::Star
            | ExtTerm::Arrow(_, _)
            | ExtTerm::Pi(_, _, _, _)
            | ExtTerm::Lam(_, _, _, _)
            | ExtTerm::Ascribe(_, _) => return false,
        }
    }
}

/// Whether the newest entry of the name is a family or a constant.
fn is_declared(signature: &Signature, name: &Name) -> bool
    ensures { result ≡ is_declared signature.now name.now }
{
    let Some(id) = signature.lookup(name) else {
        return false;
    };
    match signature.entry(id) {
        Some(entry) => match &entry.body {
            Body::Family(_) | Body::Constant(_) => true,
            Body::Defined { .. } => false,
        },
        None => false,
    }
}

//! Declarations of blocks: reconstructed as the kind of a family, added and reported.
ghost use Rattle.std.specs.Prelude.{◌≡◌, [], List, ℕ, IfErr, IfOk, OnErr, OnOk};
ghost use Rattle.std.specs.Bool.{MatchBool};
ghost use Rattle.lf.specs.Entries.{signature_of};
ghost use Rattle.lf.specs.Subordination.{IsTypedBlock};
ghost use Rattle.tw_approx.specs.Names.{IsFreeVariable};
ghost use Rattle.tw_clause.specs.View.{block_of as plain_block};
ghost use Rattle.tw_parse.specs.View.{declaration_of};
ghost use Rattle.tw_signature.specs.View.{entry_of};
ghost use Rattle.tw_terms.specs.View.{kind_of};
ghost use Rattle.tw_decl.specs.Blocks.{GivesBlock, all_binders, behind, block_by, block_line, first_binders};
ghost use Rattle.tw_decl.specs.Declaration.{AddsBlock};
ghost use Rattle.tw_decl.specs.Obstacles.{IsNotAdded};
ghost use Rattle.tw_decl.specs.Reports.{lines_alone, reported};
ghost use Rattle.tw_decl.specs.Steps.{BlockOutcome};
ghost use Rattle.tw_decl.specs.View.{told, with_block};

use crate::entering::given;
use crate::refusal::Refusal;
use crate::report::{Report, told};
use crate::session::Session;
use std::alloc::{AllocError, Global};
use tw_clause::Block;
use tw_fixity::Name;
use tw_lexer::Place;
use tw_parse::{ExtDecl, ExtName};
use tw_recon::first_free_variable;
use tw_signature::{Body, Entry, Signature};
use tw_terms::{Context, Kind};

// The first quantifiers of a kind, so many of them, and what stands behind them. Fails only for want of memory.
fn first_binders(alloc: Global, count: usize, kind: &Kind) -> Result<(Context, &Kind), AllocError>
    ensures binders { IfOk result (λ r. r.0 ≡ first_binders count [] (kind_of kind.now)) }
    ensures rest { IfOk result (λ r. kind_of r.1.now ≡ behind count (kind_of kind.now)) }
{
    let mut binders = Context::new(alloc);
    let mut rest = kind;
    let mut left = count;
    while left > 0 {
        match rest {
            Kind::Pi(domain, range) => {
                binders.push(domain.copy(alloc)?)?;
                rest = range;
            }
            Kind::Star => return Ok((binders, rest)),
        }
        left -= 1;
    }
    Ok((binders, rest))
}

// All quantifiers of a kind. Fails only for want of memory.
fn all_binders(alloc: Global, kind: &Kind) -> Result<Context, AllocError>
    ensures { IfOk result (λ binders. binders ≡ all_binders [] (kind_of kind.now)) }
{
    let mut binders = Context::new(alloc);
    let mut rest = kind;
    loop {
        match rest {
            Kind::Pi(domain, range) => {
                binders.push(domain.copy(alloc)?)?;
                rest = range;
            }
            Kind::Star => return Ok(binders),
        }
    }
}

// The block of a label with these quantifiers, of which so many are its `some` variables. Fails only for want of memory.
fn block_by(alloc: Global, label: &Name, count: usize, kind: &Kind) -> Result<Block, AllocError>
    ensures { IfOk result (λ b. plain_block b ≡ block_by label.now count (kind_of kind.now)) }
{
    let (some, rest) = first_binders(alloc, count, kind)?;
    Ok(Block {
        label: label.copy(alloc)?,
        some,
        entries: all_binders(alloc, rest)?,
    })
}

// The block that an entry gives, if it is a family of which nothing is implicit. Fails only for want of memory.
fn block_in(
    alloc: Global,
    label: &Name,
    count: usize,
    entry: &Entry,
) -> Result<Option<Block>, AllocError>
    ensures { IfOk result (BlockOutcome label.now count (entry_of entry.now)) }
{
    let Body::Family(kind) = &entry.body else {
        return Ok(None);
    };
    if entry.implicit != 0 {
        return Ok(None);
    }
    Ok(Some(block_by(alloc, label, count, kind)?))
}

// Whether a free variable stands in what is declared. Fails only for want of memory.
fn has_free(alloc: Global, signature: &Signature, declaration: &ExtDecl) -> Result<bool, AllocError>
    ensures { IfOk result (λ b. MatchBool b ((x : List ℕ) × IsFreeVariable signature.now x (declaration_of declaration.now)) ((x : List ℕ) → IsFreeVariable signature.now x (declaration_of declaration.now) → ⊥)) }
{
    match declaration {
        ExtDecl::Declare(_, _, term) => {
            Ok(first_free_variable(alloc, signature, term)?.is_some())
        }
        ExtDecl::Define(_, ty, term, _) => {
            if let Some(ty) = ty {
                if first_free_variable(alloc, signature, ty)?.is_some() {
                    return Ok(true);
                }
            }
            Ok(first_free_variable(alloc, signature, term)?.is_some())
        }
        ExtDecl::NamePref(_, _, _) | ExtDecl::Fixity(_, _) => Ok(false),
    }
}

// The block that is declared: no free variable stands in it, and nothing of it is left open.
fn given_block(
    alloc: Global,
    session: &Session,
    first: Place,
    label: &ExtName,
    count: usize,
    declaration: &ExtDecl,
) -> Result<Block, Refusal>
    ensures gives { IfOk result (λ b. GivesBlock session.now label.now count (declaration_of declaration.now) (plain_block b)) }
    ensures cause { IfErr result (IsNotAdded session.now (declaration_of declaration.now) first) }
{
    match has_free(alloc, session.signature(), declaration) {
        Ok(false) => {}
        Ok(true) => return Err(Refusal::BadDecl(first)),
        Err(_) => return Err(Refusal::Memory),
    }
    let entry = match given(alloc, session, first, declaration) {
        Ok(entry) => entry,
        Err(refusal) => return Err(refusal),
    };
    match block_in(alloc, &label.name, count, &entry) {
        Ok(Some(block)) => Ok(block),
        Ok(None) => Err(Refusal::BadDecl(first)),
        Err(_) => Err(Refusal::Memory),
    }
}

// The line of a declaration of a block. Fails only for want of memory.
fn block_line(alloc: Global, label: &ExtName) -> Result<Vec<u8>, AllocError>
    ensures { IfOk result (λ line. line.items ≡ block_line label.now) }
{
    let mut line = b"%block ".to_vec(alloc)?;
    line.extend_from_slice(label.name.as_bytes())?;
    line.extend_from_slice(b".\n")?;
    Ok(line)
}

// Adds a block, and reports it. After want of memory nothing has changed.
fn keep(
    alloc: Global,
    session: &mut Session,
    label: &ExtName,
    block: Block,
) -> Result<Report, AllocError>
    requires { IsTypedBlock (signature_of session.old.signature) (plain_block block) }
    ensures says { IfOk result (λ report. reported report ≡ lines_alone (told session.old (block_line label.now))) }
    ensures keeps { OnOk result (session.new ≡ with_block session.old (plain_block block)) }
    ensures err { OnErr result (session.new ≡ session.old) }
{
    let line = block_line(alloc, label)?;
    let report = told(alloc, session, line);
    session.add_block(block)?;
    Ok(report)
}

/// Adds the block that is declared. After a refusal nothing has changed.
pub fn add_block(
    alloc: Global,
    session: &mut Session,
    first: Place,
    label: &ExtName,
    count: usize,
    declaration: &ExtDecl,
) -> Result<Report, Refusal>
    ensures ok { IfOk result (λ report. AddsBlock session.old label.now count (declaration_of declaration.now) (reported report) session.new) }
    ensures err { OnErr result (session.new ≡ session.old) }
    ensures cause { IfErr result (IsNotAdded session.old (declaration_of declaration.now) first) }
{
    let block = match given_block(alloc, session, first, label, count, declaration) {
        Ok(block) => block,
        Err(refusal) => return Err(refusal),
    };
    match keep(alloc, session, label, block) {
        Ok(report) => Ok(report),
        Err(_) => Err(Refusal::Memory),
    }
}

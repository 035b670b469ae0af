//! Blocks: whether each `some` variable has a strict occurrence, and whether a part of a context is an instance.
ghost use Rattle.std.specs.Prelude.{◌≡◌, ◌<◌, ◌↔◌, ◌≤◌, ℕ, IfOk, IsErrOf, IsTrue, drop, length, option_map, take, true};
ghost use Rattle.lf.specs.Entries.{signature_of};
ghost use Rattle.lf.specs.Subordination.{IsTypedBlock};
ghost use Rattle.lf.specs.Syntax.{pi};
ghost use Rattle.lf.specs.Typing.{IsContext};
ghost use Rattle.lf.specs.Variables.{nothing};
ghost use Rattle.lf_checks.specs.Strict.{strict_type};
ghost use Rattle.lf_checks.specs.Worlded.{IsStrictBlock};
ghost use Rattle.lf_unification.specs.Offering.{pi_over};
ghost use Rattle.tw_clause.specs.View.{block_of};
ghost use Rattle.tw_terms.specs.View.{type_of};
ghost use Rattle.tw_world.specs.Instances.{InstanceGoesDeep, IsInstance, as_type};

use crate::finding::find_in_type;
use crate::matching::settle;
use std::alloc::{AllocError, Global};
use tw_clause::Block;
use tw_hered::HeredFault;
use tw_signature::Signature;
use tw_terms::numbers::one_more;
use tw_terms::{Context, Ty};

/// Whether each `some` variable of a block has a strict occurrence in an entry's type, where the entries before it count as bound. Goes through the entries once for each variable.
/// Fails only for want of memory.
pub fn is_strict_block(alloc: Global, block: &Block) -> Result<bool, AllocError>
    ensures { IfOk result (λ b. IsTrue b ↔ IsStrictBlock (block_of block.now)) }
{
    match part(alloc, &block.entries, 0, block.entries.len() as u64)? {
        Some(pattern) => are_strict(alloc, &pattern, block.some.len() as u64),
        None => Ok(is_empty(&block.some)),
    }
}

/// Whether the part of a context that begins with the type of variable `newest`, of as many types as the block has entries, is an instance of the block in what stands before it. The
/// block must be strict. Answers `TooDeep` only where the typing of a `some` term goes deeper than 4,096, or the block with it put in is deeper than any number says.
pub fn is_instance(
    alloc: Global,
    sig: &Signature,
    block: &Block,
    outer: &Context,
    local: &Context,
    newest: u64,
) -> Result<bool, HeredFault>
    requires block { IsTypedBlock (signature_of sig.now) (block_of block.now) }
    requires strict { IsStrictBlock (block_of block.now) }
    requires entries { 0 < length block.now.entries }
    requires context { IsContext (signature_of sig.now) outer.now }
    requires within { length block.now.entries ≤ length (drop newest local.now) }
    ensures decided { IfOk result (λ b. IsTrue b ↔ IsInstance (signature_of sig.now) (block_of block.now) outer.now (take (length block.now.entries) (drop newest local.now))) }
    ensures too_deep { IsErrOf result HeredFault.TooDeep → InstanceGoesDeep (signature_of sig.now) (block_of block.now) outer.now (take (length block.now.entries) (drop newest local.now)) }
{
    let size = block.entries.len() as u64;
    let Some(pattern) = part(alloc, &block.entries, 0, size)? else {
        return Ok(false);
    };
    let Some(instance) = part(alloc, local, newest, size)? else {
        return Ok(false);
    };
    let count = block.some.len() as u64;
    let closed = close(alloc, &block.some, 0, count, pattern.copy(alloc)?)?;
    sig.is_canonical();
    settle(alloc, sig, outer, &pattern, &instance, &closed, count)
}

/// Whether the variables below the count have strict occurrences.
fn are_strict(alloc: Global, pattern: &Ty, count: u64) -> Result<bool, AllocError>
    ensures { IfOk result (λ b. IsTrue b ↔ ((x : ℕ) → x < count → strict_type nothing nothing x (type_of pattern.now) ≡ true)) }
{
    let mut next = 0;
    while next < count {
        if !is_strict(alloc, pattern, next)? {
            return Ok(false);
        }
        next += 1;
    }
    Ok(true)
}

/// Whether the variable has a strict occurrence: a type gives it a value in itself exactly then.
fn is_strict(alloc: Global, pattern: &Ty, variable: u64) -> Result<bool, AllocError>
    ensures { IfOk result (λ b. b ≡ strict_type nothing nothing variable (type_of pattern.now)) }
{
    let found = find_in_type(alloc, variable, 0, pattern, pattern)?;
    Ok(found.is_some())
}

/// So many types of a context from this variable on, as one type: the newest, closed over the others.
fn part(alloc: Global, context: &Context, newest: u64, count: u64) -> Result<Option<Ty>, AllocError>
    ensures { IfOk result (λ r. option_map type_of r ≡ as_type (take count (drop newest context.now))) }
{
    if count == 0 {
        return Ok(None);
    }
    match context.get(newest) {
        Some(last) => {
            let body = last.copy(alloc)?;
            Ok(Some(close(alloc, context, one_more(newest)?, count - 1, body)?))
        }
        None => Ok(None),
    }
}

/// The type closed over so many types of a context, from this variable on.
fn close(
    alloc: Global,
    context: &Context,
    from: u64,
    count: u64,
    body: Ty,
) -> Result<Ty, AllocError>
    ensures { IfOk result (λ t. type_of t ≡ pi_over (take count (drop from context.now)) (type_of body)) }
{
    let mut closed = body;
    let mut at = from;
    let mut left = count;
    while left > 0 {
        let Some(ty) = context.get(at) else {
            return Ok(closed);
        };
        closed = function(alloc, ty, closed)?;
        at = one_more(at)?;
        left -= 1;
    }
    Ok(closed)
}

/// The type of functions from one type to another.
fn function(alloc: Global, domain: &Ty, range: Ty) -> Result<Ty, AllocError>
    ensures { IfOk result (λ t. type_of t ≡ pi (type_of domain.now) (type_of range)) }
{
    let domain = Box::new(alloc, domain.copy(alloc)?)?;
    Ok(Ty::Pi(domain, Box::new(alloc, range)?))
}

/// Whether no variable is in scope.
fn is_empty(context: &Context) -> bool
    ensures { IsTrue result ↔ (length context.now ≡ 0) }
{
    context.len() == 0
}

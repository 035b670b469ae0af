//! Rows of arguments, as far as they are elaborated.
ghost use Rattle.std.specs.Prelude.{◌≡◌, ◌-◌, [], ◌∷◌, ◌++◌, IfOk, IsErrOf, MatchOption, OnOk};
ghost use Rattle.lf.specs.Syntax.{arrow, pi, skeleton};
ghost use Rattle.lf.specs.Substitution.{single};
ghost use Rattle.lf.specs.Typing.{instantiate_type};
ghost use Rattle.tw_hered.specs.Fits.{TypeFits};
ghost use Rattle.tw_terms.specs.OpenView.{open_term_of, open_type_of};
ghost use Rattle.tw_written.specs.View.{written_of, written_type_of};
ghost use Rattle.tw_elaborate.specs.FamilyRows.{family_applied_to};
ghost use Rattle.tw_elaborate.specs.Operators.{Applies, IsNext, IsTerm, PutsIn, TakesArgumentDeep, applied_to, operator_of, written_terms};

use crate::operators::{Operator, product, put, whole};
use std::alloc::{AllocError, Global};
use tw_hered::HeredFault;
use tw_prune::arity;
use tw_terms::{Open, OpenTy};
use tw_written::{Written, WrittenType};

/// A row of arguments, as far as it is elaborated: what is put to some of them, its type, and those that are left, the last one first.
#[derive(Drop)]
pub struct Begun<'a> {
    pub operator: Operator,
    pub ty: OpenTy,
    pub args: Vec<&'a Written>,
    /// How many levels of the term that is made are those of the rows that wait for this one.
    pub above: u64,
}

/// A row that waits for its next argument: what the argument is put to, its type, the type behind it, and the arguments that are left then, the last one first.
#[derive(Drop)]
pub struct Waiting<'a> {
    pub operator: Operator,
    pub domain: OpenTy,
    pub range: OpenTy,
    pub args: Vec<&'a Written>,
    /// How many levels of the term that is made are those of the rows that wait for this one.
    pub above: u64,
    /// How many stand above the argument: those of the row itself too.
    pub inside: u64,
}

/// What a row that is begun is to do next.
#[derive(Drop)]
pub enum Next<'a> {
    /// It waits for this argument.
    Argument(&'a Written, Box<Waiting<'a>>),
    /// All its arguments are there.
    Nothing(Box<Begun<'a>>),
}

/// A row as far as it is elaborated.
#[inline(never)]
pub fn begun_with<'a>(
    alloc: Global,
    operator: Operator,
    ty: OpenTy,
    args: Vec<&'a Written>,
    above: u64,
) -> Result<Box<Begun<'a>>, AllocError>
    ensures { IfOk result (λ r. (r.value.operator ≡ operator) × (r.value.ty ≡ ty) × (r.value.args ≡ args.entry)) }
{
    let begun = Begun {
        operator,
        ty,
        args,
        above,
    };
    Ok(Box::new(alloc, begun)?)
}

/// What the row is to do next.
#[inline(never)]
pub fn advance<'a>(alloc: Global, begun: Box<Begun<'a>>) -> Result<Next<'a>, AllocError>
    ensures { IfOk result (IsNext begun.entry.value) }
{
    let mut begun = Box::into_inner(begun);
    match begun.args.pop() {
        Some(arg) => {
            let row = wait(begun)?;
            Ok(Next::Argument(arg, Box::new(alloc, row)?))
        }
        None => Ok(Next::Nothing(Box::new(alloc, begun)?)),
    }
}

/// A row whose next argument was taken off waits for it. What isn't of a function type takes none, and memory counts as used up.
fn wait<'a>(begun: Begun<'a>) -> Result<Waiting<'a>, AllocError>
    ensures { IfOk result (λ w. (w.operator ≡ begun.entry.operator) × (open_type_of begun.entry.ty ≡ pi (open_type_of w.domain) (open_type_of w.range)) × (w.args ≡ begun.entry.args)) }
{
    let (domain, range) = product(begun.ty)?;
    let own = levels(&begun.operator, &range, &begun.args)?;
    let inside = begun.above.saturating_add(own);
    Ok(Waiting {
        operator: begun.operator,
        domain,
        range,
        args: begun.args,
        above: begun.above,
        inside,
    })
}

/// How many levels the row comes to above its argument: a head one, and each argument that its eta-long form takes behind all that are written one lambda. What is put into another term
/// comes to no such levels: nothing deeper than 4,096 is.
fn levels<'a>(
    operator: &Operator,
    range: &OpenTy,
    args: &Vec<&'a Written>,
) -> Result<u64, AllocError> {
    match operator {
        Operator::Head(_, _) => {
            let lambdas = arity(range)?.saturating_sub(args.len() as u64);
            Ok(lambdas.saturating_add(1))
        }
        Operator::Term(_) => Ok(0),
    }
}

/// How many calls are left to what stands below so many levels: each level takes one, since the term that is made is copied, shifted and dropped by recursion. None where there are more.
pub fn left_under(frames: u32, above: u64) -> u32
    ensures { result ≡ frames - above }
{
    (frames as u64).saturating_sub(above) as u32
}

/// One row more waits, for the next one.
#[inline(never)]
pub fn push_waiting<'a>(
    waiting: &mut Vec<Waiting<'a>>,
    row: Box<Waiting<'a>>,
) -> Result<(), AllocError>
    ensures { OnOk result (waiting.new.items ≡ waiting.old.items ++ (row.entry.value ∷ [])) }
{
    waiting.push(Box::into_inner(row))?;
    Ok(())
}

/// The row that waits for the last one, which is taken off, if one waits.
#[inline(never)]
pub fn pop_waiting<'a>(
    alloc: Global,
    waiting: &mut Vec<Waiting<'a>>,
) -> Result<Option<Box<Waiting<'a>>>, AllocError>
    ensures { IfOk result (λ r. MatchOption r (waiting.old.items ≡ []) (λ w. waiting.old.items ≡ waiting.new.items ++ (w.value ∷ []))) }
{
    match waiting.pop() {
        Some(row) => Ok(Some(Box::new(alloc, row)?)),
        None => Ok(None),
    }
}

/// The term and the type of a row whose arguments are all elaborated. Fails only for want of memory.
#[inline(never)]
pub fn finish<'a>(alloc: Global, begun: Box<Begun<'a>>) -> Result<(Open, OpenTy), AllocError>
    ensures { IfOk result (λ p. (open_term_of p.0 ≡ operator_of (skeleton (open_type_of begun.entry.value.ty)) begun.entry.value.operator) × (p.1 ≡ begun.entry.value.ty)) }
{
    let begun = Box::into_inner(begun);
    let ty = begun.ty;
    Ok((whole(alloc, begun.operator, &ty)?, ty))
}

/// The row with the argument that it waits for.
#[inline(never)]
pub fn resume<'a>(
    alloc: Global,
    row: Box<Waiting<'a>>,
    arg: Open,
) -> Result<Box<Begun<'a>>, HeredFault>
    requires applies { Applies (skeleton (open_type_of row.value.domain)) (skeleton (open_type_of row.value.range)) (operator_of (arrow (skeleton (open_type_of row.value.domain)) (skeleton (open_type_of row.value.range))) row.value.operator) (open_term_of arg) }
    requires range { TypeFits (single (skeleton (open_type_of row.value.domain)) (open_term_of arg)) (open_type_of row.value.range) }
    ensures ok { IfOk result (λ r. let a = skeleton (open_type_of row.entry.value.domain) in let b = skeleton (open_type_of row.entry.value.range) in PutsIn a (operator_of (arrow a b) row.entry.value.operator) (open_term_of arg) (operator_of b r.value.operator) × (open_type_of r.value.ty ≡ instantiate_type (open_type_of row.entry.value.domain) (open_term_of arg) (open_type_of row.entry.value.range)) × (r.value.args ≡ row.entry.value.args)) }
    ensures stays { IfOk result (λ r. IsTerm r.value.operator → IsTerm row.entry.value.operator) }
    ensures too_deep { IsErrOf result HeredFault.TooDeep → TakesArgumentDeep row.entry.value.operator (open_type_of row.entry.value.domain) (open_type_of row.entry.value.range) (open_term_of arg) }
{
    let row = Box::into_inner(row);
    let domain = row.domain;
    let (operator, ty) = put(alloc, row.operator, &domain, row.range, arg)?;
    let args = row.args;
    Ok(begun_with(alloc, operator, ty, args, row.above)?)
}

/// What stands before the arguments, and these, the last one first.
#[tactic(auto, using(crate::proofs::Rows::rows))]
pub fn row<'a>(
    alloc: Global,
    written: &'a Written,
) -> Result<(&'a Written, Vec<&'a Written>), AllocError>
    ensures { IfOk result (λ p. applied_to (written_of p.0.now) (written_terms p.1.items) ≡ written_of written.now) }
{
    let mut args: Vec<&'a Written> = Vec::new(alloc);
    let mut head = written;
    while let Written::Applied(function, arg) = head {
        args.push(arg)?;
        head = function;
    }
    Ok((head, args))
}

/// What stands before the arguments of a family, and these, the last one first.
#[tactic(auto, using(crate::proofs::FamilyRows::family_rows))]
pub fn family_row<'a>(
    alloc: Global,
    written: &'a WrittenType,
) -> Result<(&'a WrittenType, Vec<&'a Written>), AllocError>
    ensures { IfOk result (λ p. family_applied_to (written_type_of p.0.now) (written_terms p.1.items) ≡ written_type_of written.now) }
{
    let mut args: Vec<&'a Written> = Vec::new(alloc);
    let mut head = written;
    while let WrittenType::Applied(family, arg) = head {
        args.push(arg)?;
        head = family;
    }
    Ok((head, args))
}

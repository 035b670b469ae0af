//! How long substitution takes. With the word `run` it prints tables; without it, nothing.
#![tactic(auto, using(tw_terms::proofs::Args::skeletons))]

ghost use Rattle.std.specs.Prelude.{◌≡◌, [], ◌∷◌, IfOk};
ghost use Rattle.lf.specs.Syntax.{constant, variable as variable_of, root, nil, app, arrow};
ghost use Rattle.lf.specs.SkeletonTyping.{TermSkeleton};
ghost use Rattle.tw_terms.specs.View.{term_of, skeleton_of};
ghost use Rattle.bench_hered.specs.Trees.{heads, number};

use std::alloc::{AllocError, Global};
use std::time::Instant;
use std::{env, io};
use tw_hered::{HeredFault, substitute};
use tw_terms::{ConstId, Head, Skeleton, Spine, Term};

/// A number.
const ZERO: Head = Head::Const(ConstId(0));

/// The number after a number.
const SUCCESSOR: Head = Head::Const(ConstId(1));

/// A pair of numbers, which is a number.
const PAIR: Head = Head::Const(ConstId(2));

fn zero(alloc: Global) -> Term
    ensures { term_of result ≡ root (constant 0) nil }
{
    Term::Root(
        ZERO,
        Spine {
            args: Vec::new(alloc),
        },
    )
}

// A number, the newest variable.
fn variable(alloc: Global) -> Term
    ensures { term_of result ≡ root (variable_of 0) nil }
{
    Term::Root(
        Head::Var(0),
        Spine {
            args: Vec::new(alloc),
        },
    )
}

// The pair of two copies of a term.
fn pair(alloc: Global, part: &Term) -> Result<Term, AllocError>
    ensures { IfOk result (λ m. term_of m ≡ root (constant 2) (app (term_of part.now) (app (term_of part.now) nil))) }
{
    let mut args = Vec::new(alloc);
    args.push(part.copy(alloc)?)?;
    args.push(part.copy(alloc)?)?;
    Ok(Term::Root(PAIR, Spine { args }))
}

// A tree of pairs with the variable at its leaves. It has 2 ^ (levels + 1) - 1 heads.
fn tree(alloc: Global, levels: u32) -> Result<Term, AllocError>
    ensures { IfOk result (λ m. TermSkeleton heads (number ∷ []) (term_of m) number) }
{
    let mut tree = variable(alloc);
    for _ in 0..levels {
        tree = pair(alloc, &tree)?;
    }
    Ok(tree)
}

// The newest variable, a function, on a number.
fn applied(alloc: Global, part: Term) -> Result<Term, AllocError>
    ensures { IfOk result (λ m. term_of m ≡ root (variable_of 0) (app (term_of part) nil)) }
{
    let mut args = Vec::new(alloc);
    args.push(part)?;
    Ok(Term::Root(Head::Var(0), Spine { args }))
}

// The variable applied so many times, inside its own arguments.
fn nested(alloc: Global, levels: u32) -> Result<Term, AllocError>
    ensures { IfOk result (λ m. TermSkeleton heads (arrow number number ∷ []) (term_of m) number) }
{
    let mut nested = zero(alloc);
    for _ in 0..levels {
        nested = applied(alloc, nested)?;
    }
    Ok(nested)
}

// A function from numbers to numbers that gives its argument.
fn identity(alloc: Global) -> Result<Term, AllocError>
    ensures { IfOk result (λ m. TermSkeleton heads [] (term_of m) (arrow number number)) }
{
    Ok(Term::Lam(Box::new(alloc, variable(alloc))?))
}

// A number after the newest variable.
fn after_variable(alloc: Global) -> Result<Term, AllocError>
    ensures { IfOk result (λ m. term_of m ≡ root (constant 1) (app (root (variable_of 0) nil) nil)) }
{
    let mut args = Vec::new(alloc);
    args.push(variable(alloc))?;
    Ok(Term::Root(SUCCESSOR, Spine { args }))
}

// One that gives the number after its argument.
fn successor(alloc: Global) -> Result<Term, AllocError>
    ensures { IfOk result (λ m. TermSkeleton heads [] (term_of m) (arrow number number)) }
{
    Ok(Term::Lam(Box::new(alloc, after_variable(alloc)?)?))
}

// The skeleton of these functions.
fn function_skeleton(alloc: Global) -> Result<Skeleton, AllocError>
    ensures { IfOk result (λ a. skeleton_of a ≡ arrow number number) }
{
    let domain = Box::new(alloc, Skeleton::Base(ConstId(0)))?;
    let range = Box::new(alloc, Skeleton::Base(ConstId(0)))?;
    Ok(Skeleton::Arrow(domain, range))
}

// Zero put in for the variable of the tree.
fn put_in(alloc: Global, tree: &Term) -> Result<Term, HeredFault>
    requires { TermSkeleton heads (number ∷ []) (term_of tree.now) number }
{
    substitute(alloc, tree, 0, &zero(alloc), &Skeleton::Base(ConstId(0)))
}

// A function put in for the variable that is applied.
fn put_function(alloc: Global, nested: &Term, function: &Term) -> Result<Term, HeredFault>
    requires nested { TermSkeleton heads (arrow number number ∷ []) (term_of nested.now) number }
    requires function { TermSkeleton heads [] (term_of function.now) (arrow number number) }
{
    let skeleton = function_skeleton(alloc)?;
    substitute(alloc, nested, 0, function, &skeleton)
}

// How many microseconds one substitution into a tree takes.
fn tree_microseconds(rt: &HostRuntime, levels: u32) -> anyhow::Result<u128> {
    let alloc = rt.alloc();
    let tree = tree(alloc, levels)?;
    let start = Instant::now(rt)?;
    let result = put_in(alloc, &tree)?;
    let spent = start.elapsed(rt)?;
    drop(result);
    Ok(spent.as_micros())
}

// How many one for a nested variable takes.
fn nested_microseconds(rt: &HostRuntime, levels: u32, function: &Term) -> anyhow::Result<u128>
    requires { TermSkeleton heads [] (term_of function.now) (arrow number number) }
{
    let alloc = rt.alloc();
    let nested = nested(alloc, levels)?;
    let start = Instant::now(rt)?;
    let result = put_function(alloc, &nested, function)?;
    let spent = start.elapsed(rt)?;
    drop(result);
    Ok(spent.as_micros())
}

// A row of a table: a size, its time, and both in percent of the row above, which is 0 where there is none.
fn print_row(
    rt: &HostRuntime,
    size: u64,
    spent: u128,
    last_size: u64,
    last_spent: u128,
) -> io::Result<()> {
    let sizes = size.saturating_mul(100).checked_div(last_size).unwrap_or(0);
    let times = spent
        .saturating_mul(100)
        .checked_div(last_spent)
        .unwrap_or(0);
    println!(rt; "{size:>8} {spent:>13} {sizes:>10}% {times:>10}%")
}

// Substitutions into trees.
fn tree_table(rt: &HostRuntime) -> anyhow::Result<()> {
    println!(rt; "trees\n   nodes  microseconds    of nodes     of time")?;
    let mut last_size = 0;
    let mut last_spent = 0;
    for levels in [9, 12, 15, 18, 19] {
        let spent = tree_microseconds(rt, levels)?;
        let size = (1u64 << (levels + 1)) - 1;
        print_row(rt, size, spent, last_size, last_spent)?;
        last_size = size;
        last_spent = spent;
    }
    Ok(())
}

// Substitutions for the nested variable.
fn nested_table(rt: &HostRuntime, function: &Term, sizes: &[u32]) -> anyhow::Result<()>
    requires { TermSkeleton heads [] (term_of function.now) (arrow number number) }
{
    println!(rt; "  levels  microseconds   of levels     of time")?;
    let mut last_size = 0;
    let mut last_spent = 0;
    for levels in sizes {
        let spent = nested_microseconds(rt, *levels, function)?;
        print_row(rt, *levels as u64, spent, last_size, last_spent)?;
        last_size = *levels as u64;
        last_spent = spent;
    }
    Ok(())
}

fn main(rt: HostRuntime) -> anyhow::Result<()> {
    let words = env::args(&rt)?;
    if words.len() < 2 {
        return Ok(());
    }
    let alloc = rt.alloc();
    tree_table(&rt)?;
    println!(rt; "f (f (.. z)) with [y] s y for f")?;
    nested_table(&rt, &successor(alloc)?, &[100, 1000, 4000])?;
    println!(rt; "f (f (.. z)) with [y] y for f")?;
    nested_table(&rt, &identity(alloc)?, &[100, 1000, 10000])
}

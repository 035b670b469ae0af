//! For each number those directly below it.
ghost use Rattle.std.specs.Prelude.{◌≡◌, ◌≤◌, ◌<◌, ◌↔◌, ℕ, IfOk, OnOk, map, length, Contains};
ghost use Rattle.std.specs.List.Sorted.{IsStrictlyIncreasing};
ghost use Rattle.tw_subord.specs.Pairs.{pairs_of};
ghost use Rattle.tw_subord.specs.Rows.{row, rows_of, with_link};

use crate::pairs::Pair;
use std::alloc::{AllocError, Global};
use tw_terms::numbers::one_more;

/// For each number below the count, and for each one in a pair, those that a pair has below it, each once.
pub fn links(alloc: Global, count: u64, pairs: &[Pair]) -> Result<Vec<Vec<u64>>, AllocError>
    ensures covers { IfOk result (λ v. count ≤ length v.items) }
    ensures linked { IfOk result (λ v. (a b : ℕ) → (Contains (row (rows_of v.items) b) a) ↔ Contains (pairs_of pairs.now) (a, b)) }
{
    let mut links = Vec::new(alloc);
    grow(&mut links, count)?;
    for pair in pairs {
        link(&mut links, *pair)?;
    }
    put_in_order(&mut links);
    Ok(links)
}

/// Adds empty rows until there are so many.
fn grow(links: &mut Vec<Vec<u64>>, count: u64) -> Result<(), AllocError>
    ensures covers { OnOk result (count ≤ length links.new.items) }
    ensures same { OnOk result ((b : ℕ) → row (rows_of links.new.items) b ≡ row (rows_of links.old.items) b) }
    ensures longer { length links.old.items ≤ length links.new.items }
{
    while (links.len() as u64) < count {
        links.push(Vec::new(*links.allocator()))?;
    }
    Ok(())
}

/// Adds a pair. Fails for want of memory, as where the rows would be too many for it.
fn link(links: &mut Vec<Vec<u64>>, pair: Pair) -> Result<(), AllocError>
    ensures linked { OnOk result ((b : ℕ) → row (rows_of links.new.items) b ≡ with_link (rows_of links.old.items) pair.below pair.above b) }
    ensures longer { length links.old.items ≤ length links.new.items }
{
    grow(links, one_more(pair.above)?)?;
    links[pair.above as usize].push(pair.below)?;
    Ok(())
}

/// Puts each row in order.
fn put_in_order(links: &mut Vec<Vec<u64>>)
    ensures same { (a b : ℕ) → (Contains (row (rows_of links.new.items) b) a) ↔ Contains (row (rows_of links.old.items) b) a }
    ensures len { length links.new.items ≡ length links.old.items }
{
    for number in 0..links.len() {
        in_order(&mut links[number]);
    }
}

/// Puts a row in order, each number once.
pub fn in_order(row: &mut Vec<u64>)
    ensures same { (a : ℕ) → (Contains row.new.items a) ↔ Contains row.old.items a }
    ensures in_order { IsStrictlyIncreasing row.new.items }
{
    row.sort_unstable();
    row.dedup();
}

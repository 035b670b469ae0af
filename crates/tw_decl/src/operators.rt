//! Operators: what a declaration of them asks of names, the rows that it gives, and its line.
ghost use Rattle.std.specs.Prelude.{◌≡◌, ◌++◌, reverse, IfOk, OnOk, OnErr};
ghost use Rattle.std.specs.FinMap as map;
ghost use Rattle.tw_parse.specs.Outlines.{Table};
ghost use Rattle.tw_decl.specs.Operators.{all_take, fix_words, fixity_line, newest, operand_count, side_word, takes, with_rows};
ghost use Rattle.tw_decl.specs.Undoing.{back_to, IsThere, LeadsBack};

use std::alloc::{AllocError, Global};
use tw_fixity::{Assoc, Fix, FixTable, Name};
use tw_parse::ExtName;
use tw_signature::Signature;

/// The row that a name had, if it had one.
#[derive(Drop)]
pub struct OldRow {
    name: Name,
    row: Option<Fix>,
}

/// How many operands an operator has.
pub fn operand_count(fix: Fix) -> usize
    ensures { result ≡ operand_count fix }
{
    match fix {
        Fix::Infix(_, _) => 2,
        Fix::Prefix(_) | Fix::Postfix(_) => 1,
    }
}

// Whether the newest entry of the name takes so many arguments.
fn takes(signature: &Signature, operands: usize, name: &Name) -> bool
    ensures { result ≡ takes operands (newest signature.now name.now) }
{
    signature.is_canonical();
    let Some(id) = signature.lookup(name) else {
        return false;
    };
    let Some(entry) = signature.entry(id) else {
        return false;
    };
    entry.hints.len().saturating_sub(entry.implicit as usize) >= operands
}

/// Whether each name takes so many arguments.
pub fn all_take(signature: &Signature, operands: usize, names: &[ExtName]) -> bool
    ensures { result ≡ all_take signature.now operands names.now }
{
    for x in names {
        if !takes(signature, operands, &x.name) {
            return false;
        }
    }
    true
}

// Gives a name the row, and keeps the one that it had behind the others. What is kept leads back, also where memory is wanting.
fn set_row(
    alloc: Global,
    table: &mut FixTable,
    old: &mut Vec<OldRow>,
    fix: Fix,
    name: &Name,
) -> Result<(), AllocError>
    ensures ok { OnOk result (table.new ≡ map.insert table.old name.now fix) }
    ensures back { (first : Table) → LeadsBack table.old (reverse old.old.items) first → LeadsBack table.new (reverse old.new.items) first }
{
    let row = table.get(name);
    let kept = name.copy(alloc)?;
    let given = name.copy(alloc)?;
    old.push(OldRow { name: kept, row })?;
    match table.set(given, fix) {
        Ok(()) => Ok(()),
        Err(error) => Err(error),
    }
}

// Gives a name its row back.
fn put_back(table: &mut FixTable, old: OldRow)
    ensures { IsThere table.old old.name old.row → table.new ≡ back_to table.old old.name old.row }
{
    let OldRow { name, row } = old;
    match row {
        None => table.remove(&name),
        Some(fix) => {
            let _ = table.set(name, fix);
        }
    }
}

// Takes the rows back, the last one first.
fn take_back(table: &mut FixTable, old: Vec<OldRow>)
    ensures { (first : Table) → LeadsBack table.old (reverse old.items) first → table.new ≡ first }
{
    let mut old = old;
    while let Some(row) = old.pop() {
        put_back(table, row);
    }
}

/// Gives each name the row. Without memory nothing has changed.
pub fn set_rows(
    alloc: Global,
    table: &mut FixTable,
    fix: Fix,
    names: &[ExtName],
) -> Result<(), AllocError>
    ensures ok { OnOk result (table.new ≡ with_rows table.old fix names.now) }
    ensures err { OnErr result (table.new ≡ table.old) }
{
    let mut old = Vec::new(alloc);
    for x in names {
        if set_row(alloc, table, &mut old, fix, &x.name).is_err() {
            take_back(table, old);
            return Err(AllocError);
        }
    }
    Ok(())
}

fn side_word(side: Assoc) -> &'static str
    ensures { result.now ≡ side_word side }
{
    match side {
        Assoc::Neither => "none",
        Assoc::Left => "left",
        Assoc::Right => "right",
    }
}

fn fix_words(alloc: Global, fix: Fix) -> Result<Vec<u8>, AllocError>
    ensures { IfOk result (λ words. words.items ≡ fix_words fix) }
{
    let words = match fix {
        Fix::Infix(side, p) => format!(in alloc; "%infix {} {p}", side_word(side))?,
        Fix::Prefix(p) => format!(in alloc; "%prefix {p}")?,
        Fix::Postfix(p) => format!(in alloc; "%postfix {p}")?,
    };
    Ok(words.into_bytes())
}

/// The line of a declaration of operators. Fails only for want of memory.
pub fn fixity_line(alloc: Global, fix: Fix, names: &[ExtName]) -> Result<Vec<u8>, AllocError>
    ensures { IfOk result (λ line. line.items ≡ fixity_line fix names.now) }
{
    let mut line = fix_words(alloc, fix)?;
    for x in names {
        line.push(b' ')?;
        line.extend_from_slice(x.name.as_bytes())?;
    }
    line.extend_from_slice(b".\n")?;
    Ok(line)
}

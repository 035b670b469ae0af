//! A record as lines, by the numbers of its families.
use std::alloc::AllocError;
use tw_clause::{Mark3, Modes, Order, Worlds};
use tw_terms::ConstId;
use tw_total::TotalRecord;

/// Each part of the record on a line.
pub(crate) fn show_record(text: &mut String, record: &TotalRecord) -> Result<(), AllocError> {
    text.push_str("families")?;
    show_families(text, &record.families)?;
    text.push_str("\nmodes")?;
    show_modes(text, &record.modes)?;
    text.push_str("\nworlds")?;
    show_worlds(text, &record.worlds)?;
    text.push_str("\nbelow")?;
    show_below(text, &record.below)?;
    text.push_str("\nfrozen")?;
    show_families(text, &record.frozen)?;
    text.push_str("\norder")?;
    show_order(text, &record.order)?;
    text.push('\n')
}

fn show_families(text: &mut String, families: &[ConstId]) -> Result<(), AllocError> {
    for family in families {
        write!(text, " {}", family.0)?;
    }
    Ok(())
}

fn show_modes(text: &mut String, modes: &Modes) -> Result<(), AllocError> {
    for (family, marks) in &modes.rows {
        write!(text, " {}:", family.0)?;
        for mark in marks {
            text.push(match mark {
                Mark3::Plus => '+',
                Mark3::Minus => '-',
                Mark3::Free => '*',
            })?;
        }
    }
    Ok(())
}

/// The label of each block and how many entries it has.
fn show_worlds(text: &mut String, worlds: &Worlds) -> Result<(), AllocError> {
    for block in &worlds.blocks {
        let label = std::str::from_utf8(block.label.as_bytes()).unwrap_or("?");
        write!(text, " {label}:{}", block.entries.len())?;
    }
    Ok(())
}

fn show_below(text: &mut String, below: &[(ConstId, Vec<ConstId>)]) -> Result<(), AllocError> {
    for (family, families) in below {
        write!(text, " {}:", family.0)?;
        show_families(text, families)?;
    }
    Ok(())
}

fn show_order(text: &mut String, order: &[(ConstId, Order)]) -> Result<(), AllocError> {
    for (family, order) in order {
        write!(text, " {}:", family.0)?;
        match order {
            Order::Arg(place) => write!(text, " {place}")?,
            Order::Lex(_) | Order::Simul(_) => text.push_str(" components")?,
        }
    }
    Ok(())
}

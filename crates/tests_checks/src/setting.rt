//! What a subgoal or a group is looked at with, besides the blocks.
use crate::reading::{add_block, read_group};
use crate::subordination::subord_over;
use std::alloc::{AllocError, Global};
use tests_forms::{Case, FormFault, Names};
use tw_clause::{WorldRows, Worlds};
use tw_signature::Signature;
use tw_subord::Subord;
use tw_terms::ConstId;

/// The worlds that other families have, the families of the group, and subordination.
#[derive(Drop)]
pub(crate) struct Setting {
    pub rows: WorldRows,
    pub group: Vec<ConstId>,
    pub subord: Subord,
}

/// The setting of a case.
pub(crate) fn read_setting(
    alloc: Global,
    signature: &Signature,
    names: &mut Names,
    case: &Case,
    worlds: &Worlds,
) -> Result<Setting, FormFault> {
    let rows = read_rows(alloc, names, case, worlds)?;
    let group = read_group(alloc, names, case)?;
    let subord = subord_over(alloc, signature, worlds)?;
    Ok(Setting {
        rows,
        group,
        subord,
    })
}

// The row of a family, if `knows` names one: the caller's blocks with the labels behind it, and the block `other`.
fn read_rows(
    alloc: Global,
    names: &mut Names,
    case: &Case,
    worlds: &Worlds,
) -> Result<WorldRows, FormFault> {
    let text = case.text("knows")?;
    let mut rows = Vec::new(alloc);
    if !text.is_empty() {
        rows.push(read_row(alloc, names, case, worlds, text)?)?;
    }
    Ok(WorldRows { rows })
}

fn read_row(
    alloc: Global,
    names: &mut Names,
    case: &Case,
    worlds: &Worlds,
    text: &str,
) -> Result<(ConstId, Worlds), FormFault> {
    let mut words = text.split_ascii_whitespace();
    let family = names.constant(words.next().ok_or(FormFault::NoMeaning)?)?;
    let mut known = Worlds {
        blocks: Vec::new(alloc),
    };
    for label in words {
        copy_labelled(alloc, worlds, label, &mut known)?;
    }
    let other = ["other", "other-some", "other-entries"];
    add_block(alloc, names, case, other, &mut known)?;
    Ok((family, known))
}

// Adds copies of the blocks with this label.
fn copy_labelled(
    alloc: Global,
    worlds: &Worlds,
    label: &str,
    known: &mut Worlds,
) -> Result<(), AllocError> {
    for block in &worlds.blocks {
        if block.label.as_bytes() == label.as_bytes() {
            known.blocks.push(block.copy(alloc)?)?;
        }
    }
    Ok(())
}

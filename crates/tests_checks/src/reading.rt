//! Types, families and blocks read from the words of a case.
use std::alloc::Global;
use tests_forms::{Case, FormFault, Names, read_closed_context, read_closed_type, read_forms};
use tw_clause::{Block, Worlds};
use tw_fixity::Name;
use tw_terms::{ConstId, Context, Ty};

/// The type that a word of the case says.
pub(crate) fn read_type(
    alloc: Global,
    names: &mut Names,
    case: &Case,
    word: &str,
) -> Result<Ty, FormFault> {
    let form = case.form(alloc, word)?;
    read_closed_type(alloc, names, &form)
}

/// The context that a word of the case says. Its variables stay in scope.
pub(crate) fn read_context(
    alloc: Global,
    names: &mut Names,
    case: &Case,
    word: &str,
) -> Result<Context, FormFault> {
    let forms = read_forms(alloc, case.text(word)?)?;
    read_closed_context(alloc, names, &forms)
}

/// The family that a word of the case names.
pub(crate) fn read_family(names: &Names, case: &Case, word: &str) -> Result<ConstId, FormFault> {
    names.constant(case.text(word)?)
}

/// The families of `group`, in order.
pub(crate) fn read_group(
    alloc: Global,
    names: &Names,
    case: &Case,
) -> Result<Vec<ConstId>, FormFault> {
    let text = case.text("group")?;
    let mut group = Vec::new(alloc);
    for word in text.split_ascii_whitespace() {
        add_family(names, word, &mut group)?;
    }
    Ok(group)
}

fn add_family(names: &Names, word: &str, group: &mut Vec<ConstId>) -> Result<(), FormFault> {
    group.push(names.constant(word)?)?;
    Ok(())
}

/// The blocks of a case, of which it has three at most.
pub(crate) fn read_worlds(
    alloc: Global,
    names: &mut Names,
    case: &Case,
) -> Result<Worlds, FormFault> {
    let mut worlds = Worlds {
        blocks: Vec::new(alloc),
    };
    add_blocks(alloc, names, case, &mut worlds)?;
    Ok(worlds)
}

fn add_blocks(
    alloc: Global,
    names: &mut Names,
    case: &Case,
    worlds: &mut Worlds,
) -> Result<(), FormFault> {
    let first = ["label", "some", "entries"];
    let second = ["second", "second-some", "second-entries"];
    let third = ["third", "third-some", "third-entries"];
    add_block(alloc, names, case, first, worlds)?;
    add_block(alloc, names, case, second, worlds)?;
    add_block(alloc, names, case, third, worlds)
}

/// Adds the block with these words for its label, its `some` variables and its entries, if it has a label.
pub(crate) fn add_block(
    alloc: Global,
    names: &mut Names,
    case: &Case,
    words: [&str; 3],
    worlds: &mut Worlds,
) -> Result<(), FormFault> {
    if !case.text(words[0])?.is_empty() {
        worlds.blocks.push(read_block(alloc, names, case, words)?)?;
    }
    Ok(())
}

/// The block with these words for its label, its `some` variables and its entries. Its variables stay in scope.
pub(crate) fn read_block(
    alloc: Global,
    names: &mut Names,
    case: &Case,
    words: [&str; 3],
) -> Result<Block, FormFault> {
    names.forget_all_but_constants(alloc);
    let label = Name::from_bytes(alloc, case.text(words[0])?.as_bytes())?;
    let some = read_context(alloc, names, case, words[1])?;
    let entries = read_context(alloc, names, case, words[2])?;
    Ok(Block {
        label,
        some,
        entries,
    })
}

//! Worlds: the blocks that labels name, and the line of a declaration of them.
ghost use Rattle.std.specs.Prelude.{◌≡◌, ◌++◌, map, IfOk, OnOk};
ghost use Rattle.tw_decl.specs.Steps.{AreBlocksNamed, application_of};
ghost use Rattle.tw_decl.specs.Worlds.{further_labels, label_words, worlds_line};

use crate::applications::{Application, push_families};
use crate::labels::block_named;
use crate::session::Session;
use std::alloc::{AllocError, Global};
use tw_clause::Worlds;
use tw_parse::ExtName;

/// The blocks that labels name, in their order, if each is a block's. Fails only for want of memory.
pub fn blocks_named(
    alloc: Global,
    session: &Session,
    labels: &[ExtName],
) -> Result<Option<Worlds>, AllocError>
    ensures { IfOk result (AreBlocksNamed session.now labels.now) }
{
    let mut blocks = Vec::with_capacity(alloc, labels.len())?;
    for label in labels {
        match block_named(session, &label.name) {
            Some(block) => blocks.push(block.copy(alloc)?)?,
            None => return Ok(None),
        }
    }
    Ok(Some(Worlds { blocks }))
}

// Puts labels behind a line, each behind a bar.
fn push_further(line: &mut Vec<u8>, labels: &[ExtName]) -> Result<(), AllocError>
    ensures { OnOk result (line.new.items ≡ line.old.items ++ further_labels labels.now) }
{
    for label in labels {
        line.extend_from_slice(b" | ")?;
        line.extend_from_slice(label.name.as_bytes())?;
    }
    Ok(())
}

// Puts labels behind a line, with a bar between each two.
fn push_labels(line: &mut Vec<u8>, labels: &[ExtName]) -> Result<(), AllocError>
    ensures { OnOk result (line.new.items ≡ line.old.items ++ label_words labels.now) }
{
    match labels {
        [first, further @ ..] => {
            line.extend_from_slice(first.name.as_bytes())?;
            push_further(line, further)
        }
        [] => Ok(()),
    }
}

/// The line of a declaration of worlds. Fails only for want of memory.
pub fn worlds_line(
    alloc: Global,
    labels: &[ExtName],
    applications: &[Application],
) -> Result<Vec<u8>, AllocError>
    ensures { IfOk result (λ line. line.items ≡ worlds_line labels.now (map application_of applications.now)) }
{
    let mut line = b"%worlds (".to_vec(alloc)?;
    push_labels(&mut line, labels)?;
    line.push(b')')?;
    push_families(&mut line, applications)?;
    line.extend_from_slice(b".\n")?;
    Ok(line)
}

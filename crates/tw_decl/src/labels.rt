//! Labels of blocks: the block that one names, and names that an entry or a block has.
ghost use Rattle.std.specs.Prelude.{◌≡◌, map, option_map};
ghost use Rattle.tw_clause.specs.View.{block_of};
ghost use Rattle.tw_decl.specs.Labels.{block_named, is_known, is_label};
ghost use Rattle.tw_decl.specs.Operators.{first_undeclared};

use crate::session::Session;
use tw_clause::Block;
use tw_fixity::Name;
use tw_parse::ExtName;

/// Whether a block has this label.
pub fn is_label(blocks: &[Block], label: &Name) -> bool
    ensures { result ≡ is_label (map block_of blocks.now) label.now }
{
    for block in blocks {
        if block.label.as_bytes() == label.as_bytes() {
            return true;
        }
    }
    false
}

/// The block that a label names, if there is one: the newest that has it.
pub fn block_named<'a>(session: &'a Session, label: &Name) -> Option<&'a Block>
    ensures { option_map (λ b. block_of b.now) result ≡ block_named session.now label.now }
{
    let mut found = None;
    for block in session.blocks() {
        if block.label.as_bytes() == label.as_bytes() {
            found = Some(block);
        }
    }
    found
}

/// Whether an entry or a block has this name.
pub fn is_known(session: &Session, name: &Name) -> bool
    ensures { result ≡ is_known session.now name.now }
{
    session.signature().lookup(name).is_some() || is_label(session.blocks(), name)
}

/// The first of the names that is neither an entry's nor a block's.
pub fn first_undeclared<'a>(session: &Session, names: &'a [ExtName]) -> Option<&'a ExtName>
    ensures { option_map (λ x. x.now) result ≡ first_undeclared session.now names.now }
{
    for x in names {
        if !is_known(session, &x.name) {
            return Some(x);
        }
    }
    None
}

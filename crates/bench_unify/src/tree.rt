//! Marks and undos.
ghost use Rattle.std.specs.Prelude.{◌≡◌, length, OnOk};

use std::alloc::{AllocError, Global};
use tw_metas::Store;
use tw_terms::{ConstId, Open, OpenContext, OpenHead, OpenSpine, OpenTy};

/// Goes through a binary tree so many levels deep. Each branch declares a metavariable and binds it, goes on below, and is taken back to its mark.
#[cycle(tree)]
pub fn walk(alloc: Global, store: &mut Store, levels: u64) -> Result<(), AllocError>
    requires { length store.old.now.values ≡ length store.old.now.declared }
    ensures { OnOk result (store.new ≡ store.old) }
{
    if levels == 0 {
        return Ok(());
    }
    branch(alloc, store, levels - 1)?;
    branch(alloc, store, levels - 1)?;
    Ok(())
}

// one branch, with so many levels below it
#[cycle(tree)]
fn branch(alloc: Global, store: &mut Store, levels: u64) -> Result<(), AllocError>
    requires { length store.old.now.values ≡ length store.old.now.declared }
    ensures { OnOk result (store.new ≡ store.old) }
{
    let mark = store.mark();
    let args = Vec::new(alloc);
    let number = OpenTy::Atom(ConstId(0), OpenSpine { args });
    let meta = store.fresh(OpenContext::new(alloc), number)?;
    let args = Vec::new(alloc);
    store.bind(
        meta,
        Open::Root(OpenHead::Const(ConstId(1)), OpenSpine { args }),
    )?;
    walk(alloc, store, levels)?;
    store.undo_to(&mark);
    Ok(())
}

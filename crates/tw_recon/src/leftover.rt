//! The equation that is told where some are left.
ghost use Rattle.std.specs.Prelude.{◌≡◌, IfOk, length, map};
ghost use Rattle.lf.specs.Entries.{IsCanonicalSignature};
ghost use Rattle.lf_elaboration.specs.Sites.{AreFreesInOrder};
ghost use Rattle.tw_approx.specs.Answer.{rows_of};
ghost use Rattle.tw_elaborate.specs.View.{numbers_of};
ghost use Rattle.tw_written.specs.View.{written_body_of};
ghost use Rattle.tw_recon.specs.Begun.{IsLeft};
ghost use Rattle.tw_recon.specs.Causes.{Stops};

use crate::fault::ReconFault;
use crate::names::{named, names};
use std::alloc::Global;
use tw_approx::Row;
use tw_hered::HeredFault;
use tw_metas::Store;
use tw_signature::Signature;
use tw_terms::MetaId;
use tw_unify::{UnifyFault, left_equation};
use tw_written::WrittenBody;

/// Why what is written isn't completed where equations are left: it tells the first of them, with the names of the free variables, which the text has in
/// this order.
pub fn leftover(
    alloc: Global,
    signature: &Signature,
    store: &Store,
    rows: &[Row],
    written: &WrittenBody,
    frees: &[MetaId],
    order: &[usize],
) -> ReconFault
    requires canonical { IsCanonicalSignature signature.now }
    requires left { IsLeft signature.now (rows_of rows.now) (written_body_of written.now) (numbers_of frees.now) store.now.now }
    requires in_order { AreFreesInOrder (written_body_of written.now) (length (rows_of rows.now)) order.now }
    ensures { Stops signature.now (rows_of rows.now) (written_body_of written.now) result }
{
    let naming = match names(alloc, store, rows, frees, order) {
        Ok(naming) => naming,
        Err(HeredFault::TooDeep) => return ReconFault::TooDeep,
        Err(HeredFault::NoMemory) => return ReconFault::NoMemory,
    };
    let Ok(named) = named(alloc, &naming.names) else {
        return ReconFault::NoMemory;
    };
    match left_equation(alloc, store, signature, 0, &named) {
        Ok(left) => ReconFault::Leftover(left),
        Err(UnifyFault::TooDeep) => ReconFault::TooDeep,
        Err(UnifyFault::NoMemory) => ReconFault::NoMemory,
    }
}

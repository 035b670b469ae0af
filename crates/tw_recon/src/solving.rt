//! The equations of what is written, solved.
ghost use Rattle.std.specs.Prelude.{◌≡◌, IfErr, IfOk};
ghost use Rattle.tw_approx.specs.Answer.{rows_of};
ghost use Rattle.tw_written.specs.View.{written_body_of};
ghost use Rattle.tw_recon.specs.Begun.{IsBegun, IsSolution};
ghost use Rattle.tw_recon.specs.Causes.{Stops};

use crate::begun::{Begun, skeletons};
use crate::fault::ReconFault;
use crate::leftover::leftover;
use std::alloc::Global;
use tw_approx::Row;
use tw_elaborate::{Elaborated, Elaboration, OpenBody};
use tw_metas::Store;
use tw_signature::Signature;
use tw_terms::MetaId;
use tw_unify::{Unified, UnifyFault, solve};
use tw_written::{WrittenBody, frees_in_text_order, sites};

/// What is written, with the solved store: the metavariables of its free variables, those at the places of its text, its free variables as the text has them
/// first, and its open body.
#[derive(Drop)]
pub struct Solution {
    pub rows: Vec<Row>,
    pub written: WrittenBody,
    pub store: Store,
    pub frees: Vec<MetaId>,
    pub sites: Vec<MetaId>,
    pub order: Vec<usize>,
    pub body: OpenBody,
}

/// Solves the equations.
pub fn settle(alloc: Global, signature: &Signature, begun: Begun) -> Result<Solution, ReconFault>
    requires { IsBegun signature.now begun }
    ensures rows { IfOk result (λ s. s.rows ≡ begun.rows) }
    ensures written { IfOk result (λ s. s.written ≡ begun.written) }
    ensures solved { IfOk result (λ s. IsSolution signature.now s) }
    ensures refused { IfErr result (λ f. Stops signature.now (rows_of begun.rows.items) (written_body_of begun.written) f) }
{
    signature.is_canonical();
    let Begun {
        rows,
        written,
        elaborated,
    } = begun;
    let skeletons = skeletons(alloc, &rows)?;
    let sites = sites(alloc, signature, &skeletons, &written)?;
    let order = frees_in_text_order(alloc, &written, rows.len())?;
    let Elaborated { state, frees, body } = elaborated;
    let Elaboration {
        store,
        equations,
        ..
    } = state;
    let mut store = store;
    match solve(alloc, &mut store, signature, equations) {
        Ok(Unified::Solved) => Ok(Solution {
            rows,
            written,
            store,
            frees,
            sites,
            order,
            body,
        }),
        Ok(Unified::Never) => Err(ReconFault::Mismatch),
        Ok(Unified::Left) => Err(leftover(
            alloc, signature, &store, &rows, &written, &frees, &order,
        )),
        Err(UnifyFault::TooDeep) => Err(ReconFault::TooDeep),
        Err(UnifyFault::NoMemory) => Err(ReconFault::NoMemory),
    }
}

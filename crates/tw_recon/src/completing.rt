//! What is written, completed: what is read off the solution.
ghost use Rattle.std.specs.Prelude.{◌≡◌, IfErr, IfOk};
ghost use Rattle.lf.specs.Entries.{IsCanonicalSignature};
ghost use Rattle.tw_approx.specs.Answer.{rows_of};
ghost use Rattle.tw_abstract.specs.Reading.{IsSettled};
ghost use Rattle.tw_signature.specs.View.{body_of};
ghost use Rattle.tw_written.specs.View.{written_body_of};
ghost use Rattle.tw_recon.specs.Begun.{IsSolution};
ghost use Rattle.tw_recon.specs.Causes.{Stops, of_reading};
ghost use Rattle.tw_recon.specs.Reconstruction.{IsCompletedTo};

use crate::begun::{Told, begin};
use crate::bodies::read_body;
use crate::fault::ReconFault;
use crate::names::{hints, names, shown};
use crate::solving::{Solution, settle};
use std::alloc::Global;
use tw_abstract::read_quantifiers;
use tw_fixity::Name;
use tw_hered::HeredFault;
use tw_signature::{Body, Signature};
use tw_terms::Context;

/// The implicit quantifiers, their hints, the outermost first, the variables of those with hints, in the order of the text, and the body in their scope.
#[derive(Drop)]
pub struct Completed {
    pub quantifiers: Context,
    pub hints: Vec<Option<Name>>,
    pub shown: Vec<u64>,
    pub body: Body,
}

/// Completes what is written in the most general way.
pub fn complete(alloc: Global, signature: &Signature, told: Told) -> Result<Completed, ReconFault>
    ensures completed { IfOk result (λ c. IsCompletedTo signature.now (rows_of told.rows.items) (written_body_of told.written) c.quantifiers c.hints.items c.shown.items (body_of c.body)) }
    ensures refused { IfErr result (λ f. Stops signature.now (rows_of told.rows.items) (written_body_of told.written) f) }
{
    let begun = match begin(alloc, signature, told) {
        Ok(begun) => begun,
        Err(fault) => return Err(fault),
    };
    let solution = match settle(alloc, signature, begun) {
        Ok(solution) => solution,
        Err(fault) => return Err(fault),
    };
    read(alloc, signature, &solution)
}

/// The store of a solution is settled, over a canonical signature. A law: it has no code.
fn is_settled(signature: &Signature, solution: &Solution)
    requires { IsSolution signature.now solution.now }
    ensures canonical { IsCanonicalSignature signature.now }
    ensures settled { IsSettled solution.now.store.now }
{
    signature.is_canonical();
}

/// Reads the quantifiers and the body off a solution.
fn read(alloc: Global, signature: &Signature, solution: &Solution) -> Result<Completed, ReconFault>
    requires { IsSolution signature.now solution.now }
    ensures completed { IfOk result (λ c. IsCompletedTo signature.now (rows_of solution.now.rows.items) (written_body_of solution.now.written) c.quantifiers c.hints.items c.shown.items (body_of c.body)) }
    ensures refused { IfErr result (λ f. Stops signature.now (rows_of solution.now.rows.items) (written_body_of solution.now.written) f) }
{
    is_settled(signature, solution);
    let quantifiers = match read_quantifiers(alloc, &solution.store, &solution.sites) {
        Ok(quantifiers) => quantifiers,
        Err(fault) => return Err(of_reading(fault)),
    };
    let body = match read_body(alloc, &solution.store, &quantifiers, &solution.body) {
        Ok(body) => body,
        Err(fault) => return Err(of_reading(fault)),
    };
    let naming = match names(
        alloc,
        &solution.store,
        &solution.rows,
        &solution.frees,
        &solution.order,
    ) {
        Ok(naming) => naming,
        Err(fault) => return Err(of_reading(fault)),
    };
    let hints = hints(alloc, &naming.names, quantifiers.positions.metas())?;
    let shown = shown(alloc, &quantifiers.positions, &naming.firsts)?;
    Ok(Completed {
        quantifiers: quantifiers.context,
        hints,
        shown,
        body,
    })
}

/// A fault of reading off.
fn of_reading(fault: HeredFault) -> ReconFault
    ensures { result ≡ of_reading fault }
{
    match fault {
        HeredFault::TooDeep => ReconFault::TooDeep,
        HeredFault::NoMemory => ReconFault::NoMemory,
    }
}

//! A declaration as far as its equations: skeletons, names, metavariables.
ghost use Rattle.std.specs.Prelude.{◌≡◌, List, IfErr, IfOk, map};
ghost use Rattle.lf.specs.Entries.{Entry};
ghost use Rattle.tw_approx.specs.Answer as skeletons;
ghost use Rattle.tw_approx.specs.Answer.{rows_of};
ghost use Rattle.tw_parse.specs.Syntax.{Declaration};
ghost use Rattle.tw_parse.specs.View.{declaration_of};
ghost use Rattle.tw_resolve.specs.Resolved.{skeletons_of};
ghost use Rattle.tw_terms.specs.View.{skeleton_of};
ghost use Rattle.tw_written.specs.View.{written_body_of};
ghost use Rattle.tw_recon.specs.Begun.{IsBegun};
ghost use Rattle.tw_recon.specs.Causes.{HasCause, Stops};
ghost use Rattle.tw_recon.specs.Reconstruction.{IsWrittenAs};

use crate::fault::ReconFault;
use std::alloc::{AllocError, Global};
use tw_approx::{Approx, ApproxFault, Row, approximate};
use tw_elaborate::{Elaborated, HeredFault, elaborate};
use tw_parse::ExtDecl;
use tw_resolve::resolve;
use tw_signature::Signature;
use tw_terms::Skeleton;
use tw_written::WrittenBody;

/// What is written, with its names resolved, and the free variables with their skeletons.
#[derive(Drop)]
pub struct Told {
    pub rows: Vec<Row>,
    pub written: WrittenBody,
}

/// The same, and what elaboration makes of it.
#[derive(Drop)]
pub struct Begun {
    pub rows: Vec<Row>,
    pub written: WrittenBody,
    pub elaborated: Elaborated,
}

/// Finds the skeletons of what isn't written in a declaration, and resolves its names.
pub fn tell(alloc: Global, signature: &Signature, decl: &ExtDecl) -> Result<Told, ReconFault>
    ensures written { IfOk result (λ t. IsWrittenAs signature.now (declaration_of decl.now) (rows_of t.rows.items) (written_body_of t.written)) }
    ensures refused { IfErr result (λ f. HasCause signature.now (declaration_of decl.now) f) }
{
    let Approx { free, omitted } = match approximate(alloc, signature, decl) {
        Ok(approx) => approx,
        Err(fault) => return Err(of_skeletons(fault)),
    };
    signature.is_canonical();
    let Some(written) = resolve(alloc, signature, decl, &free, omitted)? else {
        unreachable!()
    };
    Ok(Told {
        rows: free,
        written,
    })
}

/// Elaborates what is written.
pub fn begin(alloc: Global, signature: &Signature, told: Told) -> Result<Begun, ReconFault>
    ensures rows { IfOk result (λ b. b.rows ≡ told.rows) }
    ensures written { IfOk result (λ b. b.written ≡ told.written) }
    ensures begun { IfOk result (λ b. IsBegun signature.now b) }
    ensures refused { IfErr result (λ f. Stops signature.now (rows_of told.rows.items) (written_body_of told.written) f) }
{
    let Told { rows, written } = told;
    let skeletons = skeletons(alloc, &rows)?;
    signature.is_canonical();
    match elaborate(alloc, signature, &skeletons, &written) {
        Ok(elaborated) => Ok(Begun {
            rows,
            written,
            elaborated,
        }),
        Err(HeredFault::TooDeep) => Err(ReconFault::TooDeep),
        Err(HeredFault::NoMemory) => Err(ReconFault::NoMemory),
    }
}

/// A fault of the skeleton pass. A clash of skeletons is a mismatch.
fn of_skeletons(fault: ApproxFault) -> ReconFault
    ensures { (es : List Entry) (d : Declaration) → skeletons.HasCause es d fault → HasCause es d result }
{
    match fault {
        ApproxFault::Unknown(name, at) => ReconFault::Unknown(name, at),
        ApproxFault::TypeLevel(at) => ReconFault::TypeLevel(at),
        ApproxFault::Clash => ReconFault::Mismatch,
        ApproxFault::Loose => ReconFault::Loose,
        ApproxFault::TooDeep => ReconFault::TooDeep,
        ApproxFault::NoMemory => ReconFault::NoMemory,
    }
}

/// The skeletons of the free variables.
pub fn skeletons(alloc: Global, rows: &[Row]) -> Result<Vec<Skeleton>, AllocError>
    ensures { IfOk result (λ v. map skeleton_of v.items ≡ skeletons_of (rows_of rows.now)) }
{
    let mut skeletons = Vec::with_capacity(alloc, rows.len())?;
    for row in rows {
        skeletons.push(row.skeleton.copy(alloc)?)?;
    }
    Ok(skeletons)
}

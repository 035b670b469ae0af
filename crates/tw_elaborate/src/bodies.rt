//! What a declaration is written with, elaborated from nothing.
ghost use Rattle.std.specs.Prelude.{◌≡◌, [], map, IfOk, IsErrOf};
ghost use Rattle.lf.specs.Entries.{signature_of, IsCanonicalSignature};
ghost use Rattle.lf_elaboration.specs.PrincipalLaws.{ElaboratesBody};
ghost use Rattle.tw_terms.specs.View.{skeleton_of};
ghost use Rattle.tw_elaborate.specs.Bodies.{BodyDeep, FromNothingDeep, IsElaborated, open_body_of};
ghost use Rattle.tw_elaborate.specs.Fits.{Stands};
ghost use Rattle.tw_elaborate.specs.Fresh.{Keeps};
ghost use Rattle.tw_elaborate.specs.View.{made, numbers_of};
ghost use Rattle.tw_written.specs.View.{written_body_of};

use crate::frames::FRAMES;
use crate::frees::new_frees;
use crate::state::Elaboration;
use crate::terms::{check, elaborate_kind, elaborate_type, infer};
use std::alloc::Global;
use tw_hered::HeredFault;
use tw_open::OpenKind;
use tw_signature::Signature;
use tw_terms::{MetaId, Open, OpenTy, Skeleton};
use tw_written::WrittenBody;

/// What is declared, with metavariables for what isn't written.
#[derive(Drop, Debug)]
pub enum OpenBody {
    /// A family's kind.
    Family(OpenKind),
    /// A constant's type.
    Constant(OpenTy),
    /// A definition's term and its type, and whether it is an abbreviation.
    Definition(Open, OpenTy, bool),
}

/// What elaboration makes of a declaration: the metavariables and equations, the numbers of the free variables, and the body.
#[derive(Drop)]
pub struct Elaborated {
    pub state: Elaboration,
    pub frees: Vec<MetaId>,
    pub body: OpenBody,
}

/// What is declared, with free variables of these skeletons. What has no skeleton has none, and memory counts as used up.
///
/// Answers `TooDeep` only where elaboration reaches a substitution with a term deeper than 4,096, or a type or kind that is left behind an argument and is deeper.
pub fn elaborate(
    alloc: Global,
    signature: &Signature,
    skeletons: &[Skeleton],
    body: &WrittenBody,
) -> Result<Elaborated, HeredFault>
    requires { IsCanonicalSignature signature.now }
    ensures ok { IfOk result (λ e. IsElaborated signature.now (map skeleton_of skeletons.now) (written_body_of body.now) e) }
    ensures too_deep { IsErrOf result HeredFault.TooDeep → FromNothingDeep signature.now (map skeleton_of skeletons.now) (written_body_of body.now) }
{
    let mut state = Elaboration::new(alloc);
    let frees = new_frees(alloc, signature, &mut state, skeletons)?;
    let body = elaborate_body(alloc, signature, &frees, &mut state, body)?;
    Ok(Elaborated { state, frees, body })
}

/// The body, where no variable is in scope.
fn elaborate_body(
    alloc: Global,
    signature: &Signature,
    frees: &[MetaId],
    state: &mut Elaboration,
    written: &WrittenBody,
) -> Result<OpenBody, HeredFault>
    requires canonical { IsCanonicalSignature signature.now }
    requires stands { Stands (signature_of signature.now) (made state.old) state.old.locals }
    requires no_locals { state.old.locals ≡ [] }
    ensures ok { IfOk result (λ b. ElaboratesBody signature.now (numbers_of frees.now) (written_body_of written.now) (made state.old) (made state.new) (open_body_of b)) }
    ensures too_deep { IsErrOf result HeredFault.TooDeep → BodyDeep signature.now (numbers_of frees.now) (written_body_of written.now) (made state.old) }
    ensures keeps { Keeps state.old state.new }
{
    match written {
        WrittenBody::Family(kind) => {
            let kind = elaborate_kind(alloc, signature, frees, state, kind, FRAMES)?;
            Ok(OpenBody::Family(kind))
        }
        WrittenBody::Constant(ty) => {
            let ty = elaborate_type(alloc, signature, frees, state, ty, FRAMES)?;
            Ok(OpenBody::Constant(ty))
        }
        WrittenBody::Definition(term, abbrev) => {
            let (term, ty) = infer(alloc, signature, frees, state, term, FRAMES)?;
            Ok(OpenBody::Definition(term, ty, *abbrev))
        }
        WrittenBody::DefinitionOf(term, ty, abbrev) => {
            let ty = elaborate_type(alloc, signature, frees, state, ty, FRAMES)?;
            let term = check(alloc, signature, frees, state, term, &ty, FRAMES)?;
            Ok(OpenBody::Definition(term, ty, *abbrev))
        }
    }
}

//! Types and terms in contexts, which the kernel accepts.
ghost use Rattle.std.specs.Prelude.{◌≡◌, IfOk, OnOk};
ghost use Rattle.lf.specs.Entries.{signature_of};
ghost use Rattle.lf.specs.Typing.{HasType, IsType, IsContext};
ghost use Rattle.tw_terms.specs.View.{term_of, type_of};

use crate::world::World;
use std::alloc::Global;
use tests_forms::{
    Form, FormFault, read_closed_context, read_closed_term, read_closed_type, read_forms,
};
use tw_kernel::{Verdict, check_context, check_term, check_type};
use tw_signature::Signature;
use tw_terms::{Context, Term, Ty};

/// The type of the forms `(CONTEXT) TYPE`, with its context.
pub(crate) fn read_typed_type(
    alloc: Global,
    world: &mut World,
    text: &str,
) -> Result<(Context, Ty), FormFault>
    ensures same { world.new.signature ≡ world.old.signature }
    ensures typed { IfOk result (λ r. IsContext (signature_of world.old.signature) r.0 × IsType (signature_of world.old.signature) r.0 (type_of r.1)) }
{
    let forms = read_forms(alloc, text)?;
    let [Form::Group(context), ty] = forms.as_slice() else {
        return Err(FormFault::NoMeaning);
    };
    let context = read_closed_context(alloc, &mut world.names, context.as_slice())?;
    let ty = read_closed_type(alloc, &mut world.names, ty)?;
    accept_type(alloc, &world.signature, &context, &ty)?;
    Ok((context, ty))
}

/// The term of the forms `(CONTEXT) TERM : TYPE`, with its context and its type.
pub(crate) fn read_typed_term(
    alloc: Global,
    world: &mut World,
    text: &str,
) -> Result<(Context, Term, Ty), FormFault>
    ensures same { world.new.signature ≡ world.old.signature }
    ensures typed { IfOk result (λ r. IsContext (signature_of world.old.signature) r.0 × IsType (signature_of world.old.signature) r.0 (type_of r.2) × HasType (signature_of world.old.signature) r.0 (term_of r.1) (type_of r.2)) }
{
    let forms = read_forms(alloc, text)?;
    let [Form::Group(context), term, Form::Word(colon), ty] = forms.as_slice() else {
        return Err(FormFault::NoMeaning);
    };
    if colon.as_str() != ":" {
        return Err(FormFault::NoMeaning);
    }
    let context = read_closed_context(alloc, &mut world.names, context.as_slice())?;
    let term = read_closed_term(alloc, &mut world.names, term)?;
    let ty = read_closed_type(alloc, &mut world.names, ty)?;
    accept_type(alloc, &world.signature, &context, &ty)?;
    match check_term(alloc, &world.signature, &context, &term, &ty)? {
        Verdict::Typed => Ok((context, term, ty)),
        Verdict::IllTyped | Verdict::TooDeep => Err(FormFault::NoMeaning),
    }
}

// Fails where the kernel doesn't accept the context and the type.
fn accept_type(
    alloc: Global,
    signature: &Signature,
    context: &Context,
    ty: &Ty,
) -> Result<(), FormFault>
    ensures { OnOk result (IsContext (signature_of signature.now) context.now × IsType (signature_of signature.now) context.now (type_of ty.now)) }
{
    match check_context(alloc, signature, context)? {
        Verdict::Typed => (),
        Verdict::IllTyped | Verdict::TooDeep => return Err(FormFault::NoMeaning),
    }
    match check_type(alloc, signature, context, ty)? {
        Verdict::Typed => Ok(()),
        Verdict::IllTyped | Verdict::TooDeep => Err(FormFault::NoMeaning),
    }
}

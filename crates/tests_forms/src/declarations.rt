//! Entries of signatures, which the kernel accepts.
ghost use Rattle.std.specs.Prelude.{◌≡◌, ◌≤◌, IfOk, vec_len};
ghost use Rattle.std.specs.Bool.{OnTrue};
ghost use Rattle.lf.specs.Depth.{depth_limit};
ghost use Rattle.lf.specs.Entries.{signature_of, quantifiers, kind_quantifiers, body_quantifiers, BodyIsTyped, BodyIsWithin};
ghost use Rattle.tw_terms.specs.View.{type_of, kind_of};
ghost use Rattle.tw_signature.specs.View.{body_of};

use crate::closed::{read_closed_term, read_closed_type, read_kind};
use crate::fault::FormFault;
use crate::forms::{Form, number_of, read_forms};
use crate::names::Names;
use std::alloc::{AllocError, Global};
use tw_fixity::Name;
use tw_kernel::{Verdict, check_kind, check_term, check_type};
use tw_signature::{Body, Entry, Signature};
use tw_terms::{Context, Kind, Ty};

const DEPTH_LIMIT: u32 = 4096;

/// Declares the body under the name, with its first arguments implicit. It has no meaning where the kernel doesn't accept it; then nothing changes.
pub fn declare(
    alloc: Global,
    signature: &mut Signature,
    name: Name,
    body: Body,
    implicit: u32,
) -> Result<(), FormFault> {
    match hints_of(alloc, signature, &body, implicit) {
        Ok(hints) => {
            signature.add(Entry {
                name,
                body,
                implicit,
                hints,
            })?;
            Ok(())
        }
        Err(fault) => Err(fault),
    }
}

/// No preferred name for any quantifier of the body, if it may come next with so many implicit arguments.
fn hints_of(
    alloc: Global,
    signature: &Signature,
    body: &Body,
    implicit: u32,
) -> Result<Vec<Option<Name>>, FormFault>
    ensures typed { IfOk result (λ v. BodyIsTyped (signature_of signature.now) (body_of body.now)) }
    ensures within { IfOk result (λ v. BodyIsWithin depth_limit (body_of body.now)) }
    ensures each { IfOk result (λ v. vec_len v ≡ body_quantifiers (body_of body.now)) }
    ensures implicit { IfOk result (λ v. implicit ≤ body_quantifiers (body_of body.now)) }
{
    if !is_accepted(alloc, signature, body)? {
        return Err(FormFault::NoMeaning);
    }
    let hints = no_hints(alloc, body)?;
    if implicit as usize > hints.len() {
        return Err(FormFault::NoMeaning);
    }
    Ok(hints)
}

/// Whether the body may come next.
fn is_accepted(alloc: Global, signature: &Signature, body: &Body) -> Result<bool, AllocError>
    ensures typed { IfOk result (λ b. OnTrue b (BodyIsTyped (signature_of signature.now) (body_of body.now))) }
    ensures within { IfOk result (λ b. OnTrue b (BodyIsWithin depth_limit (body_of body.now))) }
{
    let context = Context::new(alloc);
    match body {
        Body::Family(kind) => {
            let verdict = check_kind(alloc, signature, &context, kind)?;
            Ok(matches!(verdict, Verdict::Typed) && kind.depth() <= DEPTH_LIMIT)
        }
        Body::Constant(ty) => {
            let verdict = check_type(alloc, signature, &context, ty)?;
            Ok(matches!(verdict, Verdict::Typed) && ty.depth() <= DEPTH_LIMIT)
        }
        Body::Defined { term, ty, .. } => {
            let verdict = check_type(alloc, signature, &context, ty)?;
            if !matches!(verdict, Verdict::Typed) {
                return Ok(false);
            }
            let verdict = check_term(alloc, signature, &context, term, ty)?;
            Ok(
                matches!(verdict, Verdict::Typed)
                    && ty.depth() <= DEPTH_LIMIT
                    && term.depth() <= DEPTH_LIMIT,
            )
        }
    }
}

// no preferred name for any quantifier
fn no_hints(alloc: Global, body: &Body) -> Result<Vec<Option<Name>>, AllocError>
    ensures { IfOk result (λ v. vec_len v ≡ body_quantifiers (body_of body.now)) }
{
    match body {
        Body::Family(kind) => no_kind_hints(alloc, kind),
        Body::Constant(ty) => no_type_hints(alloc, ty),
        Body::Defined { ty, .. } => no_type_hints(alloc, ty),
    }
}

fn no_type_hints(alloc: Global, ty: &Ty) -> Result<Vec<Option<Name>>, AllocError>
    ensures { IfOk result (λ v. vec_len v ≡ quantifiers (type_of ty.now)) }
{
    match ty {
        Ty::Pi(_, range) => {
            let mut hints = no_type_hints(alloc, range)?;
            hints.push(None)?;
            Ok(hints)
        }
        Ty::Atom(_, _) => Ok(Vec::new(alloc)),
    }
}

fn no_kind_hints(alloc: Global, kind: &Kind) -> Result<Vec<Option<Name>>, AllocError>
    ensures { IfOk result (λ v. vec_len v ≡ kind_quantifiers (kind_of kind.now)) }
{
    match kind {
        Kind::Pi(_, range) => {
            let mut hints = no_kind_hints(alloc, range)?;
            hints.push(None)?;
            Ok(hints)
        }
        Kind::Star => Ok(Vec::new(alloc)),
    }
}

/// The signature of a file, and the names of its entries. A line is `NAME KIND`, `NAME TYPE` or `NAME = TERM : TYPE`, before which a number says how many
/// arguments are implicit. A line that begins with `--` is a remark.
pub fn read_signature(alloc: Global, text: &str) -> Result<(Signature, Names), FormFault> {
    let mut signature = Signature::new(alloc);
    let mut names = Names::new(alloc);
    match add_lines(alloc, &mut signature, &mut names, text) {
        Ok(()) => Ok((signature, names)),
        Err(fault) => Err(fault),
    }
}

fn add_lines(
    alloc: Global,
    signature: &mut Signature,
    names: &mut Names,
    text: &str,
) -> Result<(), FormFault> {
    for line in text.lines() {
        if !line.is_empty() && !line.starts_with("--") {
            let forms = read_forms(alloc, line)?;
            add_line(alloc, signature, names, &forms)?;
        }
    }
    Ok(())
}

fn add_line(
    alloc: Global,
    signature: &mut Signature,
    names: &mut Names,
    forms: &[Form],
) -> Result<(), FormFault> {
    match forms {
        [name, form] => add_declared(alloc, signature, names, name, form, 0),
        [count, name, form] => {
            let implicit = number_of(count.text())?;
            let implicit = u32::try_from(implicit).or(Err(FormFault::NoMeaning))?;
            add_declared(alloc, signature, names, name, form, implicit)
        }
        [name, equals, term, colon, ty] if equals.text() == "=" && colon.text() == ":" => {
            add_definition(alloc, signature, names, name, term, ty)
        }
        _ => Err(FormFault::NoMeaning),
    }
}

fn add_definition(
    alloc: Global,
    signature: &mut Signature,
    names: &mut Names,
    name: &Form,
    term: &Form,
    ty: &Form,
) -> Result<(), FormFault> {
    let term = read_closed_term(alloc, names, term)?;
    let ty = read_closed_type(alloc, names, ty)?;
    let abbrev = false;
    add(
        alloc,
        signature,
        names,
        name,
        Body::Defined { term, ty, abbrev },
        0,
    )
}

fn add_declared(
    alloc: Global,
    signature: &mut Signature,
    names: &mut Names,
    name: &Form,
    form: &Form,
    implicit: u32,
) -> Result<(), FormFault> {
    let body = if ends_in_type(form) {
        Body::Family(read_kind(alloc, names, form)?)
    } else {
        Body::Constant(read_closed_type(alloc, names, form)?)
    };
    add(alloc, signature, names, name, body, implicit)
}

fn add(
    alloc: Global,
    signature: &mut Signature,
    names: &mut Names,
    name: &Form,
    body: Body,
    implicit: u32,
) -> Result<(), FormFault> {
    let word = name.text();
    if word.is_empty() {
        return Err(FormFault::NoMeaning);
    }
    declare(
        alloc,
        signature,
        Name::from_text(alloc, word)?,
        body,
        implicit,
    )?;
    Ok(names.add_constant(alloc, word)?)
}

// whether the last range is the word `type`
fn ends_in_type(form: &Form) -> bool {
    match form {
        Form::Word(word) => word.as_str() == "type",
        Form::Group(forms) => match forms.as_slice() {
            [mark, _, _, range] if mark.text() == ">" => ends_in_type(range),
            _ => false,
        },
    }
}

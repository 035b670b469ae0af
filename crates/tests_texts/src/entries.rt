//! Entries from forms.
ghost use Rattle.std.specs.Prelude.{◌≡◌, ◌-◌, ◌^◌, min, IfOk, IsTrue, length};
ghost use Rattle.lf.specs.Depth.{depth_limit};
ghost use Rattle.lf.specs.Entries.{signature_of, quantifiers, kind_quantifiers, body_quantifiers, BodyIsTyped, BodyIsWithin, IsCanonicalEntry};
ghost use Rattle.tw_terms.specs.View.{type_of, kind_of};
ghost use Rattle.tw_signature.specs.View.{body_of, entry_of};

use crate::world::World;
use std::alloc::{AllocError, Global};
use tests_forms::{
    Form, FormFault, number_of, read_closed_term, read_closed_type, read_forms, read_kind,
};
use tw_fixity::Name;
use tw_kernel::{Verdict, check_kind, check_term, check_type};
use tw_signature::{Body, Entry, Signature};
use tw_terms::{Context, Kind, Ty};

/// An entry that the signature may have next: `IMPLICIT NAME (HINT ..) TYPE`, with a kind or a type, or `IMPLICIT NAME (HINT ..) TERM : TYPE`, behind which `abbrev` may
/// stand. The number says how many arguments are implicit. A hint `_` is none, and so are those that are left out.
pub(crate) fn read_entry(alloc: Global, world: &mut World, text: &str) -> Result<Entry, FormFault>
    ensures same { world.new.signature ≡ world.old.signature }
    ensures canonical { IfOk result (λ e. IsCanonicalEntry (signature_of world.old.signature) (entry_of e)) }
{
    let forms = read_forms(alloc, text)?;
    let [
        Form::Word(implicit),
        Form::Word(name),
        Form::Group(hints),
        rest @ ..,
    ] = forms.as_slice()
    else {
        return Err(FormFault::NoMeaning);
    };
    let implicit = u32::try_from(number_of(implicit.as_str())?).or(Err(FormFault::NoMeaning))?;
    let body = read_body(alloc, world, rest)?;
    let leading = quantifiers(&body);
    if leading == u32::MAX || leading < implicit || (leading as usize) < hints.len() {
        return Err(FormFault::NoMeaning);
    }
    let hints = hints_of(alloc, hints.as_slice(), leading)?;
    if !is_sound(alloc, &world.signature, &body)? {
        return Err(FormFault::NoMeaning);
    }
    Ok(Entry {
        name: Name::from_text(alloc, name.as_str())?,
        body,
        implicit,
        hints,
    })
}

fn read_body(alloc: Global, world: &mut World, forms: &[Form]) -> Result<Body, FormFault>
    ensures { world.new.signature ≡ world.old.signature }
{
    let (term, ty, abbrev) = match forms {
        [form] => {
            return if ends_in_type(form) {
                Ok(Body::Family(read_kind(alloc, &mut world.names, form)?))
            } else {
                Ok(Body::Constant(read_closed_type(alloc, &mut world.names, form)?))
            };
        }
        [term, Form::Word(colon), ty] if colon.as_str() == ":" => (term, ty, false),
        [term, Form::Word(colon), ty, Form::Word(word)]
            if colon.as_str() == ":" && word.as_str() == "abbrev" => { (term, ty, true) }
        _ => return Err(FormFault::NoMeaning),
    };
    Ok(Body::Defined {
        term: read_closed_term(alloc, &mut world.names, term)?,
        ty: read_closed_type(alloc, &mut world.names, ty)?,
        abbrev,
    })
}

// whether the last range is the word `type`
fn ends_in_type(form: &Form) -> bool {
    match form {
        Form::Word(word) => word.as_str() == "type",
        Form::Group(forms) => match forms.as_slice() {
            [Form::Word(mark), _, _, range] if mark.as_str() == ">" => ends_in_type(range),
            _ => false,
        },
    }
}

// so many names, of which those behind the forms are none
fn hints_of(alloc: Global, forms: &[Form], count: u32) -> Result<Vec<Option<Name>>, FormFault>
    ensures { IfOk result (λ h. length h.items ≡ count) }
{
    let mut hints = Vec::new(alloc);
    for place in 0..count {
        hints.push(hint_of(alloc, forms.get(place as usize))?)?;
    }
    Ok(hints)
}

fn hint_of(alloc: Global, form: Option<&Form>) -> Result<Option<Name>, FormFault> {
    match form {
        None => Ok(None),
        Some(form) => match form.word() {
            Some("_") => Ok(None),
            Some(word) => Ok(Some(Name::from_text(alloc, word)?)),
            None => Err(FormFault::NoMeaning),
        },
    }
}

// Whether the body may come next.
fn is_sound(alloc: Global, signature: &Signature, body: &Body) -> Result<bool, AllocError>
    ensures typed { IfOk result (λ b. IsTrue b → BodyIsTyped (signature_of signature.now) (body_of body.now)) }
    ensures within { IfOk result (λ b. IsTrue b → BodyIsWithin depth_limit (body_of body.now)) }
{
    let context = Context::new(alloc);
    match body {
        Body::Family(kind) => {
            let verdict = check_kind(alloc, signature, &context, kind)?;
            Ok(matches!(verdict, Verdict::Typed) && kind.depth() <= 4096)
        }
        Body::Constant(ty) => {
            let verdict = check_type(alloc, signature, &context, ty)?;
            Ok(matches!(verdict, Verdict::Typed) && ty.depth() <= 4096)
        }
        Body::Defined { term, ty, .. } => {
            let verdict = check_type(alloc, signature, &context, ty)?;
            if !matches!(verdict, Verdict::Typed) {
                return Ok(false);
            }
            let verdict = check_term(alloc, signature, &context, term, ty)?;
            Ok(matches!(verdict, Verdict::Typed) && ty.depth() <= 4096 && term.depth() <= 4096)
        }
    }
}

fn type_quantifiers(ty: &Ty) -> u32
    ensures { result ≡ min (quantifiers (type_of ty.now)) (2 ^ 32 - 1) }
{
    match ty {
        Ty::Pi(_, range) => type_quantifiers(range).saturating_add(1),
        Ty::Atom(_, _) => 0,
    }
}

fn kind_quantifiers(kind: &Kind) -> u32
    ensures { result ≡ min (kind_quantifiers (kind_of kind.now)) (2 ^ 32 - 1) }
{
    match kind {
        Kind::Pi(_, rest) => kind_quantifiers(rest).saturating_add(1),
        Kind::Star => 0,
    }
}

fn quantifiers(body: &Body) -> u32
    ensures { result ≡ min (body_quantifiers (body_of body.now)) (2 ^ 32 - 1) }
{
    match body {
        Body::Family(kind) => kind_quantifiers(kind),
        Body::Constant(ty) => type_quantifiers(ty),
        Body::Defined { ty, .. } => type_quantifiers(ty),
    }
}

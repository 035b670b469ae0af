//! The body of a declaration as it is read off a solved store.
ghost use Rattle.std.specs.Prelude.{◌≡◌, ◌++◌, ℕ, List, [], ◌∷◌, map, IfOk, IsErrOf, OnOk};
ghost use Rattle.tw_elaborate.specs.Bodies.{open_body_of};
ghost use Rattle.tw_open.specs.View.{open_kind_of};
ghost use Rattle.tw_signature.specs.View.{body_of};
ghost use Rattle.tw_terms.specs.View.{kind_of, type_of};
ghost use Rattle.tw_abstract.specs.Quantifiers.{AreQuantifiers};
ghost use Rattle.tw_recon.specs.Reading.{BodyIsDeep, BodyStands, IsBodyReadAs, IsKindReadAs, KindIsDeep, KindStands, kind_of_types};

use std::alloc::{AllocError, Global};
use tw_abstract::{Quantifiers, read_term, read_type};
use tw_elaborate::{OpenBody, OpenKind};
use tw_hered::HeredFault;
use tw_metas::Store;
use tw_signature::Body;
use tw_terms::{Kind, OpenTy, Ty};

/// The body in the scope of the quantifiers, with the values put in.
pub fn read_body(
    alloc: Global,
    store: &Store,
    quantifiers: &Quantifiers,
    body: &OpenBody,
) -> Result<Body, HeredFault>
    requires quantifiers { (sites : List ℕ) × AreQuantifiers store.now.now sites quantifiers.now.positions quantifiers.now.context }
    requires stands { BodyStands store.now.now (open_body_of body.now) }
    ensures read { IfOk result (λ b. IsBodyReadAs store.now.now quantifiers.now.positions (open_body_of body.now) (body_of b)) }
    ensures too_deep { IsErrOf result HeredFault.TooDeep → BodyIsDeep store.now.now (open_body_of body.now) }
{
    match body {
        OpenBody::Family(kind) => Ok(Body::Family(read_kind(alloc, store, quantifiers, kind)?)),
        OpenBody::Constant(ty) => Ok(Body::Constant(read_type(alloc, store, quantifiers, 0, ty)?)),
        OpenBody::Definition(term, ty, abbrev) => {
            let term = read_term(alloc, store, quantifiers, 0, term)?;
            let ty = read_type(alloc, store, quantifiers, 0, ty)?;
            Ok(Body::Defined {
                term,
                ty,
                abbrev: *abbrev,
            })
        }
    }
}

/// The same of a kind.
fn read_kind(
    alloc: Global,
    store: &Store,
    quantifiers: &Quantifiers,
    kind: &OpenKind,
) -> Result<Kind, HeredFault>
    requires quantifiers { (sites : List ℕ) × AreQuantifiers store.now.now sites quantifiers.now.positions quantifiers.now.context }
    requires stands { KindStands store.now.now 0 (open_kind_of kind.now) }
    ensures read { IfOk result (λ k. IsKindReadAs store.now.now quantifiers.now.positions 0 (open_kind_of kind.now) (kind_of k)) }
    ensures too_deep { IsErrOf result HeredFault.TooDeep → KindIsDeep store.now.now 0 (open_kind_of kind.now) }
{
    let mut domains = Vec::new(alloc);
    let mut rest = kind;
    while let OpenKind::Pi(domain, range) = rest {
        let binders = domains.len() as u64;
        let domain = read_type(alloc, store, quantifiers, binders, domain)?;
        add(&mut domains, domain)?;
        rest = range;
    }
    Ok(kind_of_domains(alloc, domains)?)
}

/// One more, behind the others.
fn add(domains: &mut Vec<Ty>, domain: Ty) -> Result<(), AllocError>
    ensures { OnOk result (domains.new.items ≡ domains.old.items ++ domain ∷ []) }
{
    domains.push(domain)?;
    Ok(())
}

/// The kind whose arguments have these types.
fn kind_of_domains(alloc: Global, domains: Vec<Ty>) -> Result<Kind, AllocError>
    ensures { IfOk result (λ k. kind_of k ≡ kind_of_types (map type_of domains.items)) }
{
    let mut domains = domains;
    let mut kind = Kind::Star;
    while let Some(domain) = domains.pop() {
        let domain = Box::new(alloc, domain)?;
        kind = Kind::Pi(domain, Box::new(alloc, kind)?);
    }
    Ok(kind)
}

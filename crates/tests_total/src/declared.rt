//! The declarations of these tests, each put behind those before it.
ghost use Rattle.std.specs.Prelude.{◌≡◌, [], ◌∷◌, IfOk, OnOk, None};
ghost use Rattle.lf.specs.Entries.{declare_constant, declare_family};
ghost use Rattle.lf.specs.Syntax.{nil, root, star, variable};
ghost use Rattle.tests_total.specs.Declared.{c_term, declared, e_type, first_five, first_three, ok_c_type, on, plain, predicate_kind, yes_c_type};
ghost use Rattle.tw_signature.specs.View.{entry_of};
ghost use Rattle.tw_terms.specs.View.{term_of, type_of};

use std::alloc::{AllocError, Global};
use tw_fixity::Name;
use tw_signature::{Body, Entry, Signature};
use tw_terms::{ConstId, Head, Kind, Spine, Term, Ty};

/// e : type. c : e. t : type. ok : e -> type. ok-c : ok c. yes : e -> type. yes-c : yes X <- ok X.
pub(crate) fn declared(alloc: Global) -> Result<Signature, AllocError>
    ensures { IfOk result (λ s. s ≡ declared) }
{
    let mut signature = Signature::new(alloc);
    add_types(alloc, &mut signature)?;
    add_ok(alloc, &mut signature)?;
    add_yes(alloc, &mut signature)?;
    Ok(signature)
}

/// e, c and t.
fn add_types(alloc: Global, signature: &mut Signature) -> Result<(), AllocError>
    requires { signature.old ≡ [] }
    ensures { OnOk result (signature.new ≡ first_three) }
{
    signature.add(family(alloc, "e")?)?;
    signature.add(constant(alloc, "c", e_type(alloc))?)?;
    signature.add(family(alloc, "t")?)?;
    Ok(())
}

/// ok and ok-c.
fn add_ok(alloc: Global, signature: &mut Signature) -> Result<(), AllocError>
    requires { signature.old ≡ first_three }
    ensures { OnOk result (signature.new ≡ first_five) }
{
    signature.add(predicate(alloc, "ok")?)?;
    signature.add(constant(alloc, "ok-c", ok_c_type(alloc)?)?)?;
    Ok(())
}

/// yes and yes-c.
fn add_yes(alloc: Global, signature: &mut Signature) -> Result<(), AllocError>
    requires { signature.old ≡ first_five }
    ensures { OnOk result (signature.new ≡ declared) }
{
    signature.add(predicate(alloc, "yes")?)?;
    signature.add(rule(alloc, "yes-c", yes_c_type(alloc)?)?)?;
    Ok(())
}

/// The type e.
fn e_type(alloc: Global) -> Ty
    ensures { type_of result ≡ e_type }
{
    Ty::Atom(
        ConstId(0),
        Spine {
            args: Vec::new(alloc),
        },
    )
}

/// The term c.
fn c_term(alloc: Global) -> Term
    ensures { term_of result ≡ c_term }
{
    Term::Root(
        Head::Const(ConstId(1)),
        Spine {
            args: Vec::new(alloc),
        },
    )
}

/// A variable alone.
fn variable(alloc: Global, number: u64) -> Term
    ensures { term_of result ≡ root (variable number) nil }
{
    Term::Root(
        Head::Var(number),
        Spine {
            args: Vec::new(alloc),
        },
    )
}

/// A family on one argument.
fn on(alloc: Global, family: u64, term: Term) -> Result<Ty, AllocError>
    ensures { IfOk result (λ a. type_of a ≡ on family (term_of term)) }
{
    let mut args = Vec::new(alloc);
    args.push(term)?;
    Ok(Ty::Atom(ConstId(family), Spine { args }))
}

/// The type of ok-c.
fn ok_c_type(alloc: Global) -> Result<Ty, AllocError>
    ensures { IfOk result (λ a. type_of a ≡ ok_c_type) }
{
    on(alloc, 3, c_term(alloc))
}

/// The type of yes-c.
fn yes_c_type(alloc: Global) -> Result<Ty, AllocError>
    ensures { IfOk result (λ a. type_of a ≡ yes_c_type) }
{
    let subgoal = Box::new(alloc, on(alloc, 3, variable(alloc, 0))?)?;
    let head = Box::new(alloc, on(alloc, 5, variable(alloc, 1))?)?;
    let body = Box::new(alloc, Ty::Pi(subgoal, head))?;
    Ok(Ty::Pi(Box::new(alloc, e_type(alloc))?, body))
}

/// A family without arguments.
fn family(alloc: Global, name: &str) -> Result<Entry, AllocError>
    ensures { IfOk result (λ e. entry_of e ≡ plain name.now (declare_family star) []) }
{
    Ok(Entry {
        name: Name::from_text(alloc, name)?,
        body: Body::Family(Kind::Star),
        implicit: 0,
        hints: Vec::new(alloc),
    })
}

/// A family on one argument of the type e.
fn predicate(alloc: Global, name: &str) -> Result<Entry, AllocError>
    ensures { IfOk result (λ e. entry_of e ≡ plain name.now (declare_family predicate_kind) (None ∷ [])) }
{
    let domain = Box::new(alloc, e_type(alloc))?;
    let kind = Kind::Pi(domain, Box::new(alloc, Kind::Star)?);
    let mut hints = Vec::new(alloc);
    hints.push(None)?;
    Ok(Entry {
        name: Name::from_text(alloc, name)?,
        body: Body::Family(kind),
        implicit: 0,
        hints,
    })
}

/// A constant without quantifiers.
fn constant(alloc: Global, name: &str, ty: Ty) -> Result<Entry, AllocError>
    ensures { IfOk result (λ e. entry_of e ≡ plain name.now (declare_constant (type_of ty)) []) }
{
    Ok(Entry {
        name: Name::from_text(alloc, name)?,
        body: Body::Constant(ty),
        implicit: 0,
        hints: Vec::new(alloc),
    })
}

/// A constant with two quantifiers.
fn rule(alloc: Global, name: &str, ty: Ty) -> Result<Entry, AllocError>
    ensures { IfOk result (λ e. entry_of e ≡ plain name.now (declare_constant (type_of ty)) (None ∷ None ∷ [])) }
{
    let mut hints = Vec::new(alloc);
    hints.push(None)?;
    hints.push(None)?;
    Ok(Entry {
        name: Name::from_text(alloc, name)?,
        body: Body::Constant(ty),
        implicit: 0,
        hints,
    })
}

//! Rigid heads, read without an allocation and with the values put in.
ghost use Rattle.std.specs.Prelude.{◌≡◌, ℕ, suc, ◌+◌, IfSome, List};
ghost use Rattle.lf.specs.Syntax.{constant, metavariable, nil, root, variable as variable_head};
ghost use Rattle.lf_search.specs.Heads.{HasHead, HasRigidHead};
ghost use Rattle.lf_unification.specs.Unifiers.{Binding};
ghost use Rattle.tw_putting.specs.Stores.{ValuesAreBound, bindings_of};
ghost use Rattle.tw_terms.specs.OpenView.{open_head_of, open_term_of};
ghost use Rattle.tw_terms.specs.View.{head_of, term_of};
ghost use Rattle.tw_search.specs.Clashing.{HeadIsArgument, IsPlaced, IsUnder, head_under, rigid_of};

use tw_metas::Store;
use tw_terms::{ConstId, Head, MetaId, Open, OpenHead, Term};

/// How many values are followed, each the head of the one before it, to a value whose head is a variable.
const MOST_VALUES: u64 = 64;

/// A rigid head: a constant or a variable from outside of the term, or the variable that its own lambda of this number binds, the outermost being 0.
#[derive(Clone, Copy)]
pub(crate) enum Rigid {
    Outside(Head),
    Own(u64),
}

/// The rigid head of an open term under so many binders, with the values put in.
pub(crate) fn rigid_head(store: &Store, term: &Open, binders: u64) -> Option<Rigid>
    requires { ValuesAreBound store.now.now }
    ensures { IfSome result (λ r. HasHead (bindings_of store.now.now) binders (open_term_of term.now) (rigid_of r)) }
{
    let (inside, lambdas) = under_lambdas(term)?;
    placed(outer_head(store, inside, 0)?, lambdas, binders)
}

/// That of a closed clause's argument, under whatever number of quantifiers: the clause's own variables are none.
pub(crate) fn clause_head(arg: &Term) -> Option<Rigid>
    ensures { IfSome result (λ r. (bs : List Binding) (k : ℕ) → HasHead bs k (term_of arg.now) (rigid_of r)) }
{
    let mut rest = arg;
    let mut lambdas: u64 = 0;
    loop {
        match rest {
            Term::Lam(body) => {
                lambdas = lambdas.checked_add(1)?;
                rest = body;
            }
            Term::Root(Head::Const(constant), _) => {
                return Some(Rigid::Outside(Head::Const(*constant)));
            }
            Term::Root(Head::Var(variable), _) => {
                return Some(Rigid::Own(own_number(*variable, lambdas)?));
            }
        }
    }
}

/// The constant, or the variable from outside of so many binders, that an open term has as its head. Where a value's head is the variable that its own lambda binds, it is that of the
/// argument at this place.
fn outer_head(store: &Store, term: &Open, binders: u64) -> Option<Head>
    requires { ValuesAreBound store.now.now }
    ensures { IfSome result (λ h. HasRigidHead (bindings_of store.now.now) binders (open_term_of term.now) (head_of h)) }
{
    match term {
        Open::Lam(body) => outer_head(store, body, binders.checked_add(1)?),
        Open::Root(OpenHead::Const(constant), _) => Some(Head::Const(*constant)),
        Open::Root(OpenHead::Var(variable), _) => Some(Head::Var(variable.checked_sub(binders)?)),
        Open::Root(OpenHead::Meta(meta), spine) => match value_constant(store, *meta) {
            Some(constant) => Some(Head::Const(constant)),
            None => {
                let place = value_place(store, *meta, MOST_VALUES)?;
                outer_head(store, spine.args.get(place as usize)?, binders)
            }
        },
    }
}

/// The constant that a metavariable has as its head, with the values put in.
fn value_constant(store: &Store, meta: MetaId) -> Option<ConstId>
    requires { ValuesAreBound store.now.now }
    ensures { IfSome result (λ c. (k : ℕ) → HasRigidHead (bindings_of store.now.now) k (root (metavariable meta.0) nil) (constant c.0)) }
{
    let mut here = meta;
    for _ in 0..u64::MAX {
        match store.value(here) {
            None => return None,
            Some(value) => match open_head(value) {
                OpenHead::Const(constant) => return Some(constant),
                OpenHead::Var(_) => return None,
                OpenHead::Meta(next) => here = next,
            },
        }
    }
    None
}

/// The place of the argument that a metavariable has as its head: the number of the lambda of its value that binds it. It follows at most so many values.
fn value_place(store: &Store, meta: MetaId, most: u64) -> Option<u64>
    requires { ValuesAreBound store.now.now }
    ensures { IfSome result (λ l. HeadIsArgument (bindings_of store.now.now) meta.0 l) }
{
    let fewer = most.checked_sub(1)?;
    let (inside, lambdas) = under_lambdas(store.value(meta)?)?;
    match inside {
        Open::Root(OpenHead::Var(variable), _) => own_number(*variable, lambdas),
        Open::Root(OpenHead::Meta(next), spine) => {
            let place = value_place(store, *next, fewer)?;
            own_number(written_variable(spine.args.get(place as usize)?)?, lambdas)
        }
        _ => None,
    }
}

/// The variable from outside that an open term has as its head, no value put in.
fn written_variable(term: &Open) -> Option<u64>
    ensures { IfSome result (λ i. (bs : List Binding) → HasRigidHead bs 0 (open_term_of term.now) (variable_head i)) }
{
    let (inside, lambdas) = under_lambdas(term)?;
    match inside {
        Open::Root(OpenHead::Var(variable), _) => Some(variable.checked_sub(lambdas)?),
        _ => None,
    }
}

/// What stands under a term's lambdas, and their number.
fn under_lambdas(term: &Open) -> Option<(&Open, u64)>
    ensures { IfSome result (λ p. IsUnder (open_term_of term.now) p.1 (open_term_of p.0.now)) }
{
    let mut rest = term;
    let mut lambdas: u64 = 0;
    loop {
        match rest {
            Open::Lam(body) => {
                lambdas = lambdas.checked_add(1)?;
                rest = body;
            }
            Open::Root(_, _) => return Some((rest, lambdas)),
        }
    }
}

/// The number of the lambda that binds the variable, of so many, the outermost being 0.
fn own_number(variable: u64, lambdas: u64) -> Option<u64>
    ensures { IfSome result (λ l. variable + suc l ≡ lambdas) }
{
    lambdas.checked_sub(variable)?.checked_sub(1)
}

/// A head under so many lambdas of a term, as the term has it under so many binders.
fn placed(head: Head, lambdas: u64, binders: u64) -> Option<Rigid>
    ensures { IfSome result (λ r. IsPlaced lambdas binders (head_of head) (rigid_of r)) }
{
    match head {
        Head::Const(_) => Some(Rigid::Outside(head)),
        Head::Var(variable) => match own_number(variable, lambdas) {
            Some(number) => Some(Rigid::Own(number)),
            None => {
                let outside = variable.checked_sub(lambdas)?.checked_sub(binders)?;
                Some(Rigid::Outside(Head::Var(outside)))
            }
        },
    }
}

/// The head of an open term, under its lambdas.
fn open_head(term: &Open) -> OpenHead
    ensures { open_head_of result ≡ head_under (open_term_of term.now) }
{
    let mut rest = term;
    loop {
        match rest {
            Open::Lam(body) => rest = body,
            Open::Root(head, _) => return *head,
        }
    }
}

//! Whether there is anything to put in.
ghost use Rattle.std.specs.Prelude.{◌↔◌, IsTrue};
ghost use Rattle.tw_terms.specs.OpenView.{open_term_of, open_spine_of, open_type_of};
ghost use Rattle.tw_putting.specs.Stores.{ValuesAreBound, AllIn, SpineAllIn, TypeAllIn};

use tw_metas::Store;
use tw_terms::{Open, OpenHead, OpenSpine, OpenTy};

/// Whether no metavariable of the term has a value. Then putting the values in gives the term itself.
#[cycle(plain)]
pub fn is_all_in(store: &Store, term: &Open) -> bool
    requires { ValuesAreBound store.now.now }
    ensures { IsTrue result ↔ AllIn store.now.now (open_term_of term.now) }
{
    match term {
        Open::Lam(body) => is_all_in(store, body),
        Open::Root(OpenHead::Meta(meta), spine) => match store.value(*meta) {
            Some(_) => false,
            None => is_spine_all_in(store, spine),
        },
        Open::Root(OpenHead::Const(_), spine) => is_spine_all_in(store, spine),
        Open::Root(OpenHead::Var(_), spine) => is_spine_all_in(store, spine),
    }
}

/// The same of each argument.
#[cycle(plain)]
pub fn is_spine_all_in(store: &Store, spine: &OpenSpine) -> bool
    requires { ValuesAreBound store.now.now }
    ensures { IsTrue result ↔ SpineAllIn store.now.now (open_spine_of spine.now) }
{
    for arg in &spine.args {
        if !is_all_in(store, arg) {
            return false;
        }
    }
    true
}

/// The same of a type.
pub fn is_type_all_in(store: &Store, ty: &OpenTy) -> bool
    requires { ValuesAreBound store.now.now }
    ensures { IsTrue result ↔ TypeAllIn store.now.now (open_type_of ty.now) }
{
    match ty {
        OpenTy::Pi(domain, range) => {
            is_type_all_in(store, domain) && is_type_all_in(store, range)
        }
        OpenTy::Atom(_, spine) => is_spine_all_in(store, spine),
    }
}

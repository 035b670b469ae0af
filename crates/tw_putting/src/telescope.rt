//! The types of the arguments that a type takes. The type goes along them in an environment, and only the domain that is due is read off.
ghost use Rattle.std.specs.Prelude.{◌≡◌, ◌++◌, ◌∷◌, [], IfOk, IsErrOf, map};
ghost use Rattle.tw_terms.specs.OpenView.{open_args_of, open_type_of};
ghost use Rattle.tw_metas.specs.State.{empty_story};
ghost use Rattle.tw_putting.specs.Domains.{domains as domains_of, AnyDeep, TakesArguments, most_levels};

use crate::environment::{Environment, placed};
use crate::hereditary::STACK_LEVELS;
use crate::normal::normal_type;
use bumpalo::Bump;
use std::alloc::{AllocError, Global};
use tw_hered::HeredFault;
use tw_metas::Store;
use tw_terms::{Open, OpenTy};

/// The types of the arguments, which the type takes, in order, with the earlier arguments put in. Their cost together is that of the type with the arguments put in once. Answers
/// `TooDeep` only where one of the types is deeper than 8,500, and `NoMemory` where memory is wanting.
pub fn domains(alloc: Global, ty: &OpenTy, args: &[Open]) -> Result<Vec<OpenTy>, HeredFault>
    requires { TakesArguments (open_type_of ty.now) (open_args_of args.now) }
    ensures ok { IfOk result (λ v. map open_type_of v.items ≡ domains_of (open_type_of ty.now) (open_args_of args.now)) }
    ensures too_deep { IsErrOf result HeredFault.TooDeep → AnyDeep most_levels (domains_of (open_type_of ty.now) (open_args_of args.now)) }
{
    let arena = Bump::new(alloc);
    let store = Store::new(alloc);
    read_off(alloc, &arena, &store, ty, args)
}

/// The same with a store that holds nothing.
fn read_off<'a>(
    alloc: Global,
    arena: &'a Bump,
    store: &'a Store,
    ty: &'a OpenTy,
    args: &'a [Open],
) -> Result<Vec<OpenTy>, HeredFault>
    requires takes { TakesArguments (open_type_of ty.now) (open_args_of args.now) }
    requires empty { store.now ≡ empty_story }
    ensures ok { IfOk result (λ v. map open_type_of v.items ≡ domains_of (open_type_of ty.now) (open_args_of args.now)) }
    ensures too_deep { IsErrOf result HeredFault.TooDeep → AnyDeep most_levels (domains_of (open_type_of ty.now) (open_args_of args.now)) }
{
    let outside = placed(arena, Environment::Outside)?;
    let mut environment = outside;
    let mut rest = ty;
    let mut found = Vec::with_capacity(alloc, args.len())?;
    for arg in args {
        match rest {
            OpenTy::Pi(domain, range) => {
                let due = match normal_type(
                    alloc,
                    arena,
                    store,
                    0,
                    domain,
                    environment,
                    STACK_LEVELS,
                ) {
                    Ok(due) => due,
                    Err(fault) => return Err(fault),
                };
                push(&mut found, due)?;
                let extended = Environment::Extended {
                    ty: domain,
                    term: arg,
                    scope: outside,
                    rest: environment,
                };
                environment = placed(arena, extended)?;
                rest = range;
            }
            OpenTy::Atom(_, _) => unreachable!(),
        }
    }
    Ok(found)
}

/// One more type at the end.
fn push(found: &mut Vec<OpenTy>, ty: OpenTy) -> Result<(), AllocError>
    ensures { IfOk result (λ _. found.new.items ≡ found.old.items ++ ty ∷ []) }
{
    Ok(found.push(ty)?)
}

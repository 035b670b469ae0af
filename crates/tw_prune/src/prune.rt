//! Pruning: the type of a metavariable without one of its arguments.
ghost use Rattle.std.specs.Prelude.{◌≡◌, IfOk, IfSome, IfNone, option_map};
ghost use Rattle.lf.specs.Eta.{append, arity as arity_of};
ghost use Rattle.lf.specs.Syntax.{skeleton};
ghost use Rattle.tw_terms.specs.OpenView.{open_spine_of, open_args_of, open_type_of};
ghost use Rattle.tw_prune.specs.Losing.{LosesArgument, KeepsArgument};
ghost use Rattle.tw_prune.specs.View.{table_of};
ghost use Rattle.tw_prune.specs.Walks.{without_argument as without_argument_of};
ghost use Rattle.tw_prune.specs.Kept.{kept_arguments};

use crate::expand::{arity, expand_variable, push_newest};
use crate::inverse::Inverse;
use crate::unrename::unrename_type;
use std::alloc::{AllocError, Global};
use tw_terms::{Open, OpenSpine, OpenTy};

/// What is left of a metavariable that loses an argument: the type of the new metavariable, and the arguments that stay, which stand under
/// the lambdas of the old one's value.
#[derive(Debug, Drop)]
pub struct Pruned {
    pub ty: OpenTy,
    pub spine: OpenSpine,
}

/// The type of a metavariable without its argument at the place, counted from 0. None where something behind that argument
/// mentions it, or where there is no such argument.
pub fn prune_type(alloc: Global, ty: &OpenTy, place: u64) -> Result<Option<Pruned>, AllocError>
    ensures pruned { IfOk result (λ r. IfSome r (λ p. LosesArgument (open_type_of ty.now) place (open_type_of p.ty) (open_spine_of p.spine))) }
    ensures blocked { IfOk result (λ r. IfNone r (KeepsArgument (open_type_of ty.now) place)) }
{
    let newest = Inverse::of(alloc, &[], 1)?;
    let Some(without) = without_argument(alloc, &newest, ty, place)? else {
        return Ok(None);
    };
    let mut args = Vec::new(alloc);
    push_kept(alloc, ty, arity(ty)?, place, &mut args)?;
    Ok(Some(Pruned {
        ty: without,
        spine: OpenSpine { args },
    }))
}

/// The type without its argument at the place, by the renaming that `newest` takes back: the one over one more variable.
fn without_argument(
    alloc: Global,
    newest: &Inverse,
    ty: &OpenTy,
    place: u64,
) -> Result<Option<OpenTy>, AllocError>
    ensures { IfOk result (λ r. option_map open_type_of r ≡ without_argument_of (table_of newest.now) place (open_type_of ty.now)) }
{
    match ty {
        OpenTy::Pi(domain, range) => {
            if place == 0 {
                return unrename_type(alloc, newest, 0, range);
            }
            let Some(range) = without_argument(alloc, newest, range, place - 1)? else {
                return Ok(None);
            };
            let domain = Box::new(alloc, domain.copy(alloc)?)?;
            Ok(Some(OpenTy::Pi(domain, Box::new(alloc, range)?)))
        }
        OpenTy::Atom(_, _) => Ok(None),
    }
}

/// Adds the variables of the lambdas of a term of the type, which are `count`, without that of the argument at the place, each eta-long.
fn push_kept(
    alloc: Global,
    ty: &OpenTy,
    count: u64,
    place: u64,
    args: &mut Vec<Open>,
) -> Result<(), AllocError>
    requires { count ≡ arity_of (skeleton (open_type_of ty.now)) }
    ensures { IfOk result (λ _. open_args_of args.new.items ≡ append (open_args_of args.old.items) (kept_arguments place (open_type_of ty.now))) }
{
    match ty {
        OpenTy::Pi(domain, range) => {
            if place == 0 {
                return push_newest(alloc, range, count - 1, args);
            }
            args.push(expand_variable(alloc, domain, count - 1)?)?;
            push_kept(alloc, range, count - 1, place - 1, args)
        }
        OpenTy::Atom(_, _) => Ok(()),
    }
}

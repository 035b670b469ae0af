//! The equations between the arguments of two atoms of one family, in order.
ghost use Rattle.std.specs.Prelude.{◌≡◌, ◌∷◌, [], IfOk, IsErrOf, MatchOption, OnOk, map};
ghost use Rattle.lf.specs.Depth.{depth_limit};
ghost use Rattle.lf.specs.Syntax.{Spine, app, nil, star};
ghost use Rattle.lf_unification.specs.Lists.{followed};
ghost use Rattle.lf_unification.specs.Offering.{spine_equations};
ghost use Rattle.tw_metas.specs.View.{equation_of};
ghost use Rattle.tw_terms.specs.OpenView.{open_spine_of, open_term_of, open_type_of};
ghost use Rattle.tw_open.specs.Deep.{KindTakesDeep};
ghost use Rattle.tw_open.specs.Indices.{IndicesFit, TakesBoth, wanted_of};
ghost use Rattle.tw_open.specs.View.{open_kind_of};

use crate::kinds::{OpenKind, instantiate_kind};
use std::alloc::{AllocError, Global};
use tw_hered::HeredFault;
use tw_metas::Equation;
use tw_terms::{Open, OpenContext, OpenSpine, OpenTy};

/// Which equations are wanted: every one, or only those with two sides that aren't the same.
#[derive(Clone, Copy, PartialEq, Eq, Debug)]
pub enum Wanted {
    Every,
    Differing,
}

/// Adds the equations of the arguments that the kind takes behind those that were found, the first one's side on the left.
/// Answers `TooDeep` only where the kind that is left behind one of these has a domain deeper than 4,096.
pub fn index_equations(
    alloc: Global,
    locals: &OpenContext,
    kind: OpenKind,
    left: &OpenSpine,
    right: &OpenSpine,
    wanted: Wanted,
    found: &mut Vec<Equation>,
) -> Result<(), HeredFault>
    requires { IndicesFit locals.now (open_kind_of kind) (open_spine_of left.now) }
    ensures ok { OnOk result (map equation_of found.new.items ≡ followed (map equation_of found.old.items) (wanted_of wanted (spine_equations locals.now (open_kind_of kind) (open_spine_of left.now) (open_spine_of right.now)))) }
    ensures too_deep { IsErrOf result HeredFault.TooDeep → KindTakesDeep depth_limit (open_kind_of kind) (open_spine_of left.now) }
{
    let mut rest = kind;
    for (place, arg) in left.args.iter().enumerate() {
        match right.args.get(place) {
            Some(other) => {
                match take_argument(alloc, locals, rest, arg, other, wanted, found)? {
                    Some(range) => rest = range,
                    None => return Ok(()),
                }
            }
            None => return Ok(()),
        }
    }
    Ok(())
}

/// Adds the equation of two arguments, where it is wanted, and gives the kind that is left; None where the kind takes no argument.
fn take_argument(
    alloc: Global,
    locals: &OpenContext,
    kind: OpenKind,
    left: &Open,
    right: &Open,
    wanted: Wanted,
    found: &mut Vec<Equation>,
) -> Result<Option<OpenKind>, HeredFault>
    requires { IndicesFit locals.now (open_kind_of kind) (app (open_term_of left.now) nil) }
    ensures ok { IfOk result (λ r. MatchOption r ((open_kind_of kind ≡ star) × (found.new.items ≡ found.old.items)) (λ k. TakesBoth wanted locals.now (open_kind_of kind) (open_term_of left.now) (open_term_of right.now) (open_kind_of k) (map equation_of found.old.items) (map equation_of found.new.items))) }
    ensures too_deep { IsErrOf result HeredFault.TooDeep → (S : Spine) → KindTakesDeep depth_limit (open_kind_of kind) (app (open_term_of left.now) S) }
{
    match kind {
        OpenKind::Pi(domain, range) => {
            let rest = instantiate_kind(alloc, &range, 0, left, &domain)?;
            add_wanted(
                alloc,
                locals,
                left,
                right,
                Box::into_inner(domain),
                wanted,
                found,
            )?;
            Ok(Some(rest))
        }
        OpenKind::Star => Ok(None),
    }
}

/// Adds the equation of two terms of the type, where it is wanted.
fn add_wanted(
    alloc: Global,
    locals: &OpenContext,
    left: &Open,
    right: &Open,
    ty: OpenTy,
    wanted: Wanted,
    found: &mut Vec<Equation>,
) -> Result<(), AllocError>
    ensures { OnOk result (map equation_of found.new.items ≡ followed (map equation_of found.old.items) (wanted_of wanted (record { local = locals.now; left = open_term_of left.now; right = open_term_of right.now; of_type = open_type_of ty } ∷ []))) }
{
    match wanted {
        Wanted::Every => add(alloc, locals, left, right, ty, found),
        Wanted::Differing => {
            if left.same(right) {
                Ok(())
            } else {
                add(alloc, locals, left, right, ty, found)
            }
        }
    }
}

/// Adds the equation of two terms of the type.
fn add(
    alloc: Global,
    locals: &OpenContext,
    left: &Open,
    right: &Open,
    ty: OpenTy,
    found: &mut Vec<Equation>,
) -> Result<(), AllocError>
    ensures { OnOk result (map equation_of found.new.items ≡ followed (map equation_of found.old.items) (record { local = locals.now; left = open_term_of left.now; right = open_term_of right.now; of_type = open_type_of ty } ∷ [])) }
{
    found.push(Equation {
        context: locals.copy(alloc)?,
        left: left.copy(alloc)?,
        right: right.copy(alloc)?,
        ty,
    })?;
    Ok(())
}

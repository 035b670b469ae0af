//! Types that annotate a text: those at lambdas, and those that are ascribed.
ghost use Rattle.std.specs.Prelude.{◌≡◌, ◌<◌, ◌+◌, ◌&&◌, nat_le, List, OnOk};
ghost use Rattle.lf.specs.Depth.{depth_limit};
ghost use Rattle.lf.specs.Entries.{Entry};
ghost use Rattle.tw_approx.specs.Nested.{all_within, work};
ghost use Rattle.tw_approx.specs.Nesting.{annotation_depth};
ghost use Rattle.tw_names.specs.Waiting.{size};
ghost use Rattle.tw_parse.specs.View.{term_of};

use crate::waiting::{
    Waiting, wait_for, wait_for_annotations, wait_for_domain, wait_for_domain_annotations,
};
use std::alloc::AllocError;
use tw_parse::ExtTerm;
use tw_terms::DEPTH_LIMIT;

/// The annotation at the head of a term waits with all levels, and the parts of the term wait, of which the annotations count.
#[inline(never)]
pub fn open_annotated<'a>(
    waiting: &mut Vec<Waiting<'a>>,
    term: &'a ExtTerm,
) -> Result<(), AllocError>
    ensures within { (es : List Entry) → OnOk result (all_within es waiting.new.items ≡ (nat_le (annotation_depth es (term_of term.now)) depth_limit && all_within es waiting.old.items)) }
    ensures work { OnOk result (work waiting.new.items < size (term_of term.now) + work waiting.old.items) }
{
    match term {
        ExtTerm::Ident(_, _) | ExtTerm::Hole(_) | ExtTerm::Star => Ok(()),
        ExtTerm::Arrow(domain, range) => {
            wait_for_annotations(waiting, range)?;
            wait_for_annotations(waiting, domain)
        }
        ExtTerm::Pi(_, _, domain, range) => {
            wait_for_annotations(waiting, range)?;
            wait_for_domain_annotations(waiting, domain)
        }
        ExtTerm::Lam(_, _, domain, body) => {
            wait_for_annotations(waiting, body)?;
            wait_for_domain(waiting, domain, DEPTH_LIMIT)
        }
        ExtTerm::App(function, argument) => {
            wait_for_annotations(waiting, argument)?;
            wait_for_annotations(waiting, function)
        }
        ExtTerm::Ascribe(inner, ty) => {
            wait_for_annotations(waiting, inner)?;
            wait_for(waiting, ty, DEPTH_LIMIT)
        }
    }
}

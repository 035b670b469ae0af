//! Parts of a text that are still to be gone over for its depth, so that the walk nests on the heap and not on the machine's stack.
ghost use Rattle.std.specs.Prelude.{◌≡◌, ◌+◌, ◌&&◌, nat_le, List, OnOk};
ghost use Rattle.lf.specs.Depth.{depth_limit};
ghost use Rattle.lf.specs.Entries.{Entry};
ghost use Rattle.tw_approx.specs.Nested.{all_within, work};
ghost use Rattle.tw_approx.specs.Nesting.{annotation_depth, domain_annotation_depth, domain_depth, written_depth};
ghost use Rattle.tw_names.specs.Waiting.{size, size_of_domain};
ghost use Rattle.tw_parse.specs.View.{boxed_domain, term_of};

use std::alloc::AllocError;
use tw_parse::ExtTerm;

/// A part of a text that waits.
#[derive(Clone, Copy)]
pub enum Waiting<'a> {
    /// It stays, and may nest so many levels.
    Counted(&'a ExtTerm, u32),
    /// It may nest as it likes, but what annotates something in it may not.
    Searched(&'a ExtTerm),
}

/// A part waits, which may nest so many levels.
#[inline(never)]
pub fn wait_for<'a>(
    waiting: &mut Vec<Waiting<'a>>,
    term: &'a ExtTerm,
    levels: u32,
) -> Result<(), AllocError>
    ensures within { (es : List Entry) → OnOk result (all_within es waiting.new.items ≡ (nat_le (written_depth es (term_of term.now)) levels && all_within es waiting.old.items)) }
    ensures work { OnOk result (work waiting.new.items ≡ size (term_of term.now) + work waiting.old.items) }
{
    waiting.push(Waiting::Counted(term, levels))?;
    Ok(())
}

/// The type at a binder waits, if it is written.
#[inline(never)]
pub fn wait_for_domain<'a>(
    waiting: &mut Vec<Waiting<'a>>,
    domain: &'a Option<Box<ExtTerm>>,
    levels: u32,
) -> Result<(), AllocError>
    ensures within { (es : List Entry) → OnOk result (all_within es waiting.new.items ≡ (nat_le (domain_depth es (boxed_domain domain.now)) levels && all_within es waiting.old.items)) }
    ensures work { OnOk result (work waiting.new.items ≡ size_of_domain (boxed_domain domain.now) + work waiting.old.items) }
{
    match domain {
        Some(ty) => wait_for(waiting, ty, levels),
        None => Ok(()),
    }
}

/// A part waits, of which the annotations count.
#[inline(never)]
pub fn wait_for_annotations<'a>(
    waiting: &mut Vec<Waiting<'a>>,
    term: &'a ExtTerm,
) -> Result<(), AllocError>
    ensures within { (es : List Entry) → OnOk result (all_within es waiting.new.items ≡ (nat_le (annotation_depth es (term_of term.now)) depth_limit && all_within es waiting.old.items)) }
    ensures work { OnOk result (work waiting.new.items ≡ size (term_of term.now) + work waiting.old.items) }
{
    waiting.push(Waiting::Searched(term))?;
    Ok(())
}

/// The type at a quantifier waits, if it is written, and its annotations count.
#[inline(never)]
pub fn wait_for_domain_annotations<'a>(
    waiting: &mut Vec<Waiting<'a>>,
    domain: &'a Option<Box<ExtTerm>>,
) -> Result<(), AllocError>
    ensures within { (es : List Entry) → OnOk result (all_within es waiting.new.items ≡ (nat_le (domain_annotation_depth es (boxed_domain domain.now)) depth_limit && all_within es waiting.old.items)) }
    ensures work { OnOk result (work waiting.new.items ≡ size_of_domain (boxed_domain domain.now) + work waiting.old.items) }
{
    match domain {
        Some(ty) => wait_for_annotations(waiting, ty),
        None => Ok(()),
    }
}

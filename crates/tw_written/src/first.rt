//! Where free variables first stand.
ghost use Rattle.std.specs.Prelude.{◌∷◌, ℕ, List, IfOk};
ghost use Rattle.lf_elaboration.specs.Sites.{Site as PlainSite, body_frees as frees_of_body};
ghost use Rattle.tw_written.specs.First.{AreFirstPlaces};
ghost use Rattle.tw_written.specs.SiteView.{site_of, sites_of};
ghost use Rattle.tw_written.specs.View.{written_body_of};

use crate::WrittenBody;
use crate::occurrences::body_frees;
use crate::site::{Site, earlier};
use std::alloc::{AllocError, Global};
use tw_lexer::Place;

/// The first places of so many free variables of a declaration.
pub fn first_places(
    alloc: Global,
    written: &WrittenBody,
    count: usize,
) -> Result<Vec<Option<Place>>, AllocError>
    ensures { IfOk result (λ v. AreFirstPlaces (frees_of_body (written_body_of written.now)) count v.items) }
{
    let mut occurrences = Vec::new(alloc);
    body_frees(alloc, &mut occurrences, written)?;
    first_of(alloc, &occurrences, count)
}

/// The first places among these occurrences, which are met from the last one on.
fn first_of(
    alloc: Global,
    occurrences: &[Site],
    count: usize,
) -> Result<Vec<Option<Place>>, AllocError>
    ensures { IfOk result (λ v. AreFirstPlaces (sites_of occurrences.now) count v.items) }
{
    let mut places = vec![in alloc; None; count]?;
    for met in 0..occurrences.len() {
        meet(&mut places, &occurrences[occurrences.len() - 1 - met]);
    }
    Ok(places)
}

/// One occurrence more, before the others.
fn meet(places: &mut Vec<Option<Place>>, occurrence: &Site)
    ensures { (fs : List PlainSite) (n : ℕ) → AreFirstPlaces fs n places.old.items → AreFirstPlaces (site_of occurrence.now ∷ fs) n places.new.items }
{
    let variable = occurrence.number as usize;
    if variable < places.len() {
        places[variable] = Some(earlier(occurrence.place(), places[variable]));
    }
}

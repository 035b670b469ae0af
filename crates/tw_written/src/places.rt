//! The order of the text: of the metavariables of a declaration, and of its free variables.
ghost use Rattle.std.specs.Prelude.{◌≡◌, ◌++◌, List, map, length, IfOk, OnOk};
ghost use Rattle.lf_elaboration.specs.Sites.{AreFreesInOrder, AreSites, Site as PlainSite, free_sites, free_spots as spots_of_frees};
ghost use Rattle.tw_written.specs.First.{AreFirstPlaces};
ghost use Rattle.tw_written.specs.SiteView.{sites_of, spots_of};
ghost use Rattle.tw_terms.specs.View.{skeleton_of};
ghost use Rattle.tw_written.specs.View.{written_body_of};

use crate::WrittenBody;
use crate::counts::indices;
use crate::first::first_places;
use crate::order::{add_spot, expanded, in_text_order};
use crate::site::{Site, Spot};
use crate::spots::body_spots;
use std::alloc::{AllocError, Global};
use tw_lexer::Place;
use tw_signature::Signature;
use tw_terms::{MetaId, Skeleton};

/// The metavariables of a declaration in the order of their places in the text.
pub fn sites(
    alloc: Global,
    signature: &Signature,
    skeletons: &[Skeleton],
    written: &WrittenBody,
) -> Result<Vec<MetaId>, AllocError>
    ensures { IfOk result (λ v. AreSites signature.now (map skeleton_of skeletons.now) (written_body_of written.now) (map (λ m. m.0) v.items)) }
{
    let places = first_places(alloc, written, skeletons.len())?;
    let mut spots = Vec::new(alloc);
    free_spots(alloc, signature, &mut spots, skeletons, &places)?;
    body_spots(alloc, signature, &mut spots, written)?;
    let sites = in_text_order(expanded(alloc, &spots)?)?;
    numbers(alloc, &sites)
}

/// The free variables, of which there are `count`, in the order of first occurrence in the text.
pub fn frees_in_text_order(
    alloc: Global,
    written: &WrittenBody,
    count: usize,
) -> Result<Vec<usize>, AllocError>
    ensures { IfOk result (λ v. AreFreesInOrder (written_body_of written.now) count v.items) }
{
    let places = first_places(alloc, written, count)?;
    let sites = in_text_order(occurring(alloc, &places)?)?;
    variables(alloc, &sites)
}

/// Adds the spots of the free variables, of these skeletons and at these places. Fails where no skeleton in memory takes so many arguments, too.
fn free_spots(
    alloc: Global,
    signature: &Signature,
    spots: &mut Vec<Spot>,
    skeletons: &[Skeleton],
    places: &[Option<Place>],
) -> Result<(), AllocError>
    requires { length places.now ≡ length skeletons.now }
    ensures { OnOk result ((fs : List PlainSite) → AreFirstPlaces fs (length skeletons.now) places.now → spots_of spots.new.items ≡ spots_of spots.old.items ++ spots_of_frees signature.now fs 0 (map skeleton_of skeletons.now)) }
{
    for variable in 0..skeletons.len() {
        let count = indices(alloc, signature, &skeletons[variable])?;
        spots.push(Spot {
            at: places[variable],
            count: count.checked_add(1).ok_or(AllocError)?,
        })?;
    }
    Ok(())
}

/// The free variables that have a place, in the order of their numbers.
fn occurring(alloc: Global, places: &[Option<Place>]) -> Result<Vec<Site>, AllocError>
    ensures { IfOk result (λ v. (fs : List PlainSite) → AreFirstPlaces fs (length places.now) places.now → sites_of v.items ≡ free_sites fs 0 (length places.now)) }
{
    let mut sites = Vec::new(alloc);
    for variable in 0..places.len() {
        let spot = Spot {
            at: places[variable],
            count: 1,
        };
        add_spot(&mut sites, &spot, variable as u64)?;
    }
    Ok(sites)
}

/// The metavariables at these sites.
fn numbers(alloc: Global, sites: &[Site]) -> Result<Vec<MetaId>, AllocError>
    ensures { IfOk result (λ v. map (λ m. m.0) v.items ≡ map (λ s. s.of) (sites_of sites.now)) }
{
    let mut numbers = Vec::with_capacity(alloc, sites.len())?;
    for site in sites {
        numbers.push(MetaId(site.number))?;
    }
    Ok(numbers)
}

/// The free variables at these sites.
fn variables(alloc: Global, sites: &[Site]) -> Result<Vec<usize>, AllocError>
    ensures { IfOk result (λ v. v.items ≡ map (λ s. s.of) (sites_of sites.now)) }
{
    let mut variables = Vec::with_capacity(alloc, sites.len())?;
    for site in sites {
        variables.push(site.number as usize)?;
    }
    Ok(variables)
}

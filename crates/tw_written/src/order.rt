//! Sites in the order of the text.
ghost use Rattle.std.specs.Prelude.{◌≡◌, ◌++◌, ◌+◌, IfOk, OnOk, IsPermutation, IsSortedBy, option_map};
ghost use Rattle.lf_elaboration.specs.Sites.{is_site_before, sites_at, sites_from};
ghost use Rattle.tw_written.specs.SiteView.{sites_of, spots_of};
ghost use Rattle.tw_written.specs.View.{place_of};

use crate::site::{Site, Spot};
use std::alloc::{AllocError, Global};

/// The metavariables that are made at these, in the order in which they are made.
pub fn expanded(alloc: Global, spots: &[Spot]) -> Result<Vec<Site>, AllocError>
    ensures { IfOk result (λ v. sites_of v.items ≡ sites_from 0 (spots_of spots.now)) }
{
    let mut sites = Vec::new(alloc);
    let mut next = 0;
    for spot in spots {
        next = add_spot(&mut sites, spot, next)?;
    }
    Ok(sites)
}

/// Adds those of one spot, from this number on, and gives the number behind them. Fails for want of memory, and past 2 ^ 64 - 1 metavariables, which no memory holds.
pub fn add_spot(sites: &mut Vec<Site>, spot: &Spot, first: u64) -> Result<u64, AllocError>
    ensures behind { IfOk result (λ n. n ≡ first + spot.now.count) }
    ensures sites { OnOk result (sites_of sites.new.items ≡ sites_of sites.old.items ++ sites_at (option_map place_of spot.now.at) first spot.now.count) }
{
    let behind = first.checked_add(spot.count).ok_or(AllocError)?;
    if let Some(at) = spot.at {
        for number in first..behind {
            sites.push(Site::new(at, number))?;
        }
    }
    Ok(behind)
}

/// The same in the order of the text.
pub fn in_text_order(sites: Vec<Site>) -> Result<Vec<Site>, AllocError>
    ensures all { IfOk result (λ v. IsPermutation (sites_of sites.items) (sites_of v.items)) }
    ensures in_order { IfOk result (λ v. IsSortedBy is_site_before (sites_of v.items)) }
{
    let mut sorted = sites;
    sorted.sort()?;
    Ok(sorted)
}

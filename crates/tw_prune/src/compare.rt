//! Where two patterns differ.
ghost use Rattle.std.specs.Prelude.{◌≡◌, IfOk};
ghost use Rattle.tw_prune.specs.Losing.{AreDifferences};
ghost use Rattle.tw_prune.specs.Walks.{differences_from};

use std::alloc::{AllocError, Global};

/// The places, from 0, at which two patterns at one skeleton have different variables.
pub fn differences(alloc: Global, left: &[u64], right: &[u64]) -> Result<Vec<u64>, AllocError>
    ensures { IfOk result (λ v. AreDifferences left.now right.now v.items) }
{
    different_places(alloc, left, right)
}

/// The places at which both lists have an element, and not the same.
fn different_places(alloc: Global, left: &[u64], right: &[u64]) -> Result<Vec<u64>, AllocError>
    ensures { IfOk result (λ v. v.items ≡ differences_from 0 left.now right.now) }
{
    let mut places = Vec::new(alloc);
    for (place, variable) in left.iter().enumerate() {
        match right.get(place) {
            Some(other) => {
                if variable != other {
                    places.push(place as u64)?;
                }
            }
            None => return Ok(places),
        }
    }
    Ok(places)
}

//! How many of the leading quantifiers are variables.
ghost use Rattle.std.specs.Prelude.{◌≡◌, IfOk};
ghost use Rattle.tw_clause.specs.Numbers.{counts_from};

use std::alloc::{AllocError, Global};
use tw_terms::numbers::one_more;

/// For each number of quantifiers, none first: how many of so many are variables.
pub fn count_variables(alloc: Global, shape: &[bool]) -> Result<Vec<u64>, AllocError>
    ensures { IfOk result (λ counts. counts.items ≡ counts_from 0 shape.now) }
{
    let mut counts = Vec::new(alloc);
    let mut count = 0;
    for is_variable in shape {
        counts.push(count)?;
        if *is_variable {
            count = one_more(count)?;
        }
    }
    counts.push(count)?;
    Ok(counts)
}

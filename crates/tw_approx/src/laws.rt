//! Laws of skeletons. They have no code: each function carries one law as its contract.
ghost use Rattle.tw_approx.specs.Ways.{WaysExcludeOneAnother, WhatFitsIsOfObjects};

/// What fits once, twice or never does so in no other number of ways.
pub fn ways_exclude_one_another()
    ensures { WaysExcludeOneAnother }
{}

/// What fits has no unknown name, and nothing at the level of types that can't stand there.
pub fn what_fits_is_of_objects()
    ensures { WhatFitsIsOfObjects }
{}

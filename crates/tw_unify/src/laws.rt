//! Laws of solving, without code.
ghost use Rattle.tw_unify.specs.Laws.{AllLeftOverAreLeft};

/// What `solve` says of the equations that it leaves is what `solve_more` asks of those that stand.
pub fn all_left_over_are_left()
    ensures { AllLeftOverAreLeft }
{}

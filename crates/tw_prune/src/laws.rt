//! Laws of pruning, without code.
ghost use Rattle.tw_prune.specs.Losing.{DropsVariableOfPlace};

/// A variable is the one that a metavariable must lose exactly where it is that of the place.
pub fn drops_variable_of_place()
    ensures { DropsVariableOfPlace }
{}

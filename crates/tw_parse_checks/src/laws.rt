//! Laws of checks. They have no code.
ghost use Rattle.tw_parse_checks.specs.Laws.{CheckIsUnique};

/// Tokens that declare a check declare nothing else, and no sequence in their types is without a reading or has more than one.
pub fn one_check()
    ensures { CheckIsUnique }
{}

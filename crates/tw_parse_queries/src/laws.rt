//! A law of declarations that search. It has no code.
ghost use Rattle.tw_parse_queries.specs.Laws.{SearchIsUnique};

/// Tokens that are a declaration that searches are no other, and no sequence in its goal is without a reading or has more than one.
pub fn one_search()
    ensures { SearchIsUnique }
{}

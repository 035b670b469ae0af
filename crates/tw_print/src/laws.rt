//! What the definition of texts means: a law, without code.
ghost use Rattle.tw_print.specs.Levels.{MoreLevelsGiveTheSameText};

/// A text of at most as many bytes as it may have levels is the same at any larger number of levels.
pub fn more_levels_give_the_same_text()
    ensures { MoreLevelsGiveTheSameText }
{}

//! What the definition of the variables that are shown means for texts: a law, without code.
ghost use Rattle.tw_shown.specs.Laws.{TextsShowWhatIsListed};

/// Where the same names are taken, a text hangs only on the names of the variables that are listed as shown: the list misses none.
pub fn texts_show_what_is_listed()
    ensures { TextsShowWhatIsListed }
{}

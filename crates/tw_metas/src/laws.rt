//! Laws of stores, without code.
ghost use Rattle.tw_metas.specs.Laws.{MarkIsKept};

/// Where nothing but new changes came since a mark, a store taken back to it is as at the mark.
pub fn mark_is_kept()
    ensures { MarkIsKept }
{}

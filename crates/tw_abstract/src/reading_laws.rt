//! Laws of reading off, without code.
ghost use Rattle.tw_abstract.specs.ReadingLaws.{QuantifiersAreReordered, ReadingIsFilling};

/// The quantifiers and their context are those of the theory, in another order.
pub fn quantifiers_are_reordered()
    ensures { QuantifiersAreReordered }
{}

/// What is read off is filled with the answer of the store, and renamed.
pub fn reading_is_filling()
    ensures { ReadingIsFilling }
{}

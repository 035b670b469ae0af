//! Laws of outlines and readings. They have no code.
ghost use Rattle.tw_parse.specs.Laws.{ReadingsAreDecided, OutlinesAreUnique, ReadingIsUnique, QueryIsUnique};

/// Whether a sequence has exactly one reading is decided by its signs alone, whatever its atoms are.
pub fn readings_are_decided()
    ensures { ReadingsAreDecided }
{}

/// Tokens are one declaration at most, with one outline.
pub fn one_outline()
    ensures { OutlinesAreUnique }
{}

/// Tokens that are read are no other declaration, and no sequence in them is without a reading or has more than one.
pub fn one_reading()
    ensures { ReadingIsUnique }
{}

/// Tokens that ask something ask nothing else, and no sequence in them is without a reading or has more than one.
pub fn one_query()
    ensures { QueryIsUnique }
{}

//! What is printed reads back. No function here has code: each carries one law as its contract.
#![tactic(auto)]

ghost use Rattle.law_reading_back.specs.Laws.{LayoutIsShown, ClassifierIsKept, DefinedIsKept, LineIsLexed, LineIsRead, ClassifierIsLegible, OpenTextReadsBack, TextReadsBack, DefinitionIsLexed, DefinitionIsRead, DefinedIsLegible, OpenDefinitionReadsBack, DefinitionReadsBack};

/// The printed text of a kind, a type or a term is the layout of its sketch.
pub fn layout_is_shown()
    ensures { LayoutIsShown }
{}

/// What is written for the kind or type of an entry completes to it again.
pub fn classifier_is_kept()
    ensures { ClassifierIsKept }
{}

/// What is written for the term of a definition completes to it again.
pub fn defined_is_kept()
    ensures { DefinedIsKept }
{}

/// The bytes of a line are lexed to its tokens.
pub fn line_is_lexed()
    ensures { LineIsLexed }
{}

/// The tokens of a line are read as a declaration.
pub fn line_is_read()
    ensures { LineIsRead }
{}

/// What is typed has a legible sketch.
pub fn classifier_is_legible()
    ensures { ClassifierIsLegible }
{}

/// The printed line of an entry whose constants are open reads back to the same body.
pub fn open_text_reads_back()
    ensures { OpenTextReadsBack }
{}

/// The printed line of an explicit entry whose names aren't shadowed reads back to the same body.
pub fn text_reads_back()
    ensures { TextReadsBack }
{}

/// The bytes of a definition's line are lexed to its tokens.
pub fn definition_is_lexed()
    ensures { DefinitionIsLexed }
{}

/// The tokens of a definition's line are read as this definition.
pub fn definition_is_read()
    ensures { DefinitionIsRead }
{}

/// A typed term has a legible sketch.
pub fn defined_is_legible()
    ensures { DefinedIsLegible }
{}

/// The printed line of a definition whose constants are open reads back to the same type and term.
pub fn open_definition_reads_back()
    ensures { OpenDefinitionReadsBack }
{}

/// The printed line of an explicit definition whose names aren't shadowed reads back to the same type and term.
pub fn definition_reads_back()
    ensures { DefinitionReadsBack }
{}

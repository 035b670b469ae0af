//! Laws of how a text is cut and read. They have no code.
ghost use Rattle.tw_lexer.specs.Laws.{CharactersAreUtf8, CutIsTheDot, DoneStays, FaultExcludesTokens, FaultIsUnique, PiecesAreTheWhole, TextIsRead, TokensAreUnique, TooManyExcludesFault, TooManyExcludesTokens, TooManyIsUnique};

/// A text that comes in pieces is cut as the whole text.
pub fn pieces_are_the_whole()
    ensures { PiecesAreTheWhole }
{}

/// What is done stays done.
pub fn done_stays()
    ensures { DoneStays }
{}

/// A text is cut at the first dot that reading finds, and not before.
pub fn cut_is_the_dot()
    ensures { CutIsTheDot }
{}

/// A character stands first in some bytes exactly where they begin with its UTF-8.
pub fn characters_are_utf8()
    ensures { CharactersAreUtf8 }
{}

/// A text has at most one list of tokens through its first dot.
pub fn tokens_are_unique()
    ensures { TokensAreUnique }
{}

/// A text has at most one first fault.
pub fn fault_is_unique()
    ensures { FaultIsUnique }
{}

/// A text has at most one first token that is one too many.
pub fn too_many_is_unique()
    ensures { TooManyIsUnique }
{}

/// A text doesn't have both its tokens through the first dot and a fault before it.
pub fn fault_excludes_tokens()
    ensures { FaultExcludesTokens }
{}

/// A text doesn't have both too many tokens and as few as a declaration may have.
pub fn too_many_excludes_tokens()
    ensures { TooManyExcludesTokens }
{}

/// A text doesn't have both too many tokens and a fault before them.
pub fn too_many_excludes_fault()
    ensures { TooManyExcludesFault }
{}

/// A text has its tokens through the first dot, or a fault before it, or too many tokens.
pub fn text_is_read()
    ensures { TextIsRead }
{}

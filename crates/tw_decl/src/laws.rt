//! Laws of declarations, and worked texts that have to be accepted. They have no code.
ghost use Rattle.tw_decl.specs.Examples.{DefinitionIsGood, FamilyIsGood};
ghost use Rattle.tw_decl.specs.Laws.{AcceptingKeepsSound, AcceptingFromKeepsSound, GoodIsAccepted, GoodFromIsAccepted};

/// A text that is accepted keeps the signature canonical.
pub fn accepting_keeps_sound()
    ensures { AcceptingKeepsSound }
{}

/// A declaration that is accepted in a text of several keeps the signature canonical.
pub fn accepting_from_keeps_sound()
    ensures { AcceptingFromKeepsSound }
{}

/// A text that is one explicit, well typed declaration within the limits, or any other that has a typed completion, isn't loose and leaves no equation, is refused
/// over a canonical signature for want of memory alone, where nothing is too deep.
pub fn good_is_accepted()
    ensures { GoodIsAccepted }
{}

/// So is such a declaration in a text of several.
pub fn good_from_is_accepted()
    ensures { GoodFromIsAccepted }
{}

/// Where nothing is declared, `o : type.` is such a text.
pub fn family_is_good()
    ensures { FamilyIsGood }
{}

/// Where `o : type.` and `c : o.` are declared, `d = c.` is one, though its type isn't written.
pub fn definition_is_good()
    ensures { DefinitionIsGood }
{}

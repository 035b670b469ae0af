//! Laws of clauses as data. They have no code: each function carries one law as its contract.
ghost use Rattle.tw_clause.specs.Laws.{EntriesAreListed, PartsAreOfType, SubgoalsAreRead};

/// The parts of a clause are those of its type, whatever stands outside it.
pub fn parts_are_of_type()
    ensures { PartsAreOfType }
{}

/// The subgoals of the parts are those of the clause, in solving order, renamed to its variables.
pub fn subgoals_are_read()
    ensures { SubgoalsAreRead }
{}

/// The clause of an entry of a block is listed among those of its family, under the block's label and the entry's number.
pub fn entries_are_listed()
    ensures { EntriesAreListed }
{}

//! The machine's stack, which is memory too.
use tw_terms::DEPTH_LIMIT;

/// How many calls a walk nests at most, and levels of the term that it makes; past these it wants memory. Rows in rows, chains of arrows and of ascriptions and the arguments of a family nest
/// no calls, but a row comes to levels, over all groups that it is in: one for its head, and one for each argument that its eta-long form takes. So no term is made that is deeper than these
/// and one term put in or eta-long form at the end, 4,096 deep at most. Calls nest only in brackets and under binders, at most seven that count in each, and a text nests at most 1,000 of
/// these, so that a level for each is left. In the built program the calls of a bracket took up to 4,800 bytes of the stack, as measured, a term that is moved under binders up to 610 for each
/// level, and a type that is made at their end up to 720 for each of 4,096.
pub const FRAMES: u32 = 8_100;

/// How deep the skeletons are of which types are made: the first pass gives none that is deeper.
pub const LEVELS: u32 = DEPTH_LIMIT;

/// How many parts may nest in a type at a lambda so that it is looked whether it is written in full. An operator between its arguments is two. In a built program the calls of a part take
/// less than 128 bytes of the stack, so all together take less than what a type that is made there does.
pub const PARTS: u32 = 8_192;

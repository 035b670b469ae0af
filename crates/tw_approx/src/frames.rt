//! The machine's stack, which is memory too.

/// How many calls the walk for skeletons nests at most, over all groups in brackets together; past these it wants memory. A level of a type or a kind takes two, and each of the
/// 1,000 brackets that may be open two more at most, so a text that nests 4,096 deep is gone over; only what doesn't count in that depth comes to more. Rows of arguments in one
/// another and ascriptions one behind the other nest no calls. A call that takes much of the stack counts, whichever part of the text it is for.
pub const FRAMES: u32 = 10_500;

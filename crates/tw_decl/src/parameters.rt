//! What a user may set.

/// What a user may set.
#[derive(Clone, Copy, Debug, PartialEq, Eq)]
pub struct Parameters {
    /// How much is told, from 0 to 6: from 3 on accepted declarations are reported.
    pub chatter: u8,
    /// Whether implicit arguments are shown.
    pub implicit: bool,
    /// The budget of a search, in tries.
    pub steps: u64,
}

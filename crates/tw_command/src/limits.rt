//! The limits on what may be asked for.

/// The most tries that a search may be given.
pub const STEPS_MOST: u64 = 1_000_000_000;

//! Levels of nesting.
ghost use Rattle.std.specs.Prelude.{◌≡◌};
ghost use Rattle.tw_print.specs.Shown.{nesting_limit};

/// The levels that a text may have: more than any that fits memory.
const ALL_LEVELS: u64 = 1 << 63;

/// How deep a type may be that is made to be shown. The machine's stack holds a copy of so many levels.
pub const STACK_LEVELS: u64 = 8192;

/// The levels with which a text begins.
pub fn all_levels() -> u64
    ensures { result ≡ nesting_limit }
{
    ALL_LEVELS
}

//! Laws of runs. They have no code.
ghost use Rattle.tw_server.specs.Laws.{FaultlessIsDone, OneReading, ShortIsNotLong, StepKeepsSound};

/// A source that tells no more than 2 ^ 40 bytes is never too long.
pub fn short_is_not_long()
    ensures { ShortIsNotLong }
{}

/// With good words, counts of faults that stay, and a source that tells no more than 2 ^ 40 bytes, the status is `Done`, or memory
/// is wanting before the banner.
pub fn faultless_is_done()
    ensures { FaultlessIsDone }
{}

/// Two commands on whole lines at the front of one input take the same bytes, whatever the session knows.
pub fn one_reading()
    ensures { OneReading }
{}

/// Each step keeps the signature canonical.
pub fn step_keeps_sound()
    ensures { StepKeepsSound }
{}

//! Numbers of binders, of levels and of nested calls.
ghost use Rattle.std.specs.Prelude.{◌≡◌, suc, IfOk};

use std::alloc::AllocError;

/// The next number. Fails at the last one, which is more than any list in memory has.
pub fn one_more(count: u64) -> Result<u64, AllocError>
    ensures { IfOk result (λ n. n ≡ suc count) }
{
    count.checked_add(1).ok_or(AllocError)
}

/// One level less. Fails where none is left.
pub fn one_less(levels: u64) -> Result<u64, AllocError>
    ensures { IfOk result (λ n. levels ≡ suc n) }
{
    levels.checked_sub(1).ok_or(AllocError)
}

/// One nested call fewer. Fails where none is left: the machine's stack is memory too.
pub fn nested(frames: u32) -> Result<u32, AllocError>
    ensures { IfOk result (λ n. suc n ≡ frames) }
{
    frames.checked_sub(1).ok_or(AllocError)
}

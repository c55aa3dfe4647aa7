//! How often each thread has done something.

ghost use Rattle.std.specs.Prelude.{◌≡◌, ℕ, ◌+◌, ◌<◌, ◌==◌, ◌&&◌, cond, length, slice_index, OnOk};

use upc_text::OutOfMemory;

/// A thread has done it once more, if it has. A number past all has no memory.
pub fn count(numbers: &mut Vec<u32>, thread: usize, once_more: bool) -> Result<(), OutOfMemory>
    requires { thread < length numbers.old.items }
    ensures many { OnOk result (length numbers.new.items ≡ length numbers.old.items) }
    ensures more { OnOk result ((t : ℕ) → slice_index numbers.new.items t
        ≡ slice_index numbers.old.items t + cond ((thread == t) && once_more) 1 0) }
{
    if !once_more {
        return Ok(());
    }
    match numbers[thread].checked_add(1) {
        Some(number) => {
            numbers[thread] = number;
            Ok(())
        }
        None => Err(OutOfMemory),
    }
}

//! Why a part could not be read.

ghost use Rattle.std.specs.Prelude.{◌≡◌};
ghost use Rattle.run_recorder_parts.specs.declared.fail.Fail.TheVariants as fail;

use std::alloc::AllocFailed;
use upc_text::OutOfMemory;

/// Why a part could not be read.
#[derive(Clone, Copy, PartialEq, Eq, Debug)]
pub enum Fail {
    /// It is no such part.
    Bad,
    /// There is not enough memory.
    Memory,
}

impl From<OutOfMemory> for Fail {
    ghost from_gives = { λ _ e. e ≡ fail.Memory };

    fn from(_e: OutOfMemory) -> Fail {
        Fail::Memory
    }
}

impl<T: Drop> From<AllocFailed<T>> for Fail {
    ghost from_gives = { λ _ e. e ≡ fail.Memory };

    fn from(_e: AllocFailed<T>) -> Fail {
        Fail::Memory
    }
}

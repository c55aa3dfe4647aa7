//! How a call ends that is refused.

ghost use Rattle.std.specs.Prelude.{◌≡◌};
ghost use Rattle.upc_values.specs.declared.refused.Refused.TheVariants as refused;

use std::alloc::AllocFailed;
use thiserror::Error;
use upc_text::OutOfMemory;

/// Why a call is refused.
#[derive(Clone, Copy, PartialEq, Eq, Debug, Error)]
pub enum Refused {
    /// A run error, by its code.
    #[error("run error {0}")]
    Error(u8),
    /// There is not enough memory.
    #[error("out of memory")]
    Memory,
}

impl From<OutOfMemory> for Refused {
    ghost from_gives = { λ _ e. e ≡ refused.Memory };

    fn from(_e: OutOfMemory) -> Refused {
        Refused::Memory
    }
}

impl<T: Drop> From<AllocFailed<T>> for Refused {
    ghost from_gives = { λ _ e. e ≡ refused.Memory };

    fn from(_e: AllocFailed<T>) -> Refused {
        Refused::Memory
    }
}

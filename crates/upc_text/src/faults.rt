//! How a step ends that does not give its value.
ghost use Rattle.std.specs.Prelude.{◌≡◌};
ghost use Rattle.upc_text.specs.declared.faults.Stop.TheVariants as stop;
ghost use Rattle.upc_text.specs.declared.faults.ReadEnd.TheVariants as end;

use crate::{OutOfMemory, Refusal};
use std::alloc::AllocFailed;
use thiserror::Error;

/// The one failure of the outside: a read or a write did not happen.
#[derive(Clone, Copy, PartialEq, Eq, Debug, Error)]
#[error("the outside failed")]
pub struct Failed;

/// Why a step on a source gives no value.
#[derive(Clone, Copy, PartialEq, Eq, Debug, Error)]
pub enum Stop {
    /// The source is refused.
    #[error("refused at {}:{}", .0.place.line, .0.place.column)]
    Refused(Refusal),
    /// There is not enough memory.
    #[error("out of memory")]
    Memory,
}

/// Why `read_all` or `read_up_to` gives no bytes.
#[derive(Clone, Copy, PartialEq, Eq, Debug, Error)]
pub enum ReadEnd {
    /// A read failed.
    #[error("a read failed")]
    ReadFault,
    /// There are more bytes than may be read.
    #[error("too many bytes")]
    TooLong,
    /// There is not enough memory.
    #[error("out of memory")]
    Memory,
}

impl From<Refusal> for Stop {
    ghost from_gives = { λ refusal e. e ≡ stop.Refused refusal };

    fn from(refusal: Refusal) -> Stop {
        Stop::Refused(refusal)
    }
}

impl From<OutOfMemory> for Stop {
    ghost from_gives = { λ _ e. e ≡ stop.Memory };

    fn from(_e: OutOfMemory) -> Stop {
        Stop::Memory
    }
}

impl<T: Drop> From<AllocFailed<T>> for Stop {
    ghost from_gives = { λ _ e. e ≡ stop.Memory };

    fn from(_e: AllocFailed<T>) -> Stop {
        Stop::Memory
    }
}

impl From<Failed> for ReadEnd {
    ghost from_gives = { λ _ e. e ≡ end.ReadFault };

    fn from(_e: Failed) -> ReadEnd {
        ReadEnd::ReadFault
    }
}

impl From<OutOfMemory> for ReadEnd {
    ghost from_gives = { λ _ e. e ≡ end.Memory };

    fn from(_e: OutOfMemory) -> ReadEnd {
        ReadEnd::Memory
    }
}

impl<T: Drop> From<AllocFailed<T>> for ReadEnd {
    ghost from_gives = { λ _ e. e ≡ end.Memory };

    fn from(_e: AllocFailed<T>) -> ReadEnd {
        ReadEnd::Memory
    }
}

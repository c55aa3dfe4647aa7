//! Why a text gives no run.

ghost use Rattle.std.specs.Prelude.{◌≡◌};
ghost use Rattle.run_recorder.specs.declared.fail.ReadRecord.TheVariants as end;

use thiserror::Error;
use upc_text::{OutOfMemory, Place};

/// Why `read_record` gives no run.
#[derive(Clone, Copy, PartialEq, Eq, Debug, Error)]
pub enum ReadRecord {
    /// No run has this text. The place is that of a line: its number from 1, column 1.
    #[error("not the text of a run, at {}:{}", .0.line, .0.column)]
    Bad(Place),
    /// There is not enough memory.
    #[error("out of memory")]
    Memory,
}

impl From<OutOfMemory> for ReadRecord {
    ghost from_gives = { λ _ e. e ≡ end.Memory };

    fn from(_e: OutOfMemory) -> ReadRecord {
        ReadRecord::Memory
    }
}

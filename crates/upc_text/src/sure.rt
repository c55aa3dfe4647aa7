//! Sources and a sink that never fail.
ghost use Rattle.std.specs.Prelude.{◌≡◌, ◌<◌, ◌≤◌, ℕ, List, [], ◌∷◌, ◌++◌, length, take, Some, None, Ok, unwrap_or};
ghost use Rattle.std.specs.Prelude.{IfOk, OnOk, OnErr, IsNone, IsOkAnd};
ghost use Rattle.upc_text.specs.Outside.{StandsAt};
ghost use Rattle.upc_text.specs.code.Memory.{held_under, given};

use crate::memory::{copy_from, held_under, push_file};
use crate::{Failed, OutOfMemory, Sink, Sources, Text};
use std::alloc::Global;
use std::marker::Model;

/// Files in memory that never fail. A name that is not held is empty.
#[derive(Debug, Drop)]
pub struct SureFiles {
    files: Vec<(Text, Text)>,
}

impl Model for SureFiles {
    ghost use Rattle.std.specs.Prelude.{ℕ, List};

    ghost Value = { List (List ℕ × List ℕ) };

    ghost view = { λ s. s.files.items };
}

impl SureFiles {
    /// No file.
    pub fn make(alloc: Global) -> Result<SureFiles, OutOfMemory>
        ensures { IsOkAnd result (λ files. files ≡ []) }
    {
        Ok(SureFiles {
            files: Vec::new(alloc),
        })
    }

    /// Adds a file. The name was not added before. After want of memory nothing is added.
    pub fn add(&mut self, name: &str, bytes: &[u8]) -> Result<(), OutOfMemory>
        requires { IsNone (held_under self.old name.now) }
        ensures ok { OnOk result (self.new ≡ self.old ++ (name.now, bytes.now) ∷ []) }
        ensures err { OnErr result (self.new ≡ self.old) }
        ensures told { OnOk result (held_under self.new name.now ≡ Some bytes.now) }
    {
        push_file(&mut self.files, name, bytes)
    }
}

impl Sources for SureFiles {
    ghost bytes_of = { λ s name. Some (unwrap_or (held_under s name) []) };

    ghost faults = { λ _ _. 0 };

    fn read_at(&mut self, name: &str, at: u64, buf: &mut [u8]) -> Result<usize, Failed>
        ensures bound { IfOk result (λ n. n ≤ length buf.new) }
        ensures placed { IfOk result (λ n.
            StandsAt (Some (unwrap_or (held_under self.old name.now) [])) at (take n buf.new)) }
        ensures given { let bytes = unwrap_or (held_under self.old name.now) [] in
            result ≡ Ok (given bytes at (length buf.old) (length buf.old)) }
        ensures held { self.new ≡ self.old }
    {
        let bytes = held_under(self.files.as_slice(), name).unwrap_or(&[]);
        let room = buf.len();
        Ok(copy_from(bytes, at, buf, room))
    }
}

/// A sink that never fails. It keeps nothing, and what it has taken is not known.
#[derive(Clone, Copy, PartialEq, Eq, Debug)]
pub struct SureSink;

impl SureSink {
    /// The sink.
    pub fn make() -> SureSink {
        SureSink
    }
}

impl Sink for SureSink {
    ghost taken = { λ _. None };

    ghost faults = { λ _. 0 };

    fn put(&mut self, piece: &[u8]) -> Result<usize, Failed>
        requires some { 0 < length piece.now }
        ensures { result ≡ Ok (length piece.now) }
    {
        Ok(piece.len())
    }
}

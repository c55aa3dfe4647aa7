//! What a walk has emitted.

ghost use Rattle.std.specs.Prelude.{◌≡◌, [], OnOk};
ghost use Rattle.order_builder.specs.code.Views.{IsEmitted, IsPushed};

use crate::entry::{EntryRef, KeptCommit};
use crate::names::Names;
use std::alloc::Global;
use upc_text::OutOfMemory;

/// The entries that were emitted, the operations in their places, one after another, and for each entry how many
/// operations there are up to its last.
#[derive(Drop)]
pub struct Emitted<'a> {
    pub entries: Vec<EntryRef<'a>>,
    pub names: Names,
    pub ends: Vec<usize>,
}

impl<'a> Emitted<'a> {
    /// Nothing yet.
    pub fn new(alloc: Global) -> Emitted<'a>
        ensures { IsEmitted result [] }
    {
        Emitted {
            entries: Vec::new(alloc),
            names: Names::new(alloc),
            ends: Vec::new(alloc),
        }
    }

    /// One more commit is emitted.
    pub fn push(&mut self, commit: KeptCommit<'a>) -> Result<(), OutOfMemory>
        ensures { OnOk result (IsPushed commit.entry self.old self.new) }
    {
        self.names.extend(commit.names.as_slice())?;
        self.ends.push(self.names.len())?;
        self.entries.push(commit.entry)?;
        Ok(())
    }
}

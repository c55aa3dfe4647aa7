//! The names of a source.
ghost use Rattle.std.specs.Prelude.{◌≡◌, ◌<◌, ◌↔◌, [], Some, None, slice_get, length, IsTrue, IfOk, OnOk, MatchOption};
ghost use Rattle.upc_lexer.specs.Names.{insert_name};

use indexmap::IndexSet;
use std::alloc::Global;
use std::marker::Model;
use upc_text::OutOfMemory;

/// The names of a source, each once, numbered from 0 in order of first appearance. Contracts see the list of them.
#[derive(Drop)]
pub struct Names {
    set: IndexSet<Vec<u8>>,
}

impl Model for Names {
    ghost use Rattle.std.specs.Prelude.{ℕ, List, map};

    ghost Value = { List (List ℕ) };

    ghost view = { λ n. map (λ name. name.items) n.set.keys };
}

impl Names {
    /// No name.
    pub(crate) fn new(alloc: Global) -> Names
        ensures { result ≡ [] }
    {
        Names {
            set: IndexSet::new(alloc),
        }
    }

    /// How many names there are.
    pub fn len(&self) -> usize
        ensures { result ≡ length self.now }
    {
        self.set.len()
    }

    /// Whether there is no name.
    pub fn is_empty(&self) -> bool
        ensures { IsTrue result ↔ (self.now ≡ []) }
    {
        self.set.is_empty()
    }

    /// The bytes of the name with this number.
    pub fn get(&self, number: usize) -> Option<&[u8]>
        ensures { MatchOption result (slice_get self.now number ≡ None) (λ name.
            slice_get self.now number ≡ Some name.now) }
    {
        match self.set.get_index(number) {
            Some(name) => Some(name.as_slice()),
            None => None,
        }
    }

    /// Adds the name, where it is new, and gives its number.
    pub(crate) fn insert(&mut self, alloc: Global, name: &[u8]) -> Result<usize, OutOfMemory>
        ensures number { IfOk result (λ number. slice_get self.new number ≡ Some name.now) }
        ensures names { OnOk result (self.new ≡ insert_name self.old name.now) }
    {
        if let Some(number) = self.set.get_index_of(name) {
            return Ok(number);
        }
        let number = self.set.len();
        self.set.insert(Vec::from_slice(alloc, name)?)?;
        Ok(number)
    }
}

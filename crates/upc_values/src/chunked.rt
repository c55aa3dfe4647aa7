//! A list in chunks inside a record.

ghost use Rattle.std.specs.Prelude.{◌≡◌, ◌==◌, [], length, slice_get, option_copied, IfOk};
ghost use Rattle.std.specs.Map.Iter.{ShowsInOrder, deref};

use crate::chunks::Chunks;
use crate::members::Members;
use std::alloc::{AllocError as OutOfMemory, Global};
use std::marker::Model;

/// A list in chunks inside a record. Contracts see the list of its members.
#[derive(Drop)]
pub struct Chunked<T> {
    chunks: Chunks<T>,
}

impl<T> Model for Chunked<T> {
    ghost use Rattle.std.specs.Prelude.{List};

    ghost Value = { List T };

    ghost view = { λ l. l.chunks.items };
}

impl<T> Chunked<T> {
    /// The empty list. It takes no memory.
    pub fn new(alloc: Global) -> Self
        ensures { result ≡ [] }
    {
        Chunked {
            chunks: Chunks::new(alloc),
        }
    }

    /// The list of these members. It takes no memory.
    pub fn from_chunks(chunks: Chunks<T>) -> Self
        ensures { result ≡ chunks.items }
    {
        Chunked { chunks }
    }

    /// The list of these members, each moved into its chunk.
    pub fn from_vec(alloc: Global, members: Vec<T>) -> Result<Self, OutOfMemory>
    where
        T: Drop,
        ensures { IfOk result (λ l. l ≡ members.items) }
    {
        let mut chunks = Chunks::new(alloc);
        for member in members {
            chunks.reserve()?;
            chunks.push_reserved(member);
        }
        Ok(Chunked { chunks })
    }

    /// The members, as chunks. It takes no memory.
    pub fn into_chunks(self) -> Chunks<T>
        ensures { result.items ≡ self }
    {
        self.chunks
    }

    /// The member of this number.
    pub fn get(&self, index: usize) -> Option<&T>
        ensures { option_copied result ≡ slice_get self.now index }
    {
        self.chunks.get(index)
    }

    /// The members, from the first on.
    pub fn iter(&self) -> Members<'_, T>
        ensures rest { result ≡ self.now }
        ensures runs { ShowsInOrder (deref {X = T}) }
    {
        self.chunks.iter()
    }

    /// How many members there are.
    pub fn len(&self) -> usize
        ensures { result ≡ length self.now }
    {
        self.chunks.len()
    }

    /// Whether there is no member.
    pub fn is_empty(&self) -> bool
        ensures { result ≡ (length self.now == 0) }
    {
        self.chunks.is_empty()
    }
}

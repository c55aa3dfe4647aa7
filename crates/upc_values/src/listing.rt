//! A list inside a record.

ghost use Rattle.std.specs.Prelude.{◌≡◌, ◌==◌, [], length};

use std::alloc::Global;
use std::marker::Model;

/// A list inside a record. Contracts see the list of its members.
#[derive(Drop)]
pub struct Listing<T> {
    members: Vec<T>,
}

impl<T> Model for Listing<T> {
    ghost use Rattle.std.specs.Prelude.{List};

    ghost Value = { List T };

    ghost view = { λ l. l.members.items };
}

impl<T> Listing<T> {
    /// The empty list.
    pub fn new(alloc: Global) -> Self
        ensures { result ≡ [] }
    {
        Listing {
            members: Vec::new(alloc),
        }
    }

    /// The list of these members. It takes no memory.
    pub fn from_vec(members: Vec<T>) -> Self
        ensures { result ≡ members.items }
    {
        Listing { members }
    }

    /// The members, as a vector. It takes no memory.
    pub fn into_vec(self) -> Vec<T>
        ensures { result.items ≡ self }
    {
        self.members
    }

    /// The members.
    pub fn as_slice(&self) -> &[T]
        ensures { result.now ≡ self.now }
    {
        self.members.as_slice()
    }

    /// How many members there are.
    pub fn len(&self) -> usize
        ensures { result ≡ length self.now }
    {
        self.members.len()
    }

    pub fn is_empty(&self) -> bool
        ensures { result ≡ (length self.now == 0) }
    {
        self.members.is_empty()
    }
}

//! A list of bytes.
ghost use Rattle.std.specs.Prelude.{◌≡◌, ◌==◌, ◌↔◌, [], ◌∷◌, ◌++◌, length, nat_eq, IsTrue, OnOk, OnErr, IfOk};
ghost use Rattle.std.specs.Cmp.Lexicographic.{pointwise, nat_list_eq_equiv};
ghost use Rattle.std.specs.Cmp.{partial_equiv_from_equiv};
ghost use Rattle.upc_text.specs.code.Text.{bytes_of};

use crate::OutOfMemory;
use std::alloc::Global;
use std::fmt;
use std::fmt::{Debug, Formatter, Write};
use std::marker::Model;
use std::sync::Arc;

// The bytes are the text's own, or all copies of it hold the same ones.
#[derive(Drop)]
enum Bytes {
    Own(Vec<u8>),
    Shared(Arc<Vec<u8>>),
}

impl Bytes {
    // The vector, whoever holds it.
    fn vector(&self) -> &Vec<u8>
        ensures { result.now.items ≡ bytes_of self.now }
    {
        match self {
            Bytes::Own(own) => own,
            Bytes::Shared(shared) => shared,
        }
    }

    // The same bytes once more: shared bytes are not copied.
    fn copy(&self, alloc: Global) -> Result<Bytes, OutOfMemory>
        ensures { IfOk result (λ copy. bytes_of copy ≡ bytes_of self.now) }
    {
        match self {
            Bytes::Own(own) => Ok(Bytes::Own(Vec::from_slice(alloc, own.as_slice())?)),
            Bytes::Shared(shared) => Ok(Bytes::Shared(shared.clone()?)),
        }
    }

    // Adds all bytes of the slice at the end. Shared bytes are copied first, and the others keep theirs.
    fn push_slice(&mut self, bytes: &[u8]) -> Result<(), OutOfMemory>
        ensures ok { OnOk result (bytes_of self.new ≡ bytes_of self.old ++ bytes.now) }
        ensures err { OnErr result (bytes_of self.new ≡ bytes_of self.old) }
    {
        match self {
            Bytes::Own(own) => own.extend_from_slice(bytes),
            Bytes::Shared(shared) => {
                let mut own = Vec::from_slice(*shared.allocator(), shared.as_slice())?;
                own.extend_from_slice(bytes)?;
                *self = Bytes::Own(own);
                Ok(())
            }
        }
    }
}

impl Debug for Bytes {
    fn fmt<W: Write>(&self, f: &mut Formatter<W>) -> fmt::Result {
        self.vector().fmt(f)
    }
}

/// Bytes, as a string literal or a printed text holds them. Contracts see the list.
#[derive(Debug, Drop)]
pub struct Text {
    bytes: Bytes,
}

impl Model for Text {
    ghost use Rattle.std.specs.Prelude.{ℕ, List};
    ghost use Rattle.upc_text.specs.code.Text.{bytes_of};

    ghost Value = { List ℕ };

    ghost view = { λ t. bytes_of t.bytes };
}

impl Text {
    /// The text of no byte, which grows by `alloc`.
    pub fn new(alloc: Global) -> Text
        ensures { result ≡ [] }
    {
        Text::from_vec(Vec::new(alloc))
    }

    /// The bytes of the slice.
    pub fn from_slice(alloc: Global, bytes: &[u8]) -> Result<Text, OutOfMemory>
        ensures { IfOk result (λ text. text ≡ bytes.now) }
    {
        Ok(Text::from_vec(Vec::from_slice(alloc, bytes)?))
    }

    /// The bytes of the vector. It takes no memory.
    pub fn from_vec(bytes: Vec<u8>) -> Text
        ensures { result ≡ bytes.items }
    {
        Text {
            bytes: Bytes::Own(bytes),
        }
    }

    /// The same text, of which each copy shares the bytes.
    pub fn share(self) -> Result<Text, OutOfMemory>
        ensures { IfOk result (λ text. text ≡ self) }
    {
        match self.bytes {
            Bytes::Own(own) => Ok(Text {
                bytes: Bytes::Shared(Arc::new(*own.allocator(), own)?),
            }),
            Bytes::Shared(shared) => Ok(Text {
                bytes: Bytes::Shared(shared),
            }),
        }
    }

    /// Lends the bytes.
    pub fn as_slice(&self) -> &[u8]
        ensures { result.now ≡ self.now }
    {
        self.bytes.vector().as_slice()
    }

    /// How many bytes there are.
    pub fn len(&self) -> usize
        ensures { result ≡ length self.now }
    {
        self.bytes.vector().len()
    }

    /// Whether there is no byte.
    pub fn is_empty(&self) -> bool
        ensures { IsTrue result ↔ (self.now ≡ []) }
    {
        self.bytes.vector().is_empty()
    }

    /// Adds a byte at the end. After want of memory the text is as it was.
    pub fn push(&mut self, byte: u8) -> Result<(), OutOfMemory>
        ensures ok { OnOk result (self.new ≡ self.old ++ byte ∷ []) }
        ensures err { OnErr result (self.new ≡ self.old) }
    {
        self.bytes.push_slice(&[byte])
    }

    /// Adds all bytes of the slice at the end. After want of memory the text is as it was.
    pub fn push_slice(&mut self, bytes: &[u8]) -> Result<(), OutOfMemory>
        ensures ok { OnOk result (self.new ≡ self.old ++ bytes.now) }
        ensures err { OnErr result (self.new ≡ self.old) }
    {
        self.bytes.push_slice(bytes)
    }

    /// The same text once more. Of a text that is shared, no byte is copied.
    pub fn copy(&self, alloc: Global) -> Result<Text, OutOfMemory>
        ensures { IfOk result (λ text. text ≡ self.now) }
    {
        Ok(Text {
            bytes: self.bytes.copy(alloc)?,
        })
    }
}

impl From<Vec<u8>> for Text {
    ghost from_gives = { λ bytes text. text ≡ bytes.items };

    fn from(bytes: Vec<u8>) -> Text {
        Text::from_vec(bytes)
    }
}

impl Clone for Text {
    ghost is_clone = { λ text copy. copy ≡ text };

    fn clone(&self) -> Result<Text, OutOfMemory> {
        self.copy(*self.bytes.vector().allocator())
    }
}

impl PartialEq for Text {
    ghost eq = { pointwise nat_eq };

    ghost laws = { partial_equiv_from_equiv nat_list_eq_equiv };

    fn eq(&self, other: &Text) -> bool
        ensures value { result ≡ pointwise nat_eq self.now other.now }
        ensures same { IsTrue result ↔ (self.now ≡ other.now) }
    {
        self.as_slice() == other.as_slice()
    }
}

impl Eq for Text {
    ghost laws = { nat_list_eq_equiv };
}

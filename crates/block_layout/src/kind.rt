//! What a cell holds, and the cells of an element.

ghost use Rattle.std.specs.Prelude.{◌≡◌, ◌≤◌, ◌↔◌, IsTrue};
ghost use Rattle.block_layout.specs.Cells.{is_private};
ghost use Rattle.block_layout.specs.Lists.{under};
ghost use Rattle.block_layout.specs.Shapes.{IsShape, kind_size, same_kind};

use crate::cells::Cells;

/// What a cell holds.
#[derive(Clone, Copy, PartialEq, Eq, Debug)]
pub enum Kind {
    Char,
    UChar,
    Short,
    UShort,
    Int,
    UInt,
    Long,
    ULong,
    /// A pointer-to-shared: the number of its type, and its block, 0 for indefinite.
    Shared(u32, u32),
    Lock,
    /// A private pointer: the number of its type.
    Private(u32),
}

impl Kind {
    /// The bytes of a cell of this kind.
    pub fn size(self) -> u32
        ensures value { result ≡ kind_size self }
        ensures least { 1 ≤ result }
        ensures most { result ≤ 16 }
    {
        match self {
            Kind::Char | Kind::UChar => 1,
            Kind::Short | Kind::UShort => 2,
            Kind::Int | Kind::UInt => 4,
            Kind::Long | Kind::ULong | Kind::Private(_) => 8,
            Kind::Shared(_, _) | Kind::Lock => 16,
        }
    }

    /// Whether a cell of this kind holds a pointer to a private object.
    pub fn is_private(self) -> bool
        ensures { result ≡ is_private self }
    {
        matches!(self, Kind::Private(_))
    }

    /// Whether the kind is another.
    pub fn is(self, other: Kind) -> bool
        ensures value { result ≡ same_kind self other }
        ensures exact { IsTrue result ↔ (self ≡ other) }
    {
        self == other
    }
}

/// An element: its size in bytes, at least 1, and its cells, which lie inside it, ascending and without overlap.
#[derive(Drop)]
pub struct Shape {
    pub size: u32,
    pub cells: Cells,
}

impl Shape {
    /// The kind of the cell that begins at this byte.
    pub fn kind_at(&self, place: u32) -> Option<Kind>
        requires { IsShape self.now }
        ensures { result ≡ under place self.now.cells }
    {
        self.cells.kind_at(place)
    }
}

//! Objects, pointers and locations.

ghost use Rattle.std.specs.Prelude.{◌≡◌, ◌↔◌, IsTrue};
ghost use Rattle.block_layout.specs.Pointers.{IsNull, is_null};

/// A shared object. Sizes are in bytes; block 0 is indefinite; number 0 is null.
#[derive(Clone, Copy, PartialEq, Eq, Debug)]
pub struct ObjectRef {
    pub number: u32,
    pub total: u32,
    pub block: u32,
    pub home: u32,
    /// The number, in the program's list of shapes, of the shape of one leaf element.
    pub shape: u32,
    /// The sum of the sizes of all objects with lower numbers.
    pub base: u32,
}

/// A pointer-to-shared. Null has zeros throughout.
#[derive(Clone, Copy, PartialEq, Eq, Debug)]
pub struct SharedPtr {
    pub object: ObjectRef,
    pub thread: u32,
    pub phase: u32,
    pub offset: i64,
}

impl SharedPtr {
    /// The null pointer-to-shared.
    pub const NULL: SharedPtr = SharedPtr {
        object: ObjectRef {
            number: 0,
            total: 0,
            block: 0,
            home: 0,
            shape: 0,
            base: 0,
        },
        thread: 0,
        phase: 0,
        offset: 0,
    };

    /// Whether the pointer is null: all its numbers are 0.
    pub fn is_null(&self) -> bool
        ensures value { result ≡ is_null self.now }
        ensures exact { IsTrue result ↔ IsNull self.now }
    {
        *self == SharedPtr::NULL
    }
}

/// A pointer-to-local.
#[derive(Clone, Copy, PartialEq, Eq, Debug)]
pub enum LocalPtr {
    Null,
    Private {
        object: u64,
        offset: i64,
    },
    Shared {
        object: ObjectRef,
        thread: u32,
        offset: i64,
    },
}

/// A location of the shared memory: a byte offset in the piece of an object that lies on a thread.
#[derive(Clone, Copy, PartialEq, Eq, Debug)]
pub struct Loc {
    pub object: u32,
    pub thread: u32,
    pub offset: u32,
}

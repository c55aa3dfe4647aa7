//! The calls of the library.

/// The element types of reductions (UPC 7.3.2.1).
#[derive(Clone, Copy, PartialEq, Eq, Debug)]
pub enum ElementKind {
    Char,
    UnsignedChar,
    Short,
    UnsignedShort,
    Int,
    UnsignedInt,
    Long,
    UnsignedLong,
}

/// The calls of the library (C99 7.19.6.3, UPC 7.2, 7.3).
#[derive(Clone, Copy, PartialEq, Eq, Debug)]
pub enum LibraryCall {
    Printf,
    ThreadOf,
    PhaseOf,
    AddressField,
    AffinitySize,
    GlobalAlloc,
    AllAlloc,
    Alloc,
    Free,
    AllFree,
    GlobalLockAlloc,
    AllLockAlloc,
    Lock,
    LockAttempt,
    Unlock,
    LockFree,
    AllLockFree,
    Memcpy,
    Memget,
    Memput,
    Memset,
    GlobalExit,
    Broadcast,
    Scatter,
    Gather,
    GatherAll,
    Exchange,
    Permute,
    Reduce(ElementKind),
    PrefixReduce(ElementKind),
}

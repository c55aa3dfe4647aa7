//! The names of the library, which every source knows.

/// The named constants of the library: operators of reductions, and flags of collectives (UPC 7.3.1, 7.3.2).
#[derive(Clone, Copy)]
pub enum LibraryConstant {
    Add,
    Multiply,
    BitAnd,
    BitOr,
    BitXor,
    LogicalAnd,
    LogicalOr,
    Least,
    Greatest,
    InNoSync,
    InMySync,
    InAllSync,
    OutNoSync,
    OutMySync,
    OutAllSync,
}

/// What a parameter of a library call takes.
#[derive(Clone, Copy)]
pub enum LibraryParameter {
    /// `shared void *`.
    SharedPointer,
    /// `void *` or `const void *`.
    PrivatePointer,
    /// `upc_lock_t *`.
    LockPointer,
    /// `size_t`.
    Size,
    /// `int`, `upc_op_t` or `upc_flag_t`.
    Int,
    /// The function of a reduction, which is the constant 0.
    NoFunction,
}

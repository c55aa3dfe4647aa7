//! Where names and statements stand.

/// Where an object lies: a private object of the file by its number from 0, a shared object by its number from 1, or an
/// object of a function by the number of objects of that function that are in scope before it.
#[derive(Clone, Copy)]
pub enum Home {
    Private(u32),
    Shared(u32),
    Local(u32),
}

/// The size operators (C99 6.5.3.4, UPC 6.4.1).
#[derive(Clone, Copy)]
pub enum SizeOperator {
    Bytes,
    LocalBytes,
    BlockSize,
    ElementBytes,
}

/// What a `break` would leave: the nearest statement around it that takes one (C99 6.8.6.3, UPC 6.6.2).
#[derive(Clone, Copy)]
pub enum Enclosing {
    Nothing,
    Loop,
    Switch,
    Forall,
}

//! Types (C99 6.2.5, UPC 6.5.1).

use crate::target::Target;
use block_layout::Kind;
use std::rc::Rc;

/// Whether a type says strict or relaxed (UPC 6.5.1.1).
#[derive(Clone, Copy, PartialEq, Eq, Debug)]
pub enum Access {
    Unsaid,
    Strict,
    Relaxed,
}

/// A type with its qualifiers.
#[cycle(types)]
#[derive(Drop)]
pub struct CType {
    pub base: Base,
    /// Whether it is const.
    pub constant: bool,
    /// Its block size in elements where it is shared, 0 for indefinite.
    pub shared: Option<u32>,
    pub access: Access,
}

/// A type without its qualifiers. What is pointed to and the element of an array are shared by all types that are made
/// of them, so a copy of a type costs the same whatever its depth.
#[cycle(types)]
pub enum Base {
    Void,
    /// An integer type, by its kind.
    Integer(Kind),
    /// A struct, by its number.
    Struct(u32),
    /// An array with its number of elements. It has the qualifiers of its element.
    Array(Target, u32),
    /// A pointer: to shared where its target is shared, a lock pointer where its target is a lock, else private.
    Pointer(Target),
    /// What a lock pointer points to (UPC 7.2.4).
    LockObject,
}

// A loop, since a chain of pointers may be as long as a source. It ends at the first that has another owner.
impl Drop for Base {
    #[cycle(types)]
    fn drop(mut self) {
        loop {
            let inner = match self {
                Base::Array(target, _) | Base::Pointer(target) => target.into_type(),
                Base::Void | Base::Integer(_) | Base::Struct(_) | Base::LockObject => return,
            };
            match Rc::into_inner(inner) {
                Some(inner) => self = inner.base,
                None => return,
            }
        }
    }
}

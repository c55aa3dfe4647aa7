//! What a program begins with.

use block_layout::{Loc, LocalPtr, ObjectRef, Shape};
use upc_text::Text;
use upc_types::Structs;
use upc_values::{Scalar, Value};

/// A declared shared object: its name, its block and its leaf elements, of `size` bytes each. The block is 0 where it
/// is indefinite.
#[derive(Drop)]
pub struct SharedDecl {
    pub name: Text,
    pub object: ObjectRef,
    pub block: u32,
    pub elements: u32,
    pub size: u32,
}

/// What a program begins with.
#[derive(Drop)]
pub struct Beginning {
    /// The structs, where each pointer in an object has a type with a number.
    pub structs: Structs,
    /// The shapes of shared elements, by number.
    pub shapes: Vec<Shape>,
    /// The shared objects of the file, numbered from 1 on.
    pub shared_objects: Vec<SharedDecl>,
    /// The values of the initialisers of shared objects; what has none begins with 0 or null.
    pub initials: Vec<(Loc, Scalar)>,
    /// The shapes of the private objects of the file, numbered from 0 on.
    pub private_shapes: Vec<Shape>,
    /// The values of the initialisers of private objects.
    pub private_initials: Vec<(LocalPtr, Value)>,
}

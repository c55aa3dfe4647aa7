//! What initialisers may name, and what they give.

use typed_tree::SharedDecl;
use upc_types::Structs;

/// What there is: threads, private objects of the file, structs, and shared objects of the file.
#[derive(Clone, Copy)]
pub struct Setting<'a> {
    pub threads: u32,
    pub privates: u64,
    pub structs: &'a Structs,
    pub shared: &'a [SharedDecl],
}

//! What code is made from.

ghost use Rattle.std.specs.Prelude.{◌≡◌};
ghost use Rattle.typed_tree.specs.Beginnings.{view_beginning};
ghost use Rattle.typed_tree.specs.ViewProgram.{view_program};
ghost use Rattle.gen_expr.specs.layer.ViewSource.{view_source, source_with};

use block_layout::Shape;
use typed_tree::{Function, Program, SharedDecl};
use upc_types::Structs;

/// A program without a thread: its functions by number, its structs with the numbers of pointer types, its declared
/// shared objects in order, and the shapes of the elements of shared objects.
#[derive(Clone, Copy)]
pub struct Source<'p> {
    pub functions: &'p [Function],
    pub structs: &'p Structs,
    pub shared: &'p [SharedDecl],
    pub shapes: &'p [Shape],
}

impl<'p> Source<'p> {
    /// What the code of a program is made from.
    pub fn of(program: &'p Program) -> Source<'p>
        ensures { view_source result ≡ source_with (view_program program.now).functions
            (view_beginning program.now.beginning) }
    {
        Source {
            functions: program.functions(),
            structs: program.structs(),
            shared: program.shared_objects(),
            shapes: program.shapes(),
        }
    }
}

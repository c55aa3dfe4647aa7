//! The shared objects of a program.

ghost use Rattle.std.specs.Prelude.{◌≡◌, IfOk, map};

use block_layout::ObjectRef;
use std::alloc::Global;
use typed_tree::SharedDecl;
use upc_text::OutOfMemory;

/// The declared shared objects, in order.
pub fn objects_of(alloc: Global, shared: &[SharedDecl]) -> Result<Vec<ObjectRef>, OutOfMemory>
    ensures { IfOk result (λ xs. xs.items ≡ map (λ x. x.object) shared.now) }
{
    let mut objects = Vec::new(alloc);
    for declared in shared {
        objects.push(declared.object)?;
    }
    Ok(objects)
}

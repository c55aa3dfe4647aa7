//! The elements that pointers name (UPC 6.5.1.1).

ghost use Rattle.std.specs.Prelude.{◌≡◌, ◌<◌, IfSome};
ghost use Rattle.upc_types.specs.Cells.{leaves};
ghost use Rattle.upc_types.specs.View.{view, view_base};
ghost use Rattle.upc_types.specs.ViewStructs.{view_structs};
ghost use Rattle.typing_rules.specs.Constants.{block_or_none};
ghost use Rattle.source_meaning.specs.Types as pure;
ghost use Rattle.source_meaning.specs.layer.Parts as parts;

use block_layout::limits;
use thread_steps::Elements;
use typing_rules::types::leaf;
use upc_types::{Base, CType, Structs};

// The bytes of an object; a type without layout is as one byte.
fn bytes_of(structs: &Structs, base: &Base) -> u32
    ensures { result ≡ parts.bytes_of (view_structs structs.now) (view_base base.now) }
{
    match structs.layout_of(base) {
        Some(layout) => layout.size,
        None => 1,
    }
}

// The block, or 0 where it is indefinite or there is none.
fn block_of(block: Option<u32>) -> u32
    ensures { result ≡ block_or_none block }
{
    match block {
        Some(block) => block,
        None => 0,
    }
}

/// The elements that a pointer to this type names: leaf elements (UPC 6.5.1.1).
pub fn elements_of(structs: &Structs, target: &CType) -> Elements
    ensures { result ≡ pure.elements_of (view_structs structs.now) (view target.now) }
{
    let block = block_of(target.shared);
    let size = bytes_of(structs, leaf(&target.base));
    if block < limits::SHARED_BYTES {
        Elements { block, size }
    } else {
        Elements {
            block: limits::SHARED_BYTES,
            size,
        }
    }
}

/// How many leaf elements an object has; None only where they are more than an object can have.
pub fn leaves_of(base: &Base) -> Option<u32>
    ensures { IfSome result (λ n. n ≡ leaves (view_base base.now)) }
{
    match base {
        Base::Array(element, count) => match leaves_of(&element.base) {
            Some(each) => count.checked_mul(each),
            None => None,
        },
        _ => Some(1),
    }
}

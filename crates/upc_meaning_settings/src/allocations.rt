//! The shapes of the elements that allocations make (UPC 7.2.2, 7.2.3).

ghost use Rattle.std.specs.Prelude.{◌≡◌, IfOk};
ghost use Rattle.upc_types.specs.View.{view};
ghost use Rattle.upc_types.specs.ViewStructs.{view_structs};
ghost use Rattle.typed_tree.specs.Elements as elements;
ghost use Rattle.source_meaning.specs.Expressions as mean;
ghost use Rattle.upc_meaning_settings.specs.layer.Settings.{running_seen};

use crate::setting::Setting;
use meaning_types::target_of;
use typed_tree_opening::{element_shape, number_among};
use typing_rules::calls::is_allocation;
use upc_text::OutOfMemory;
use upc_types::CType;
use upc_values::LibraryCall;

// The number of the shape of elements of a type; no typed program makes any without a size.
fn shape_number(setting: Setting<'_>, t: &CType) -> Result<u32, OutOfMemory>
    ensures { IfOk result (λ number. number ≡ elements.number_among setting.entry.runner.shapes.now
        (elements.element_shape (view_structs setting.entry.structs.now) (view t.now))) }
{
    let runner = setting.runner;
    if runner.shapes.len() > u32::MAX as usize || setting.structs.layout_of(&t.base).is_none() {
        return Err(OutOfMemory);
    }
    let shape = element_shape(runner.alloc, t, setting.structs)?;
    Ok(number_among(runner.shapes, &shape))
}

/// The number of the shape of the elements that an allocation makes.
pub fn allocated_shape(
    setting: Setting<'_>,
    call: LibraryCall,
    t: &CType,
) -> Result<u32, OutOfMemory>
    ensures { IfOk result (λ number. number ≡ mean.allocated_shape (running_seen setting.entry) call (view t.now)) }
{
    if !is_allocation(call) {
        return Ok(0);
    }
    match target_of(t) {
        Some(target) => shape_number(setting, target),
        None => Ok(0),
    }
}

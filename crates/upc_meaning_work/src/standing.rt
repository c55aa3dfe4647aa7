//! What a statement stands in.

ghost use Rattle.std.specs.Prelude.{◌≡◌, IfOk, map};
ghost use Rattle.typed_tree.specs.ViewStatements.{view_object};
ghost use Rattle.source_meaning.specs.Statements as pure;
ghost use Rattle.source_meaning.specs.layer.Parts as parts;
ghost use Rattle.upc_meaning_work.specs.layer.ViewItems.{view_standing};

use typed_tree::Object;
use upc_text::OutOfMemory;
use upc_types::CType;

/// Whether accesses that do not say so themselves are strict (UPC 6.7), how many objects of the function are in scope,
/// and the result of the function.
#[derive(Clone, Copy)]
pub struct Standing<'p> {
    pub strict: bool,
    pub count: u32,
    pub result: &'p CType,
}

/// In a block whose accesses are strict or not.
pub fn with_strict(strict: bool, standing: Standing<'_>) -> Standing<'_>
    ensures { view_standing result ≡ parts.with_strict strict (view_standing standing.entry) }
{
    Standing {
        strict,
        count: standing.count,
        result: standing.result,
    }
}

/// The standing after the declaration of some objects, which are then in scope (C99 6.2.1).
pub fn with_objects<'p>(
    objects: &[Object],
    standing: Standing<'p>,
) -> Result<Standing<'p>, OutOfMemory>
    ensures { IfOk result (λ s. view_standing s
        ≡ pure.with_objects (map view_object objects.now) (view_standing standing.entry)) }
{
    if objects.len() > (u32::MAX - standing.count) as usize {
        return Err(OutOfMemory);
    }
    Ok(Standing {
        strict: standing.strict,
        count: standing.count + objects.len() as u32,
        result: standing.result,
    })
}

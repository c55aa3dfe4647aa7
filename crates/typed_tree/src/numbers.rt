//! Shared objects by their numbers (UPC 6.5.1.1).

ghost use Rattle.std.specs.Prelude.{◌≡◌};
ghost use Rattle.typed_tree.specs.Initials as initials;

use crate::beginning::SharedDecl;
use block_layout::ObjectRef;

/// The shared object with this number, from 1 on.
pub fn numbered(shared: &[SharedDecl], number: u32) -> Option<ObjectRef>
    ensures { result ≡ initials.numbered shared.now number }
{
    if number == 0 {
        return None;
    }
    let declared = shared.get(number as usize - 1)?;
    Some(declared.object)
}

//! Structs that are complete.

ghost use Rattle.std.specs.Prelude.{◌≡◌};
ghost use Rattle.typing_rules.specs.Nodes as node;
ghost use Rattle.typing_rules.specs.Attributes.{Facts};
ghost use Rattle.typing_rules.specs.Rules.{lowest};

use block_layout::limits;

/// The members of a struct, by their number and their bytes.
pub fn struct_members(again: bool, members: usize, bytes: u64) -> Option<u8>
    ensures { (φ : Facts) → result ≡ lowest φ (node.Struct again members bytes) }
{
    if again {
        Some(2)
    } else if bytes > u64::from(limits::SHARED_BYTES) {
        Some(6)
    } else if members == 0 {
        Some(8)
    } else {
        None
    }
}

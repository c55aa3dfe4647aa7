//! The first member of each name, found by a map.

ghost use Rattle.std.specs.Prelude.{◌≡◌, ℕ, nat_eq, if◌then◌else◌, List, Some, None, IfOk, OnOk, map};
ghost use Rattle.std.specs.Cmp.Lexicographic.{pointwise};
ghost use Rattle.upc_types.specs.layer.Named.{at_name, first_or, IsNamed};
ghost use Rattle.upc_types.specs.View.{view_member};

use crate::structs::Member;
use std::alloc::Global;
use std::collections::BTreeMap;
use upc_text::OutOfMemory;

// Keeps the number of a name that has none yet.
fn keep_first(
    alloc: Global,
    names: &mut BTreeMap<Vec<u8>, u32>,
    name: &[u8],
    number: u32,
) -> Result<(), OutOfMemory>
    ensures { OnOk result ((q : List ℕ) → at_name names.new (λ k. k.items) q
        ≡ first_or (at_name names.old (λ k. k.items) q)
        (if pointwise nat_eq name.now q then Some number else None)) }
{
    if names.contains_key(name) {
        return Ok(());
    }
    let key = Vec::from_slice(alloc, name)?;
    names.insert(key, number)?;
    Ok(())
}

/// The number of the first member of each name. A tree, since no choice of names makes it slow.
pub fn first_members(
    alloc: Global,
    members: &[Member],
) -> Result<BTreeMap<Vec<u8>, u32>, OutOfMemory>
    ensures { IfOk result (λ names. IsNamed names (λ k. k.items) (map view_member members.now)) }
{
    let count = members.len();
    if count > u32::MAX as usize {
        return Err(OutOfMemory);
    }
    let mut names = BTreeMap::new(alloc);
    let mut number: u32 = 0;
    for member in members {
        keep_first(alloc, &mut names, member.name.as_slice(), number)?;
        number += 1;
    }
    Ok(names)
}

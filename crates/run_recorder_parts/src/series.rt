//! Parts of one kind, one after the other.

ghost use Rattle.std.specs.Prelude.{◌≡◌};
ghost use Rattle.run_recorder_parts.specs.layer.Readers as reader;
ghost use Rattle.run_recorder_parts.specs.layer.Readers.{Reads, same, texts};

use crate::fail::Fail;
use crate::parts::Parts;
use std::alloc::Global;

/// What can be read from the front of some parts, by its number.
pub trait Part: Drop {
    ghost use Rattle.std.specs.Prelude.{List, ℕ, Option};

    /// What it is read by.
    ghost of: { ℕ → List (List ℕ) → Option (Self × List (List ℕ)) };

    /// The one of this number.
    fn read(alloc: Global, at: u64, parts: &mut Parts<'_, '_>) -> Result<Self, Fail>
        ensures { Reads same (of at (texts parts.old.rest.now)) result (texts parts.new.rest.now) };
}

/// So many of them.
pub fn many<T: Part>(alloc: Global, count: u64, parts: &mut Parts<'_, '_>) -> Result<Vec<T>, Fail>
    ensures { Reads (λ v. v.items) (reader.many 0 count T.of (texts parts.old.rest.now)) result
        (texts parts.new.rest.now) }
{
    let mut found = Vec::new(alloc);
    for at in 0..count {
        let part = T::read(alloc, at, parts)?;
        found.push(part)?;
    }
    Ok(found)
}

//! Values, one word each.

ghost use Rattle.std.specs.Prelude.{◌≡◌, ◌++◌, ◌∷◌, [], OnOk, decimal};
ghost use Rattle.std.specs.Fmt.{signed_decimal};
ghost use Rattle.run_recorder_text.specs.Words.{with_colons, pointer_parts, loc_text, scalar_text, mark_text};
ghost use Rattle.run_recorder_text.specs.Words.{home_text, strict_text, hex_text, place_text};

use crate::put::{number, put};
use block_layout::{Loc, SharedPtr};
use upc_text::{OutOfMemory, Place};
use upc_values::{Mark, Scalar};

/// Adds a location.
pub fn loc(out: &mut Vec<u8>, loc: &Loc) -> Result<(), OutOfMemory>
    ensures { OnOk result (out.new.items ≡ out.old.items ++ loc_text loc.now) }
{
    put(out, "@")?;
    number(out, loc.object)?;
    put(out, ".")?;
    number(out, loc.thread)?;
    put(out, ".")?;
    number(out, loc.offset)
}

// A number and a colon.
fn colon(out: &mut Vec<u8>, n: u32) -> Result<(), OutOfMemory>
    ensures { OnOk result (out.new.items ≡ out.old.items ++ (decimal n ++ 58 ∷ [])) }
{
    number(out, n)?;
    put(out, ":")
}

// The thread, the phase and the offset of a pointer-to-shared.
fn pointer_end(out: &mut Vec<u8>, p: &SharedPtr) -> Result<(), OutOfMemory>
    ensures { OnOk result (out.new.items ≡ out.old.items ++ with_colons
        (decimal p.now.thread ∷ decimal p.now.phase ∷ signed_decimal p.now.offset ∷ [])) }
{
    colon(out, p.thread)?;
    colon(out, p.phase)?;
    number(out, p.offset)
}

/// Adds the nine numbers of a pointer-to-shared.
pub(crate) fn pointer(out: &mut Vec<u8>, p: &SharedPtr) -> Result<(), OutOfMemory>
    ensures { OnOk result (out.new.items ≡ out.old.items ++ with_colons (pointer_parts p.now)) }
{
    colon(out, p.object.number)?;
    colon(out, p.object.total)?;
    colon(out, p.object.block)?;
    colon(out, p.object.home)?;
    colon(out, p.object.shape)?;
    colon(out, p.object.base)?;
    pointer_end(out, p)
}

/// Adds a scalar.
pub(crate) fn scalar(out: &mut Vec<u8>, value: &Scalar) -> Result<(), OutOfMemory>
    ensures { OnOk result (out.new.items ≡ out.old.items ++ scalar_text value.now) }
{
    match value {
        Scalar::Int(v) => number(out, *v),
        Scalar::Lock(n) => {
            put(out, "l:")?;
            number(out, *n)
        }
        Scalar::Shared(p) => {
            put(out, "p:")?;
            pointer(out, p)
        }
    }
}

/// Adds a mark.
pub(crate) fn mark(out: &mut Vec<u8>, mark: &Mark) -> Result<(), OutOfMemory>
    ensures { OnOk result (out.new.items ≡ out.old.items ++ mark_text mark.now) }
{
    match mark {
        Mark::Absent => put(out, "none"),
        Mark::Start => put(out, "start"),
        Mark::Finish => put(out, "finish"),
        Mark::Given(v) => number(out, *v),
    }
}

/// Adds the home of a new object.
pub(crate) fn home(out: &mut Vec<u8>, home: Option<u32>) -> Result<(), OutOfMemory>
    ensures { OnOk result (out.new.items ≡ out.old.items ++ home_text home) }
{
    match home {
        None => put(out, "any"),
        Some(t) => number(out, t),
    }
}

/// Adds whether an access is strict.
pub(crate) fn strict(out: &mut Vec<u8>, strict: bool) -> Result<(), OutOfMemory>
    ensures { OnOk result (out.new.items ≡ out.old.items ++ strict_text strict) }
{
    put(out, if strict { "strict" } else { "relaxed" })
}

/// Adds bytes, two digits each.
pub(crate) fn hex(out: &mut Vec<u8>, bytes: &[u8]) -> Result<(), OutOfMemory>
    ensures { OnOk result (out.new.items ≡ out.old.items ++ hex_text bytes.now) }
{
    if bytes.is_empty() {
        return put(out, "-");
    }
    let alloc = *out.allocator();
    let text = hex::encode(alloc, bytes)?;
    put(out, text.as_str())
}

/// Adds a place.
pub(crate) fn place(out: &mut Vec<u8>, place: &Place) -> Result<(), OutOfMemory>
    ensures { OnOk result (out.new.items ≡ out.old.items ++ place_text place.now) }
{
    number(out, place.line)?;
    put(out, ":")?;
    number(out, place.column)
}

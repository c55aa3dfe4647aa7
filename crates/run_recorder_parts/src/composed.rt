//! One word that is made of parts.

ghost use Rattle.std.specs.Prelude.{◌≡◌, codes};
ghost use Rattle.run_recorder_parts.specs.layer.Readers.{Gives, Reads, same, strip, texts};
ghost use Rattle.run_recorder_parts.specs.layer.Values as reader;

use crate::fail::Fail;
use crate::fields::{int64, int128, number32, starts};
use crate::parts::{Parts, split};
use crate::series::Part;
use block_layout::{Loc, ObjectRef, SharedPtr};
use std::alloc::Global;
use upc_values::Scalar;

// What stands after `@`.
fn after_at(word: &[u8]) -> Result<&[u8], Fail>
    ensures { Gives (λ t. t.now) result (strip (codes "@") word.now) }
{
    match word {
        [b'@', rest @ ..] => Ok(rest),
        _ => Err(Fail::Bad),
    }
}

// What stands after `l:`.
fn after_lock(word: &[u8]) -> Result<&[u8], Fail>
    ensures { Gives (λ t. t.now) result (strip (codes "l:") word.now) }
{
    match word {
        [b'l', b':', rest @ ..] => Ok(rest),
        _ => Err(Fail::Bad),
    }
}

// What stands after `p:`.
fn after_pointer(word: &[u8]) -> Result<&[u8], Fail>
    ensures { Gives (λ t. t.now) result (strip (codes "p:") word.now) }
{
    match word {
        [b'p', b':', rest @ ..] => Ok(rest),
        _ => Err(Fail::Bad),
    }
}

fn loc_parts(parts: &mut Parts<'_, '_>) -> Result<Loc, Fail>
    ensures { Reads same (reader.loc_parts_of (texts parts.old.rest.now)) result
        (texts parts.new.rest.now) }
{
    let object = number32(parts.next()?)?;
    let thread = number32(parts.next()?)?;
    let offset = number32(parts.next()?)?;
    Ok(Loc {
        object,
        thread,
        offset,
    })
}

/// A location.
pub fn loc(alloc: Global, word: &[u8]) -> Result<Loc, Fail>
    ensures { Gives same result (reader.loc_of word.now) }
{
    let text = after_at(word)?;
    let all = split(alloc, text, b'.')?;
    let mut parts = Parts { rest: &all };
    let loc = loc_parts(&mut parts)?;
    if parts.end() { Ok(loc) } else { Err(Fail::Bad) }
}

fn object_parts(parts: &mut Parts<'_, '_>) -> Result<ObjectRef, Fail>
    ensures { Reads same (reader.object_parts_of (texts parts.old.rest.now)) result
        (texts parts.new.rest.now) }
{
    let number = number32(parts.next()?)?;
    let total = number32(parts.next()?)?;
    let block = number32(parts.next()?)?;
    let home = number32(parts.next()?)?;
    let shape = number32(parts.next()?)?;
    let base = number32(parts.next()?)?;
    Ok(ObjectRef {
        number,
        total,
        block,
        home,
        shape,
        base,
    })
}

fn pointer_parts(parts: &mut Parts<'_, '_>) -> Result<SharedPtr, Fail>
    ensures { Reads same (reader.pointer_parts_of (texts parts.old.rest.now)) result
        (texts parts.new.rest.now) }
{
    let object = object_parts(parts)?;
    let thread = number32(parts.next()?)?;
    let phase = number32(parts.next()?)?;
    let offset = int64(parts.next()?)?;
    Ok(SharedPtr {
        object,
        thread,
        phase,
        offset,
    })
}

/// A pointer-to-shared.
pub fn pointer(alloc: Global, word: &[u8]) -> Result<SharedPtr, Fail>
    ensures { Gives same result (reader.pointer_of word.now) }
{
    let text = after_pointer(word)?;
    let all = split(alloc, text, b':')?;
    let mut parts = Parts { rest: &all };
    let pointer = pointer_parts(&mut parts)?;
    if parts.end() {
        Ok(pointer)
    } else {
        Err(Fail::Bad)
    }
}

/// A scalar.
pub fn scalar(alloc: Global, word: &[u8]) -> Result<Scalar, Fail>
    ensures { Gives same result (reader.scalar_of word.now) }
{
    if starts(word, b'l') {
        return Ok(Scalar::Lock(number32(after_lock(word)?)?));
    }
    if starts(word, b'p') {
        return Ok(Scalar::Shared(pointer(alloc, word)?));
    }
    Ok(Scalar::Int(int128(word)?))
}

impl Part for Scalar {
    ghost use Rattle.run_recorder_parts.specs.layer.Readers.{each};
    ghost use Rattle.run_recorder_parts.specs.layer.Values.{scalar_of};

    ghost of = { each scalar_of };

    fn read(alloc: Global, _at: u64, parts: &mut Parts<'_, '_>) -> Result<Scalar, Fail> {
        let word = parts.next()?;
        scalar(alloc, word)
    }
}

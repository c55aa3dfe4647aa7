//! Actions, as words.

ghost use Rattle.std.specs.Prelude.{◌≡◌, ◌++◌, OnOk, map};
ghost use Rattle.run_recorder_text.specs.Words.{with_blanks, scalar_text, action_words};
ghost use Rattle.run_recorder_text.specs.code.Rows.{after_blanks};

use crate::put::{number, put};
use crate::values::{hex, home, loc, mark, pointer, scalar, strict};
use block_layout::Loc;
use upc_text::OutOfMemory;
use upc_values::{Action, Scalar};

fn read(out: &mut Vec<u8>, at: &Loc, is_strict: bool) -> Result<(), OutOfMemory>
    ensures { OnOk result (out.new.items
        ≡ out.old.items ++ with_blanks (action_words (Action.Read at.now is_strict))) }
{
    put(out, "read ")?;
    strict(out, is_strict)?;
    put(out, " ")?;
    loc(out, at)
}

fn write(out: &mut Vec<u8>, at: &Loc, value: &Scalar, is_strict: bool) -> Result<(), OutOfMemory>
    ensures { OnOk result (out.new.items
        ≡ out.old.items ++ with_blanks (action_words (Action.Write is_strict at.now value.now))) }
{
    put(out, "write ")?;
    strict(out, is_strict)?;
    put(out, " ")?;
    loc(out, at)?;
    put(out, " ")?;
    scalar(out, value)
}

fn alloc(
    out: &mut Vec<u8>,
    nblocks: u64,
    nbytes: u64,
    place: Option<u32>,
    shape: u32,
) -> Result<(), OutOfMemory>
    ensures { OnOk result (out.new.items
        ≡ out.old.items ++ with_blanks (action_words (Action.Alloc nblocks nbytes place shape))) }
{
    put(out, "alloc ")?;
    number(out, nblocks)?;
    put(out, " ")?;
    number(out, nbytes)?;
    put(out, " ")?;
    home(out, place)?;
    put(out, " ")?;
    number(out, shape)
}

// Each argument with a blank before it.
fn args(out: &mut Vec<u8>, args: &[Scalar]) -> Result<(), OutOfMemory>
    ensures { OnOk result (out.new.items
        ≡ out.old.items ++ after_blanks (map scalar_text args.now)) }
{
    for value in args {
        put(out, " ")?;
        scalar(out, value)?;
    }
    Ok(())
}

fn meet(out: &mut Vec<u8>, call: u8, values: &[Scalar]) -> Result<(), OutOfMemory>
    ensures { OnOk result (out.new.items
        ≡ out.old.items ++ with_blanks (action_words (Action.Meet call values.now))) }
{
    put(out, "meet ")?;
    number(out, call)?;
    put(out, " ")?;
    number(out, values.len())?;
    args(out, values)
}

/// Adds an action.
pub(crate) fn action(out: &mut Vec<u8>, action: &Action) -> Result<(), OutOfMemory>
    ensures { OnOk result (out.new.items
        ≡ out.old.items ++ with_blanks (action_words action.now)) }
{
    match action {
        Action::Read { loc, strict } => read(out, loc, *strict),
        Action::Write { loc, value, strict } => write(out, loc, value, *strict),
        Action::Fence => put(out, "fence"),
        Action::Beat => put(out, "beat"),
        Action::Notify(m) => {
            put(out, "notify ")?;
            mark(out, m)
        }
        Action::Wait(m) => {
            put(out, "wait ")?;
            mark(out, m)
        }
        Action::Lock(n) => {
            put(out, "lock ")?;
            number(out, *n)
        }
        Action::Attempt(n) => {
            put(out, "attempt ")?;
            number(out, *n)
        }
        Action::Unlock(n) => {
            put(out, "unlock ")?;
            number(out, *n)
        }
        Action::LockMake => put(out, "lockmake"),
        Action::LockFree(n) => {
            put(out, "lockfree ")?;
            number(out, *n)
        }
        Action::Alloc {
            nblocks,
            nbytes,
            home,
            shape,
        } => alloc(out, *nblocks, *nbytes, *home, *shape),
        Action::Free(p) => {
            put(out, "free p:")?;
            pointer(out, p)
        }
        Action::Meet { call, args } => meet(out, *call, args.as_slice()),
        Action::Print(bytes) => {
            put(out, "print ")?;
            hex(out, bytes.as_slice())
        }
        Action::Exit(v) => {
            put(out, "exit ")?;
            number(out, *v)
        }
    }
}

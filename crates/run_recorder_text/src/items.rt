//! Replies, items and ends, as words.

ghost use Rattle.std.specs.Prelude.{◌≡◌, ◌++◌, OnOk};
ghost use Rattle.run_recorder_text.specs.Words.{with_blanks, reply_words, end_words};
ghost use Rattle.run_recorder_text.specs.Lines.{item_line};

use crate::actions::action;
use crate::put::{number, put};
use crate::values::{place, scalar};
use upc_text::OutOfMemory;
use upc_values::{End, Item, Reply};

fn reply(out: &mut Vec<u8>, reply: &Reply) -> Result<(), OutOfMemory>
    ensures { OnOk result (out.new.items
        ≡ out.old.items ++ with_blanks (reply_words reply.now)) }
{
    match reply {
        Reply::Done => put(out, "done"),
        Reply::Value(v) => {
            put(out, "value ")?;
            scalar(out, v)
        }
        Reply::Flag(b) => put(out, if *b { "flag 1" } else { "flag 0" }),
        Reply::Refused(c) => {
            put(out, "refused ")?;
            number(out, *c)
        }
    }
}

/// Adds an item.
pub(crate) fn item(out: &mut Vec<u8>, item: &Item) -> Result<(), OutOfMemory>
    ensures { OnOk result (out.new.items ≡ out.old.items ++ item_line item.now) }
{
    match item {
        Item::Stall => put(out, "stall"),
        Item::Did(did, answer) => {
            action(out, did)?;
            put(out, " -> ")?;
            reply(out, answer)
        }
    }
}

/// Adds how a thread ended.
pub(crate) fn end(out: &mut Vec<u8>, end: &End) -> Result<(), OutOfMemory>
    ensures { OnOk result (out.new.items ≡ out.old.items ++ with_blanks (end_words end.now)) }
{
    match end {
        End::Ended(v) => {
            put(out, "ended ")?;
            number(out, *v)
        }
        End::Fault(c, at) => {
            put(out, "fault ")?;
            number(out, *c)?;
            put(out, " ")?;
            place(out, at)
        }
        End::Budget => put(out, "budget"),
        End::ActionsFull => put(out, "full"),
        End::Exit(v) => {
            put(out, "exit ")?;
            number(out, *v)
        }
        End::Halted => put(out, "halted"),
        End::Deadlocked(wanted) => {
            put(out, "deadlocked ")?;
            action(out, wanted)
        }
    }
}

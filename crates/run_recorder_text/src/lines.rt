//! The lines of threads, histories and orders.

ghost use Rattle.std.specs.Prelude.{◌≡◌, ◌++◌, OnOk, codes, length, map};
ghost use Rattle.run_recorder_text.specs.Lines.{thread_line, item_line, entry_line, op_line};
ghost use Rattle.run_recorder_text.specs.Lines as said;
ghost use Rattle.run_recorder_text.specs.code.Rows.{rows};

use crate::items::{end, item};
use crate::put::{number, put};
use upc_text::OutOfMemory;
use upc_values::{Entries, Entry, Items, Op, Strand};

fn thread(out: &mut Vec<u8>, t: usize, strand: &Strand) -> Result<(), OutOfMemory>
    ensures { OnOk result (out.new.items ≡ out.old.items
        ++ thread_line t (length strand.now.items) strand.now.ticks strand.now.end) }
{
    put(out, "thread ")?;
    number(out, t)?;
    put(out, " items ")?;
    number(out, strand.items.len())?;
    put(out, " ticks ")?;
    number(out, strand.ticks)?;
    put(out, " ")?;
    end(out, &strand.end)
}

fn items(out: &mut Vec<u8>, items: &Items) -> Result<(), OutOfMemory>
    ensures { OnOk result (out.new.items ≡ out.old.items ++ rows (map item_line items.now)) }
{
    for one in items.iter() {
        item(out, one)?;
        put(out, "\n")?;
    }
    Ok(())
}

/// Adds the lines of a thread.
pub(crate) fn strand(out: &mut Vec<u8>, t: usize, strand: &Strand) -> Result<(), OutOfMemory>
    ensures { OnOk result (out.new.items
        ≡ out.old.items ++ rows (said.strand_lines t strand.now)) }
{
    thread(out, t, strand)?;
    put(out, "\n")?;
    items(out, &strand.items)
}

fn entry(out: &mut Vec<u8>, entry: &Entry) -> Result<(), OutOfMemory>
    ensures { OnOk result (out.new.items ≡ out.old.items ++ entry_line entry.now) }
{
    number(out, entry.thread)?;
    put(out, ".")?;
    number(out, entry.index)
}

fn entries(out: &mut Vec<u8>, entries: &Entries) -> Result<(), OutOfMemory>
    ensures { OnOk result (out.new.items ≡ out.old.items ++ rows (map entry_line entries.now)) }
{
    for one in entries.iter() {
        entry(out, one)?;
        put(out, "\n")?;
    }
    Ok(())
}

/// Adds the lines of a history.
pub(crate) fn history(out: &mut Vec<u8>, all: &Entries) -> Result<(), OutOfMemory>
    ensures { OnOk result (out.new.items ≡ out.old.items
        ++ rows (said.section_lines (codes "history") entry_line all.now)) }
{
    put(out, "history ")?;
    number(out, all.len())?;
    put(out, "\n")?;
    entries(out, all)
}

/// Adds the name of an operation.
pub fn op(out: &mut Vec<u8>, op: &Op) -> Result<(), OutOfMemory>
    ensures { OnOk result (out.new.items ≡ out.old.items ++ op_line op.now) }
{
    number(out, op.thread)?;
    put(out, ".")?;
    number(out, op.index)?;
    put(out, if op.write { ".w" } else { ".r" })
}

fn ops(out: &mut Vec<u8>, ops: &[Op]) -> Result<(), OutOfMemory>
    ensures { OnOk result (out.new.items ≡ out.old.items ++ rows (map op_line ops.now)) }
{
    for one in ops {
        op(out, one)?;
        put(out, "\n")?;
    }
    Ok(())
}

/// Adds the lines of the strict order.
pub(crate) fn strict(out: &mut Vec<u8>, all: &[Op]) -> Result<(), OutOfMemory>
    ensures { OnOk result (out.new.items ≡ out.old.items
        ++ rows (said.section_lines (codes "strict") op_line all.now)) }
{
    put(out, "strict ")?;
    number(out, all.len())?;
    put(out, "\n")?;
    ops(out, all)
}

/// Adds the lines of a thread's order.
pub(crate) fn order(out: &mut Vec<u8>, t: usize, all: &[Op]) -> Result<(), OutOfMemory>
    ensures { OnOk result (out.new.items ≡ out.old.items ++ rows (said.order_lines t all.now)) }
{
    put(out, "order ")?;
    number(out, t)?;
    put(out, " ")?;
    number(out, all.len())?;
    put(out, "\n")?;
    ops(out, all)
}

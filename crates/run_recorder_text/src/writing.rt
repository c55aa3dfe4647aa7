//! The whole text.

ghost use Rattle.std.specs.Prelude.{◌≡◌, ◌++◌, OnOk, IfOk};
ghost use Rattle.run_recorder_text.specs.Lines as said;
ghost use Rattle.run_recorder_text.specs.Lines.{head_lines, limits_line, strand_lines, order_lines, numbered_lines};
ghost use Rattle.run_recorder_text.specs.Short.{HasText};
ghost use Rattle.run_recorder_text.specs.code.Rows.{rows};

use crate::lines::{history, order, strand, strict};
use crate::put::{number, put};
use std::alloc::Global;
use upc_text::OutOfMemory;
use upc_values::{Journal, Order, Orders, Strand};

fn limits(out: &mut Vec<u8>, journal: &Journal) -> Result<(), OutOfMemory>
    ensures { OnOk result (out.new.items ≡ out.old.items
        ++ limits_line journal.now.threads journal.now.budget journal.now.actions) }
{
    put(out, "threads ")?;
    number(out, journal.threads)?;
    put(out, " budget ")?;
    number(out, journal.budget)?;
    put(out, " actions ")?;
    number(out, journal.actions)
}

fn first_lines(out: &mut Vec<u8>, journal: &Journal) -> Result<(), OutOfMemory>
    ensures { OnOk result (out.new.items ≡ out.old.items
        ++ rows (head_lines 2 journal.now.threads journal.now.budget journal.now.actions)) }
{
    put(out, "upc-record 2\n")?;
    limits(out, journal)?;
    put(out, "\nrule places 64 combine\n")
}

fn strands(out: &mut Vec<u8>, strands: &[Strand]) -> Result<(), OutOfMemory>
    ensures { OnOk result (out.new.items
        ≡ out.old.items ++ rows (numbered_lines strand_lines 0 strands.now)) }
{
    for t in 0..strands.len() {
        strand(out, t, &strands[t])?;
    }
    Ok(())
}

fn orders(out: &mut Vec<u8>, orders: &[Order]) -> Result<(), OutOfMemory>
    ensures { OnOk result (out.new.items
        ≡ out.old.items ++ rows (numbered_lines order_lines 0 orders.now)) }
{
    for t in 0..orders.len() {
        order(out, t, orders[t].as_slice())?;
    }
    Ok(())
}

/// The text of a run, with the orders of its operations, in version 2: lines of words in bytes of ASCII, each with a
/// line end. The run has a strand and an order for each thread, its history agrees with its records, and it is short
/// (`is_short`).
pub fn render(alloc: Global, journal: &Journal, all: &Orders) -> Result<Vec<u8>, OutOfMemory>
    requires { HasText journal.now all.now }
    ensures { IfOk result (λ bytes. bytes.items ≡ said.text journal.now all.now) }
{
    let mut out = Vec::new(alloc);
    first_lines(&mut out, journal)?;
    strands(&mut out, journal.strands.as_slice())?;
    history(&mut out, &journal.history)?;
    strict(&mut out, all.strict.as_slice())?;
    orders(&mut out, all.threads.as_slice())?;
    put(&mut out, "end\n")?;
    Ok(out)
}

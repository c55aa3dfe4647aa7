//! The list of what runs show, in text.

ghost use Rattle.std.specs.Prelude.{◌≡◌, ◌++◌, true, IfOk, map};
ghost use Rattle.std.specs.List.{flat_map};
ghost use Rattle.outcomes.specs.Tally.{listed};
ghost use Rattle.outcomes.specs.Text as pure;
ghost use Rattle.outcomes.specs.Text.{indented, more_picks, picks_text, listed_text};

use crate::row::Row;
use std::alloc::{AllocError as OutOfMemory, Global};
use upc_top_output::text::{add, add_number};

// Each pick after a comma.
fn add_more_picks(text: &mut Vec<u8>, picks: &[u32]) -> Result<(), OutOfMemory>
    ensures { IfOk result (λ _. text.new.items ≡ text.old.items ++ more_picks picks.now) }
{
    for pick in picks {
        add(text, b",")?;
        add_number(text, *pick)?;
    }
    Ok(())
}

fn add_picks(text: &mut Vec<u8>, picks: &[u32]) -> Result<(), OutOfMemory>
    ensures { IfOk result (λ _. text.new.items ≡ text.old.items ++ picks_text picks.now) }
{
    match picks {
        [] => add(text, b"none"),
        [first, rest @ ..] => {
            add_number(text, *first)?;
            add_more_picks(text, rest)
        }
    }
}

// A text with four blanks before each of its lines, and a line of its own where it ends without a line end.
fn add_indented(out: &mut Vec<u8>, text: &[u8]) -> Result<(), OutOfMemory>
    ensures { IfOk result (λ _. out.new.items ≡ out.old.items ++ indented true text.now) }
{
    let mut begins = true;
    for byte in text {
        if begins {
            add(out, b"    ")?;
        }
        out.push(*byte)?;
        begins = *byte == b'\n';
    }
    if !begins {
        add(out, b"\n\\ no line end\n")?;
    }
    Ok(())
}

// The first line of a row.
fn head(alloc: Global, many: u32, row: &Row) -> Result<Vec<u8>, OutOfMemory>
    ensures { IfOk result (λ text. text.items ≡ pure.head_text many (listed row.now)) }
{
    let mut text = Vec::new(alloc);
    add_number(&mut text, row.count)?;
    add(&mut text, b" of ")?;
    add_number(&mut text, many)?;
    add(&mut text, b": status ")?;
    add_number(&mut text, u32::from(row.status))?;
    add(&mut text, b", picks ")?;
    add_picks(&mut text, row.picks.as_slice())?;
    add(&mut text, b"\n")?;
    Ok(text)
}

fn row_text(alloc: Global, many: u32, row: &Row) -> Result<Vec<u8>, OutOfMemory>
    ensures { IfOk result (λ text. text.items ≡ listed_text many (listed row.now)) }
{
    let mut text = head(alloc, many, row)?;
    add_indented(&mut text, row.text.as_slice())?;
    add(&mut text, row.line.as_slice())?;
    Ok(text)
}

/// What so many runs show, row by row.
pub fn list_text(alloc: Global, many: u32, rows: &[Row]) -> Result<Vec<u8>, OutOfMemory>
    ensures { IfOk result (λ text. text.items ≡ pure.list_text many (map listed rows.now)) }
{
    let mut text = Vec::new(alloc);
    for row in rows {
        add(&mut text, row_text(alloc, many, row)?.as_slice())?;
    }
    Ok(text)
}

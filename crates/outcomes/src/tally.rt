//! How often the runs show what they show.

ghost use Rattle.std.specs.Prelude.{◌≡◌, ◌+◌, ◌<◌, ◌^◌, map, position, IfOk};
ghost use Rattle.upc_values.specs.Lists.{Each};
ghost use Rattle.outcomes.specs.Tally as pure;
ghost use Rattle.outcomes.specs.Tally.{listed};
ghost use Rattle.outcomes.specs.code.Added.{added, merged};

use crate::row::Row;
use std::alloc::AllocError as OutOfMemory;

fn is_same(row: &Row, new: &Row) -> bool
    ensures { result ≡ pure.is_same (listed row.now).shown (listed new.now).shown }
{
    row.status == new.status
        && row.text.as_slice() == new.text.as_slice()
        && row.line.as_slice() == new.line.as_slice()
}

// The first row that shows the same.
fn find(rows: &[Row], new: &Row) -> Option<usize>
    ensures { result ≡ position (λ w. pure.is_same (listed w).shown (listed new.now).shown) rows.now }
{
    rows.iter().position(|row| is_same(row, new))
}

// One more run shows what the row shows. Of two lists of picks the shorter one is kept.
fn merge(row: &mut Row, new: Row)
    requires { row.old.count + 1 < 2 ^ 32 }
    ensures { listed row.new ≡ merged (listed new) (listed row.old) }
{
    row.count += 1;
    if new.picks.len() < row.picks.len() {
        row.picks = new.picks;
    }
}

/// Adds what a run shows: to the row that shows it, else as a row of its own.
pub fn add(rows: &mut Vec<Row>, new: Row) -> Result<(), OutOfMemory>
    requires { Each (λ w. w.count + 1 < 2 ^ 32) rows.old.items }
    ensures { IfOk result (λ _. map listed rows.new.items ≡ added (listed new) (map listed rows.old.items)) }
{
    match find(rows.as_slice(), &new) {
        Some(at) => merge(&mut rows[at], new),
        None => rows.push(new)?,
    }
    Ok(())
}

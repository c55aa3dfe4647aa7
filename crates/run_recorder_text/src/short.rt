//! How long a run in a text may be.

ghost use Rattle.std.specs.Prelude.{◌≡◌, nat_le};
ghost use Rattle.run_recorder_text.specs.Short as short;
ghost use Rattle.run_recorder_text.specs.Short.{item_count, most_items};

use upc_values::{Journal, Strand};

/// The most entries that a history in a text has.
pub const MOST_ENTRIES: usize = 32_768;

/// The most items that all records in a text have together.
pub const MOST_ITEMS: usize = 131_072;

// Whether the records have at most `MOST_ITEMS` items together.
fn are_few(strands: &[Strand]) -> bool
    ensures { result ≡ nat_le (item_count strands.now) most_items }
{
    let mut left = MOST_ITEMS;
    for strand in strands {
        let count = strand.items.len();
        if count > left {
            return false;
        }
        left -= count;
    }
    true
}

/// Whether a journal is short: its history has at most `MOST_ENTRIES` entries, and its records have at most
/// `MOST_ITEMS` items together. It takes no memory.
pub fn is_short(journal: &Journal) -> bool
    ensures { result ≡ short.is_short journal.now }
{
    journal.history.len() <= MOST_ENTRIES && are_few(journal.strands.as_slice())
}

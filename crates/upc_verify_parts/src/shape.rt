//! Whether a journal and its orders are of so many threads.

ghost use Rattle.std.specs.Prelude.{◌↔◌, IsTrue};
ghost use Rattle.upc_verify_parts.specs.Parts.{HasShape};

use upc_values::{Journal, Orders};

/// Whether threads, strands and thread orders are as many as the program's threads, and budget and actions at least 1.
pub fn has_shape(threads: u32, journal: &Journal, orders: &Orders) -> bool
    ensures { IsTrue result ↔ HasShape threads journal.now orders.now }
{
    let many = threads as usize;
    journal.threads == threads
        && journal.strands.len() == many
        && orders.threads.len() == many
        && journal.budget >= 1
        && journal.actions >= 1
}

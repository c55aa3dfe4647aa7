//! What is written of a record that was judged.

ghost use Rattle.std.specs.Prelude.{◌≡◌, IfOk};
ghost use Rattle.upc_top_judging.specs.Judgments as said;

use crate::judgment::Judgment;
use std::alloc::Global;
use upc_text::OutOfMemory;
use upc_top_output::text::{bad_record_text, broken_text};
use upc_verify::Verdict;

/// The text for the output.
pub fn judgment_text(alloc: Global, judgment: Judgment) -> Result<Vec<u8>, OutOfMemory>
    ensures { IfOk result (λ text. text.items ≡ said.judgment_text judgment) }
{
    match judgment {
        Judgment::Judged(Verdict::Sound) => Vec::from_slice(alloc, b"sound\n"),
        _ => Ok(Vec::new(alloc)),
    }
}

/// The line for the error output.
pub fn judgment_line(alloc: Global, judgment: Judgment) -> Result<Vec<u8>, OutOfMemory>
    ensures { IfOk result (λ line. line.items ≡ said.judgment_line judgment) }
{
    match judgment {
        Judgment::BadText(place) => bad_record_text(alloc, place),
        Judgment::OldText => Vec::from_slice(alloc, b"upc: old record\n"),
        Judgment::Judged(Verdict::Sound) => Ok(Vec::new(alloc)),
        Judgment::Judged(Verdict::Broken { part, thread }) => broken_text(alloc, part, thread),
    }
}

/// The status.
pub fn judgment_status(judgment: Judgment) -> u8
    ensures { result ≡ said.judgment_status judgment }
{
    match judgment {
        Judgment::BadText(_) => 112,
        Judgment::OldText => 113,
        Judgment::Judged(Verdict::Sound) => 0,
        Judgment::Judged(Verdict::Broken { .. }) => 111,
    }
}

//! How a verdict is written.

ghost use Rattle.std.specs.Prelude.{◌≡◌, IfOk};
ghost use Rattle.upc_top.specs.Delivery.{writing};
ghost use Rattle.upc_outcomes.specs.Verdicts as pure;
ghost use Rattle.upc_outcomes.specs.Verdicts.{text_of, line_of, IsWritable};
ghost use Rattle.upc_outcomes.specs.Answers.{Delivered, Delivers};

use crate::verdict::Verdict;
use outcomes::list_text;
use run_recorder_text::render;
use std::alloc::{AllocError as OutOfMemory, Global};
use upc_text::{Sink, put_all};
use upc_top_output::text::refusal_text;

fn text_for(alloc: Global, verdict: &Verdict) -> Result<Vec<u8>, OutOfMemory>
    requires { IsWritable verdict.now }
    ensures { IfOk result (λ text. text.items ≡ text_of verdict.now) }
{
    match verdict {
        Verdict::Found(many, rows) => list_text(alloc, *many, rows.as_slice()),
        Verdict::Recorded(journal, orders) => render(alloc, journal, orders),
        _ => Ok(Vec::new(alloc)),
    }
}

fn line_for(alloc: Global, verdict: &Verdict) -> Result<Vec<u8>, OutOfMemory>
    ensures { IfOk result (λ line. line.items ≡ line_of verdict.now) }
{
    match verdict {
        Verdict::Usage => Vec::from_slice(alloc, b"upc: usage\n"),
        Verdict::ReadFault => Vec::from_slice(alloc, b"upc: read fault\n"),
        Verdict::TooLong => Vec::from_slice(alloc, b"upc: source too long\n"),
        Verdict::Refused(refusal) => refusal_text(alloc, *refusal),
        Verdict::Found(_, _) | Verdict::Recorded(_, _) => Ok(Vec::new(alloc)),
        Verdict::Overlong => Vec::from_slice(alloc, b"upc: too long for a text\n"),
        Verdict::NoMemory => Vec::from_slice(alloc, b"upc: no memory\n"),
    }
}

// The status of a verdict that was written whole.
fn status_for(verdict: &Verdict) -> u8
    ensures { result ≡ pure.status_for verdict.now }
{
    match verdict {
        Verdict::Found(_, _) | Verdict::Recorded(_, _) => 0,
        Verdict::Usage => 100,
        Verdict::Refused(_) => 101,
        Verdict::ReadFault => 102,
        Verdict::NoMemory => 104,
        Verdict::Overlong => 109,
        Verdict::TooLong => 110,
    }
}

// The text, and then the line.
fn send<O: Sink, E: Sink>(
    verdict: &Verdict,
    text: &[u8],
    line: &[u8],
    out: &mut O,
    err: &mut E,
) -> u8
    requires text { text.now ≡ text_of verdict.now }
    requires line { line.now ≡ line_of verdict.now }
    ensures { Delivered verdict.now
        (writing (O.taken out.old) (O.taken out.new) (O.faults out.old) (O.faults out.new))
        (writing (E.taken err.old) (E.taken err.new) (E.faults err.old) (E.faults err.new))
        result }
{
    if put_all(out, text).is_err() {
        return 103;
    }
    if put_all(err, line).is_err() {
        return 103;
    }
    status_for(verdict)
}

/// Writes what a verdict says. Where memory is wanting for it, that is the verdict.
pub fn deliver<O: Sink, E: Sink>(alloc: Global, verdict: Verdict, out: &mut O, err: &mut E) -> u8
    requires { IsWritable verdict }
    ensures { Delivers verdict
        (writing (O.taken out.old) (O.taken out.new) (O.faults out.old) (O.faults out.new))
        (writing (E.taken err.old) (E.taken err.new) (E.faults err.old) (E.faults err.new))
        result }
{
    match (text_for(alloc, &verdict), line_for(alloc, &verdict)) {
        (Ok(text), Ok(line)) => send(&verdict, text.as_slice(), line.as_slice(), out, err),
        _ => send(&Verdict::NoMemory, b"", b"upc: no memory\n", out, err),
    }
}

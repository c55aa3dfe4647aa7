//! How a verdict is written.

ghost use Rattle.std.specs.Prelude.{◌≡◌, ◌<◌, ◌^◌, None, IfOk, IfSome, length};
ghost use Rattle.upc_top.specs.Verdicts;
ghost use Rattle.upc_top.specs.Verdicts.{text_of, line_of, refusal_of, journal_of, orders_in, replica_of};
ghost use Rattle.upc_top.specs.Verdicts.{without_memory, IsWritable};
ghost use Rattle.upc_top.specs.Delivery.{writing, Delivered, Delivers};

use crate::done::Done;
use crate::verdict::Verdict;
use race_report_text::report_text;
use run_recorder_text::render;
use std::alloc::{AllocError as OutOfMemory, Global};
use upc_text::{Sink, put_all};
use upc_top_judging::{judgment_line, judgment_status, judgment_text};
use upc_top_output::layout::layout_text;
use upc_top_output::status::status_of;
use upc_top_output::text::{events_text, output_text, refusal_text, run_text};

fn text_for(alloc: Global, verdict: &Verdict) -> Result<Vec<u8>, OutOfMemory>
    requires { IsWritable verdict.now }
    ensures { IfOk result (λ text. text.items ≡ text_of verdict.now) }
{
    match verdict {
        Verdict::Ran(journal) => output_text(alloc, &journal.history),
        Verdict::Recorded(journal, orders) => render(alloc, journal, orders),
        Verdict::Raced(_, report) => report_text(alloc, report),
        Verdict::Replicated(journal) => events_text(alloc, &journal.events),
        Verdict::Judged(judgment) => judgment_text(alloc, *judgment),
        Verdict::Passed => Vec::from_slice(alloc, b"ok\n"),
        Verdict::Laid(program) => layout_text(alloc, program),
        _ => Ok(Vec::new(alloc)),
    }
}

fn line_for(alloc: Global, verdict: &Verdict) -> Result<Vec<u8>, OutOfMemory>
    requires few { IfSome (journal_of verdict.now) (λ j. length j.strands < 2 ^ 32) }
    requires few_copies { IfSome (replica_of verdict.now) (λ j. length j.strands < 2 ^ 32) }
    ensures { IfOk result (λ line. line.items ≡ line_of verdict.now) }
{
    match verdict {
        Verdict::Usage => Vec::from_slice(alloc, b"upc: usage\n"),
        Verdict::ReadFault => Vec::from_slice(alloc, b"upc: read fault\n"),
        Verdict::TooLong => Vec::from_slice(alloc, b"upc: source too long\n"),
        Verdict::Refused(refusal) => refusal_text(alloc, *refusal),
        Verdict::Ran(journal) => run_text(alloc, journal.strands.as_slice()),
        Verdict::Recorded(journal, _) => run_text(alloc, journal.strands.as_slice()),
        Verdict::Raced(journal, _) => run_text(alloc, journal.strands.as_slice()),
        Verdict::Replicated(journal) => run_text(alloc, journal.strands.as_slice()),
        Verdict::Judged(judgment) => judgment_line(alloc, *judgment),
        Verdict::Overlong(_) => Vec::from_slice(alloc, b"upc: too long for a text\n"),
        Verdict::Passed | Verdict::Laid(_) => Ok(Vec::new(alloc)),
        Verdict::NoMemory(_) | Verdict::Unwritten(_) => {
            Vec::from_slice(alloc, b"upc: no memory\n")
        }
    }
}

// The status of a verdict that was written whole.
fn status_for(verdict: &Verdict) -> u8
    requires few { IfSome (journal_of verdict.now) (λ j. length j.strands < 2 ^ 32) }
    requires few_copies { IfSome (replica_of verdict.now) (λ j. length j.strands < 2 ^ 32) }
    ensures { result ≡ Verdicts.status_for verdict.now }
{
    match verdict {
        Verdict::Usage => 100,
        Verdict::ReadFault => 102,
        Verdict::TooLong => 110,
        Verdict::Refused(_) => 101,
        Verdict::Ran(journal) => status_of(journal.strands.as_slice()),
        Verdict::Recorded(journal, _) => status_of(journal.strands.as_slice()),
        Verdict::Raced(journal, _) => status_of(journal.strands.as_slice()),
        Verdict::Replicated(journal) => status_of(journal.strands.as_slice()),
        Verdict::Judged(judgment) => judgment_status(*judgment),
        Verdict::Overlong(_) => 109,
        Verdict::Passed | Verdict::Laid(_) => 0,
        Verdict::NoMemory(_) | Verdict::Unwritten(_) => 104,
    }
}

// What is handed out of a verdict, with this status.
fn done(verdict: Verdict, status: u8) -> Done
    ensures status { result.status ≡ status }
    ensures refusal { result.refusal ≡ refusal_of verdict }
    ensures journal { result.journal ≡ journal_of verdict }
    ensures orders { result.orders ≡ orders_in verdict }
    ensures replica { result.replica ≡ replica_of verdict }
{
    let (refusal, journal, orders, replica) = match verdict {
        Verdict::Refused(refusal) => (Some(refusal), None, None, None),
        Verdict::Ran(journal) | Verdict::Overlong(journal) => (None, Some(journal), None, None),
        Verdict::Recorded(journal, orders) => (None, Some(journal), Some(orders), None),
        Verdict::Raced(journal, _report) => (None, Some(journal), None, None),
        Verdict::Replicated(journal) => (None, None, None, Some(journal)),
        Verdict::Unwritten(journal) => (None, None, None, Some(journal)),
        Verdict::NoMemory(journal) => (None, journal, None, None),
        Verdict::Laid(_program) => (None, None, None, None),
        _ => (None, None, None, None),
    };
    Done {
        status,
        refusal,
        journal,
        orders,
        replica,
    }
}

// The text, and then the line.
fn send<O: Sink, E: Sink>(
    verdict: &Verdict,
    text: &[u8],
    line: &[u8],
    out: &mut O,
    err: &mut E,
) -> u8
    requires few { IfSome (journal_of verdict.now) (λ j. length j.strands < 2 ^ 32) }
    requires few_copies { IfSome (replica_of verdict.now) (λ j. length j.strands < 2 ^ 32) }
    requires text { text.now ≡ text_of verdict.now }
    requires line { line.now ≡ line_of verdict.now }
    ensures { Delivered verdict.now
        (writing (O.taken out.old) (O.taken out.new) (O.faults out.old) (O.faults out.new))
        (writing (E.taken err.old) (E.taken err.new) (E.faults err.old) (E.faults err.new))
        result }
{
    if put_all(out, text).is_err() {
        return 103;
    }
    if put_all(err, line).is_err() {
        return 103;
    }
    status_for(verdict)
}

fn without_memory(verdict: Verdict) -> Verdict
    ensures { result ≡ without_memory verdict }
{
    match verdict {
        Verdict::Ran(journal) => Verdict::NoMemory(Some(journal)),
        Verdict::Recorded(journal, _) => Verdict::NoMemory(Some(journal)),
        Verdict::Raced(journal, _) => Verdict::NoMemory(Some(journal)),
        Verdict::Overlong(journal) => Verdict::NoMemory(Some(journal)),
        Verdict::Replicated(journal) => Verdict::Unwritten(journal),
        Verdict::Unwritten(journal) => Verdict::Unwritten(journal),
        Verdict::NoMemory(journal) => Verdict::NoMemory(journal),
        _ => Verdict::NoMemory(None),
    }
}

/// Writes what a verdict says. Where memory is wanting for it, that is the verdict.
pub fn deliver<O: Sink, E: Sink>(alloc: Global, verdict: Verdict, out: &mut O, err: &mut E) -> Done
    requires few { IfSome (journal_of verdict) (λ j. length j.strands < 2 ^ 32) }
    requires few_copies { IfSome (replica_of verdict) (λ j. length j.strands < 2 ^ 32) }
    requires writable { IsWritable verdict }
    ensures delivers { Delivers verdict
        (writing (O.taken out.old) (O.taken out.new) (O.faults out.old) (O.faults out.new))
        (writing (E.taken err.old) (E.taken err.new) (E.faults err.old) (E.faults err.new))
        result }
{
    match (text_for(alloc, &verdict), line_for(alloc, &verdict)) {
        (Ok(text), Ok(line)) => {
            let status = send(&verdict, text.as_slice(), line.as_slice(), out, err);
            done(verdict, status)
        }
        _ => {
            let verdict = without_memory(verdict);
            let status = send(&verdict, &[], b"upc: no memory\n", out, err);
            done(verdict, status)
        }
    }
}

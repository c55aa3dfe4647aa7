//! A run, from its text.

ghost use Rattle.std.specs.Prelude.{ℕ, ◌≡◌, ◌≢◌, IfOk, IfErr, MatchResult};
ghost use Rattle.upc_values.specs.declared.journal.Journal.{Journal};
ghost use Rattle.upc_values.specs.declared.order.Orders.{Orders};
ghost use Rattle.run_recorder.specs.Recorded.{IsRecordable, IsTextOf, IsNoText, OneRunEachText};
ghost use Rattle.run_recorder_parts.specs.layer.Readers.{Gives, Reads, same, texts};
ghost use Rattle.run_recorder.specs.code.Whole as reader;
ghost use Rattle.run_recorder.specs.code.Told.{Tells};
ghost use Rattle.run_recorder.specs.declared.fail.ReadRecord.TheVariants.{Memory};

use crate::entries::entries;
use crate::fail::ReadRecord;
use run_recorder_parts::{Fail, Head, Name, Parts, expect, many, read_head, section, split};
use run_recorder_text::is_short;
use std::alloc::Global;
use upc_text::Place;
use upc_values::{Entries, Journal, Listing, Op, Order, Orders, Strand};

// The version, and the run of these numbers, strands and entries with these orders, where it is short.
fn short_run(
    head: Head,
    strands: Vec<Strand>,
    history: Entries,
    strict: Vec<Op>,
    threads: Vec<Order>,
) -> Result<(u8, Journal, Orders), Fail>
    ensures { Gives same result (reader.short_run_of head strands.items history
        strict.items threads.items) }
{
    let journal = Journal {
        threads: head.limits.threads,
        budget: head.limits.budget,
        actions: head.limits.actions,
        strands: Listing::from_vec(strands),
        history,
    };
    let orders = Orders {
        strict: Listing::from_vec(strict),
        threads: Listing::from_vec(threads),
    };
    if is_short(&journal) {
        Ok((head.version, journal, orders))
    } else {
        Err(Fail::Bad)
    }
}

fn run_of_lines(alloc: Global, lines: &mut Parts<'_, '_>) -> Result<(u8, Journal, Orders), Fail>
    ensures { Reads same (reader.run_of_lines (texts lines.old.rest.now)) result
        (texts lines.new.rest.now) }
{
    let head = read_head(alloc, lines)?;
    let strands = many(alloc, u64::from(head.limits.threads), lines)?;
    let names: Vec<Name> = section(alloc, "history", lines)?;
    let strict = section(alloc, "strict", lines)?;
    let threads = many(alloc, u64::from(head.limits.threads), lines)?;
    expect(lines, "end")?;
    expect(lines, "")?;
    let history = entries(alloc, strands.as_slice(), names.as_slice())?;
    short_run(head, strands, history, strict, threads)
}

// The beginning of the last of so many lines.
fn place_of(lines: usize) -> Place {
    Place {
        line: u32::try_from(lines).unwrap_or(u32::MAX),
        column: 1,
    }
}

fn run_of(alloc: Global, bytes: &[u8]) -> Result<(u8, Journal, Orders), ReadRecord>
    ensures { Tells result (reader.run_of bytes.now) }
{
    let all = split(alloc, bytes, b'\n')?;
    let mut lines = Parts { rest: &all };
    let read = run_of_lines(alloc, &mut lines);
    let place = place_of(all.len().saturating_sub(lines.rest.len()));
    match read {
        Ok(run) => {
            if lines.end() {
                Ok(run)
            } else {
                Err(ReadRecord::Bad(place))
            }
        }
        Err(Fail::Bad) => Err(ReadRecord::Bad(place)),
        Err(Fail::Memory) => Err(ReadRecord::Memory),
    }
}

/// The version of the text, 1 or 2, with the journal and the orders that have it. An old text is read, not judged:
/// whether its history follows a write buffer is not asked. It is one pass, in time linear in the bytes. Where no run
/// has the text in either version, the place is the beginning of the first line at which that shows, or of the last
/// line.
pub fn read_record(alloc: Global, bytes: &[u8]) -> Result<(u8, Journal, Orders), ReadRecord>
    ensures found { IfOk result (λ run. IsRecordable run.1 run.2
        × IsTextOf run.0 bytes.now run.1 run.2) }
    ensures bad { IfErr result (λ e. e ≢ Memory → IsNoText bytes.now) }
    ensures only { (version : ℕ) (j : Journal) (o : Orders) → IsRecordable j o
        → IsTextOf version bytes.now j o
        → MatchResult result (λ run. run ≡ (version, j, o)) (λ e. e ≡ Memory) }
{
    run_of(alloc, bytes)
}

/// A law: equal texts of one version have equal journals and orders, and no text is of both versions.
pub fn one_run_each_text()
    ensures { OneRunEachText }
{}

//! A walk over a thread's items, with its write buffer and the operations that stand in the place of each commit.

ghost use Rattle.std.specs.Prelude.{◌≡◌, ◌<◌, length, map, OnOk, IfOk, IfSome, IsNone};
ghost use Rattle.upc_values.specs.Drain as drain;
ghost use Rattle.upc_values.specs.Drain.{last_written, pending_value};
ghost use Rattle.upc_values.specs.Operations.{accesses};
ghost use Rattle.order_builder.specs.layer.Commits.{named};
ghost use Rattle.order_builder.specs.code.Views.{entry_in, by_names, kept, kept_entries};
ghost use Rattle.order_builder.specs.code.Views.{IsShown, IsAfter, IsLast, IsChangedAt};
ghost use Rattle.order_builder.specs.code.Views.{joined, combined, counted, noted};

use crate::accesses::names_of;
use crate::emitted::Emitted;
use crate::entry::{EntryRef, KeptCommit};
use crate::names::{Named, Names};
use crate::written::{is_done, is_value, written};
use block_layout::limits;
use std::alloc::Global;
use std::collections::VecDeque;
use upc_text::OutOfMemory;
use upc_values::{Action, Item, Loc, Scalar};

/// A walk over a thread's items: the number of the next action, what was emitted, the pending relaxed writes, oldest
/// first, and whether each relaxed write is Done and each read of a pending write has had its value.
#[derive(Drop)]
pub struct Walk<'a> {
    pub next: u32,
    pub emitted: Emitted<'a>,
    pub pending: VecDeque<KeptCommit<'a>>,
    pub agrees: bool,
}

// The place of the pending write of the location and its value, looking back from the youngest.
fn find(pending: &VecDeque<KeptCommit>, loc: Loc) -> Option<(usize, Scalar)>
    ensures none { IsNone result → last_written loc (kept_entries pending.now.items) ≡ None }
    ensures last { IfSome result (λ found. IsLast loc (kept_entries pending.now.items) found.0 found.1) }
{
    for at in (0..pending.len()).rev() {
        if let Some(value) = written(loc, pending[at].entry.action) {
            return Some((at, value));
        }
    }
    None
}

// The names of the operations of an entry's own action.
fn own_names(alloc: Global, latest: EntryRef) -> Result<Names, OutOfMemory>
    ensures { IfOk result (λ names. names ≡ map named (accesses (entry_in latest.entry))) }
{
    names_of(
        alloc,
        latest.thread,
        latest.index,
        latest.action,
        &latest.reply,
    )
}

// An entry with its own operations.
fn commit_of<'a>(alloc: Global, latest: EntryRef<'a>) -> Result<KeptCommit<'a>, OutOfMemory>
    ensures { IfOk result (λ commit. kept commit ≡ by_names (drain.commit_of (entry_in latest.entry))) }
{
    Ok(KeptCommit {
        entry: latest,
        names: own_names(alloc, latest)?,
    })
}

// Names of operations stand with the commit there.
fn join(pending: &mut VecDeque<KeptCommit>, at: usize, names: &[Named]) -> Result<(), OutOfMemory>
    requires { at < length pending.old.items }
    ensures { OnOk result (IsChangedAt at (joined names.now) pending.old.items pending.new.items) }
{
    pending[at].names.extend(names)
}

// The commit there is combined into that of this entry, whose operations have these names.
fn combine<'a>(
    pending: &mut VecDeque<KeptCommit<'a>>,
    at: usize,
    latest: EntryRef<'a>,
    names: &[Named],
) -> Result<(), OutOfMemory>
    requires { at < length pending.old.items }
    ensures { OnOk result (IsChangedAt at (combined latest.entry names.now) pending.old.items pending.new.items) }
{
    let there = &mut pending[at];
    there.entry = latest;
    there.names.extend(names)
}

impl<'a> Walk<'a> {
    /// Before the first item.
    pub fn new(alloc: Global) -> Walk<'a>
        ensures { IsShown drain.start result }
    {
        Walk {
            next: 0,
            emitted: Emitted::new(alloc),
            pending: VecDeque::new(alloc),
            agrees: true,
        }
    }

    /// All pending writes are emitted, in order.
    pub fn empty(&mut self) -> Result<(), OutOfMemory>
        ensures { OnOk result (IsAfter drain.emptied self.old self.new) }
    {
        while let Some(oldest) = self.pending.pop_front() {
            self.emitted.push(oldest)?;
        }
        Ok(())
    }

    // The oldest pending write is emitted.
    fn release(&mut self) -> Result<(), OutOfMemory>
        ensures { OnOk result (IsAfter (λ w. drain.oldest_out w.pending w) self.old self.new) }
    {
        if let Some(oldest) = self.pending.pop_front() {
            self.emitted.push(oldest)?;
        }
        Ok(())
    }

    // If 64 are pending, the oldest is emitted.
    fn make_room(&mut self) -> Result<(), OutOfMemory>
        ensures { OnOk result (IsAfter drain.with_room self.old self.new) }
    {
        if self.pending.len() >= limits::PENDING_WRITES as usize {
            self.release()?;
        }
        Ok(())
    }

    // One more action has its number, where another number is left.
    fn count(&mut self) -> Result<(), OutOfMemory>
        ensures { OnOk result (self.new ≡ counted self.old) }
    {
        match self.next.checked_add(1) {
            Some(next) => {
                self.next = next;
                Ok(())
            }
            None => Err(OutOfMemory),
        }
    }

    // Whether one more reply is as it must be.
    fn note(&mut self, agrees: bool)
        ensures { self.new ≡ noted agrees self.old }
    {
        self.agrees = self.agrees && agrees;
    }

    // The entry itself is emitted.
    fn pass(&mut self, alloc: Global, latest: EntryRef<'a>) -> Result<(), OutOfMemory>
        ensures { OnOk result (IsAfter (drain.passed (entry_in latest.entry)) self.old self.new) }
    {
        self.emitted.push(commit_of(alloc, latest)?)?;
        self.count()
    }

    // All pending writes are emitted, then the entry itself.
    fn pass_last(&mut self, alloc: Global, latest: EntryRef<'a>) -> Result<(), OutOfMemory>
        ensures { OnOk result (IsAfter (λ w. drain.passed (entry_in latest.entry) (drain.emptied w))
            self.old self.new) }
    {
        self.empty()?;
        self.pass(alloc, latest)
    }

    // The write becomes pending, as the last.
    fn store(&mut self, alloc: Global, latest: EntryRef<'a>) -> Result<(), OutOfMemory>
        ensures { OnOk result (IsAfter (drain.stored (entry_in latest.entry)) self.old self.new) }
    {
        self.pending.push_back(commit_of(alloc, latest)?)?;
        self.note(is_done(*latest.reply));
        self.count()
    }

    // A relaxed write of the location: where a write of it is pending, that one is combined into it; else it becomes
    // pending, as the last, and of 64 the oldest is emitted.
    fn put(&mut self, alloc: Global, loc: Loc, latest: EntryRef<'a>) -> Result<(), OutOfMemory>
        ensures { OnOk result (IsAfter
            (λ w. drain.put_pending loc (entry_in latest.entry) (pending_value loc w.pending) w) self.old self.new) }
    {
        match find(&self.pending, loc) {
            Some((at, _)) => {
                let names = own_names(alloc, latest)?;
                combine(&mut self.pending, at, latest, names.as_slice())?;
                self.note(is_done(*latest.reply));
                self.count()
            }
            None => {
                self.make_room()?;
                self.store(alloc, latest)
            }
        }
    }

    // A relaxed read of the location: where a write of it is pending, that one answers it; else the read is emitted.
    fn look_up(&mut self, alloc: Global, loc: Loc, latest: EntryRef<'a>) -> Result<(), OutOfMemory>
        ensures { OnOk result (IsAfter
            (λ w. drain.looked_up loc (entry_in latest.entry) (pending_value loc w.pending) w) self.old self.new) }
    {
        match find(&self.pending, loc) {
            Some((at, value)) => {
                let names = own_names(alloc, latest)?;
                join(&mut self.pending, at, names.as_slice())?;
                self.note(is_value(value, *latest.reply));
                self.count()
            }
            None => self.pass(alloc, latest),
        }
    }

    // One more action.
    fn go(&mut self, alloc: Global, latest: EntryRef<'a>) -> Result<(), OutOfMemory>
        ensures { OnOk result (IsAfter (drain.gone (entry_in latest.entry) latest.entry.action.now) self.old self.new) }
    {
        match latest.action {
            Action::Write {
                loc,
                strict: false,
                ..
            } => self.put(alloc, *loc, latest),
            Action::Read { loc, strict: false } => self.look_up(alloc, *loc, latest),
            Action::Print(_) => self.pass(alloc, latest),
            _ => self.pass_last(alloc, latest),
        }
    }

    /// The next item of the thread.
    pub fn step(&mut self, alloc: Global, thread: u32, item: &'a Item) -> Result<(), OutOfMemory>
        ensures { OnOk result (IsAfter (λ w. drain.stepped thread w item.now) self.old self.new) }
    {
        match item {
            Item::Stall => self.empty(),
            Item::Did(action, reply) => {
                let latest = EntryRef {
                    thread,
                    index: self.next,
                    action,
                    reply,
                };
                self.go(alloc, latest)
            }
        }
    }
}

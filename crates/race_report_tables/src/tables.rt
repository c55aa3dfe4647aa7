//! The clocks of threads and channels, entry by entry.

ghost use Rattle.std.specs.Prelude.{◌≡◌, ℕ, ◌<◌, [], ◌∷◌, ◌++◌, List, length, slice_index_or, IfOk, OnOk};
ghost use Rattle.upc_values.specs.declared.journal.Entry.{Entry};
ghost use Rattle.upc_values.specs.History as history;
ghost use Rattle.race_report_tables.specs.layer.Tables.{AreClocks, IsReady};

use crate::channels::{Channels, hear_at, raise_at, tell_over};
use crate::counts::count;
use crate::row::Row;
use race_report_clocks::{hearing, telling};
use std::alloc::Global;
use upc_text::OutOfMemory;
use upc_values::{Action, Entry};

/// What each thread and each channel knows of each thread after some entries of a history, and how often each thread
/// has notified and waited.
#[derive(Drop)]
pub struct Tables {
    pub known: Vec<Row>,
    pub channels: Channels,
    pub notified: Vec<u32>,
    pub waited: Vec<u32>,
}

// Whether the action is a notify.
fn is_notify(action: &Action) -> bool
    ensures { result ≡ history.is_notify action.now }
{
    matches!(action, Action::Notify(_))
}

// Whether the action is a wait.
fn is_wait(action: &Action) -> bool
    ensures { result ≡ history.is_wait action.now }
{
    matches!(action, Action::Wait(_))
}

// A row for each of so many threads, in which each number is 0.
fn empty_rows(alloc: Global, threads: u32) -> Result<Vec<Row>, OutOfMemory>
    ensures many { IfOk result (λ rows. length rows.items ≡ threads) }
    ensures empty { IfOk result (λ rows. (t : ℕ) → slice_index_or rows.items t [] ≡ []) }
{
    let mut rows = Vec::new(alloc);
    for _thread in 0..threads {
        rows.push(Row::new(alloc))?;
    }
    Ok(rows)
}

impl Tables {
    /// Those before the first entry, for so many threads.
    pub fn new(alloc: Global, threads: u32) -> Result<Tables, OutOfMemory>
        ensures { IfOk result (λ tables. AreClocks threads [] tables) }
    {
        Ok(Tables {
            known: empty_rows(alloc, threads)?,
            channels: Channels::new(alloc),
            notified: vec![in alloc; 0; threads as usize]?,
            waited: vec![in alloc; 0; threads as usize]?,
        })
    }

    /// Those after one more entry: its thread hears what was told over the channel that it goes on by, and tells all
    /// that it knows over the one by which it lets others go on.
    pub fn step(&mut self, alloc: Global, entry: &Entry) -> Result<(), OutOfMemory>
        requires { IsReady entry.now.thread self.old }
        ensures many { OnOk result (length self.new.known.items ≡ length self.old.known.items) }
        ensures clocks { OnOk result ((n : ℕ) (before : List Entry) →
            AreClocks n before self.old → AreClocks n (before ++ entry.now ∷ []) self.new) }
    {
        let thread = entry.thread as usize;
        let heard = hearing(self.waited[thread], &entry.action, &entry.reply);
        let told = telling(self.notified[thread], &entry.action, &entry.reply);
        hear_at(&mut self.known, thread, &self.channels, heard)?;
        raise_at(&mut self.known, thread, entry.index, told)?;
        tell_over(&mut self.channels, alloc, told, &self.known[thread])?;
        count(&mut self.notified, thread, is_notify(&entry.action))?;
        count(&mut self.waited, thread, is_wait(&entry.action))?;
        Ok(())
    }

    /// What a thread knows.
    pub fn of(&self, thread: u32) -> &Row
        requires { thread < length self.now.known.items }
        ensures { result.now ≡ slice_index_or self.now.known.items thread [] }
    {
        &self.known[thread as usize]
    }
}

//! Sources and sinks in memory, whose calls fail where it was said.
ghost use Rattle.std.specs.Prelude.{◌≡◌, ◌<◌, ◌≤◌, ◌↔◌, ◌⊎◌, [], ◌∷◌, ◌++◌, length, take, drop, min, Some, Contains};
ghost use Rattle.std.specs.Prelude.{IfOk, OnOk, OnErr, IsErr, IsNone, IfSome};
ghost use Rattle.std.specs.Option.{option_copied};
ghost use Rattle.upc_text.specs.Outside.{StandsAt, EndsBy};
ghost use Rattle.upc_text.specs.code.Memory.{held_under, one_more, given};

use crate::{Failed, OutOfMemory, Sink, Sources, Text};
use std::alloc::Global;
use std::marker::Model;

// The bytes of the first file with this name.
pub(crate) fn held_under<'a>(files: &'a [(Text, Text)], name: &str) -> Option<&'a [u8]>
    ensures { option_copied result ≡ held_under files.now name.now }
{
    files
        .iter()
        .find(|file| file.0.as_slice() == name.as_bytes())
        .map(|file| file.1.as_slice())
}

// Adds a file under a new name.
#[tactic(auto, using(crate::proofs::Held::held_under_added))]
pub(crate) fn push_file(
    files: &mut Vec<(Text, Text)>,
    name: &str,
    bytes: &[u8],
) -> Result<(), OutOfMemory>
    requires { IsNone (held_under files.old.items name.now) }
    ensures ok { OnOk result (files.new.items ≡ files.old.items ++ (name.now, bytes.now) ∷ []) }
    ensures err { OnErr result (files.new.items ≡ files.old.items) }
    ensures told { OnOk result (held_under files.new.items name.now ≡ Some bytes.now) }
{
    let alloc = *files.allocator();
    let name = Text::from_slice(alloc, name.as_bytes())?;
    let bytes = Text::from_slice(alloc, bytes)?;
    files.push((name, bytes))?;
    Ok(())
}

// Copies bytes from the place on to the front of the buffer, and gives how many.
pub(crate) fn copy_from(bytes: &[u8], at: u64, buf: &mut [u8], most: usize) -> usize
    ensures count { result ≡ given bytes.now at (length buf.old) most }
    ensures placed { take result buf.new ≡ take result (drop at bytes.now) }
{
    let start = bytes.len().min(at as usize);
    let rest = &bytes[start..];
    let count = buf.len().min(most).min(rest.len());
    buf[..count].copy_from_slice(&rest[..count]);
    count
}

/// Files in memory. Some of the calls fail, and no call gives more than so many bytes.
#[derive(Debug, Drop)]
pub struct MemFiles {
    files: Vec<(Text, Text)>,
    failing: Vec<u64>,
    at_most: usize,
    count: u64,
    fault_count: u64,
}

impl Model for MemFiles {
    ghost use Rattle.std.specs.Prelude.{◌<◌};
    ghost use Rattle.upc_text.specs.code.Memory.{Files};

    ghost Value = { Files };

    ghost view = { λ s. record {
      held = s.files.items;
      fails = s.failing.items;
      most = s.at_most;
      calls = s.count;
      faults = s.fault_count;
    } };

    ghost invariant = { λ s. 0 < s.at_most };
}

impl MemFiles {
    /// No file. The calls of `read_at` are counted from 1, and those whose number is in `fails` fail. No call
    /// gives more than `most` bytes.
    pub fn make(alloc: Global, fails: &[u64], most: usize) -> Result<MemFiles, OutOfMemory>
        requires { 0 < most }
        ensures { IfOk result (λ files. files ≡ record {
          held = [];
          fails = fails.now;
          most = most;
          calls = 0;
          faults = 0;
        }) }
    {
        Ok(MemFiles {
            files: Vec::new(alloc),
            failing: Vec::from_slice(alloc, fails)?,
            at_most: most,
            count: 0,
            fault_count: 0,
        })
    }

    /// Adds a file. The name was not added before. After want of memory nothing is added.
    pub fn add(&mut self, name: &str, bytes: &[u8]) -> Result<(), OutOfMemory>
        requires { IsNone (held_under self.old.held name.now) }
        ensures ok { OnOk result (self.new ≡ record self.old {
          held = self.old.held ++ (name.now, bytes.now) ∷ [];
        }) }
        ensures err { OnErr result (self.new ≡ self.old) }
        ensures told { OnOk result (held_under self.new.held name.now ≡ Some bytes.now) }
    {
        push_file(&mut self.files, name, bytes)
    }
}

impl Sources for MemFiles {
    ghost bytes_of = { λ s name. held_under s.held name };

    ghost faults = { λ s _. s.faults };

    fn read_at(&mut self, name: &str, at: u64, buf: &mut [u8]) -> Result<usize, Failed>
        requires { 0 < length buf.old }
        ensures bound { IfOk result (λ n. n ≤ length buf.new) }
        ensures placed { IfOk result (λ n. StandsAt (held_under self.old.held name.now) at (take n buf.new)) }
        ensures end { IfOk result (λ n. n ≡ 0 → EndsBy (held_under self.old.held name.now) at) }
        ensures counts { self.old.faults ≤ self.new.faults }
        ensures fails { IsErr result ↔ (Contains self.old.fails (one_more self.old.calls)
            ⊎ IsNone (held_under self.old.held name.now)) }
        ensures given { IfOk result (λ n. IfSome (held_under self.old.held name.now)
            (λ bytes. n ≡ given bytes at (length buf.old) self.old.most)) }
        ensures ok { OnOk result (self.new ≡ record self.old { calls = one_more self.old.calls }) }
        ensures err { OnErr result (self.new ≡ record self.old {
          calls = one_more self.old.calls;
          faults = one_more self.old.faults;
        }) }
    {
        self.count = self.count.saturating_add(1);
        match held_under(self.files.as_slice(), name) {
            Some(bytes) if !self.failing.contains(&self.count) => {
                Ok(copy_from(bytes, at, buf, self.at_most))
            }
            _ => {
                self.fault_count = self.fault_count.saturating_add(1);
                Err(Failed)
            }
        }
    }
}

/// A sink in memory, which keeps what it takes. Some of the calls fail, and no call takes more than so many bytes.
#[derive(Debug, Drop)]
pub struct MemSink {
    kept: Vec<u8>,
    failing: Vec<u64>,
    at_most: usize,
    count: u64,
    fault_count: u64,
}

impl Model for MemSink {
    ghost use Rattle.std.specs.Prelude.{◌<◌};
    ghost use Rattle.upc_text.specs.code.Memory.{Output};

    ghost Value = { Output };

    ghost view = { λ s. record {
      bytes = s.kept.items;
      fails = s.failing.items;
      most = s.at_most;
      calls = s.count;
      faults = s.fault_count;
    } };

    ghost invariant = { λ s. 0 < s.at_most };
}

impl MemSink {
    /// Nothing is taken. The calls of `put` are counted from 1, and those whose number is in `fails` fail. No call
    /// takes more than `most` bytes. A call that finds no memory fails too.
    pub fn make(alloc: Global, fails: &[u64], most: usize) -> Result<MemSink, OutOfMemory>
        requires { 0 < most }
        ensures { IfOk result (λ sink. sink ≡ record {
          bytes = [];
          fails = fails.now;
          most = most;
          calls = 0;
          faults = 0;
        }) }
    {
        Ok(MemSink {
            kept: Vec::new(alloc),
            failing: Vec::from_slice(alloc, fails)?,
            at_most: most,
            count: 0,
            fault_count: 0,
        })
    }

    /// Lends the bytes taken.
    pub fn taken(&self) -> &[u8]
        ensures { result.now ≡ self.now.bytes }
    {
        self.kept.as_slice()
    }
}

impl Sink for MemSink {
    ghost taken = { λ s. Some s.bytes };

    ghost faults = { λ s. s.faults };

    fn put(&mut self, piece: &[u8]) -> Result<usize, Failed>
        requires { 0 < length piece.now }
        ensures least { IfOk result (λ n. 0 < n) }
        ensures counts { self.old.faults ≤ self.new.faults }
        ensures fails { Contains self.old.fails (one_more self.old.calls) → IsErr result }
        ensures given { IfOk result (λ n. n ≡ min (length piece.now) self.old.most) }
        ensures ok { IfOk result (λ n. self.new ≡ record self.old {
          bytes = self.old.bytes ++ take n piece.now;
          calls = one_more self.old.calls;
        }) }
        ensures err { OnErr result (self.new ≡ record self.old {
          calls = one_more self.old.calls;
          faults = one_more self.old.faults;
        }) }
    {
        self.count = self.count.saturating_add(1);
        let count = piece.len().min(self.at_most);
        if self.failing.contains(&self.count)
            || self.kept.extend_from_slice(&piece[..count]).is_err()
        {
            self.fault_count = self.fault_count.saturating_add(1);
            return Err(Failed);
        }
        Ok(count)
    }
}

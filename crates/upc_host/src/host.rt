//! The outside itself: files by name, and an output. Each counts its failures, and what it holds is not known.

ghost use Rattle.std.specs.Prelude.{◌≡◌, ◌≤◌, length, IfOk, None};

use std::fs::{self, Files};
use std::io::{self, Read, Seek, SeekFrom, Write};
use upc_text::{Failed, Sink, Sources};

// An open file, the word that names it, and the place of its next byte.
#[derive(Drop)]
struct Opened<'a, F> {
    name: &'a str,
    file: F,
    at: u64,
}

/// The files that words name; a read of any other name fails. The last file stays open from read to read. No read takes
/// memory.
#[derive(Drop)]
pub struct HostFiles<'a, R: Files> {
    rt: &'a R,
    words: &'a [String],
    opened: Option<Opened<'a, R::File>>,
    faults: u64,
}

impl<'a, R: Files> HostFiles<'a, R> {
    pub fn new(rt: &'a R, words: &'a [String]) -> Self {
        HostFiles {
            rt,
            words,
            opened: None,
            faults: 0,
        }
    }

    // The word that is this name.
    fn word(&self, name: &str) -> io::Result<&'a str> {
        for word in self.words {
            if word.as_str() == name {
                return Ok(word.as_str());
            }
        }
        Err(io::Error::from(io::ErrorKind::NotFound))
    }

    // Reads on from a place of the file of that name.
    fn read(&mut self, name: &str, at: u64, buf: &mut [u8]) -> io::Result<usize>
        ensures bound { IfOk result (λ n. n ≤ length buf.new) }
        ensures faults { self.new.faults ≡ self.old.faults }
    {
        let stands = matches!(&self.opened, Some(opened) if opened.name == name && opened.at == at);
        if !stands {
            let name = self.word(name)?;
            let mut file = fs::open(self.rt, name)?;
            if at > 0 {
                file.seek(SeekFrom::Start(at))?;
            }
            self.opened = Some(Opened { name, file, at });
        }
        match &mut self.opened {
            Some(opened) => {
                let count = opened.file.read(buf)?;
                opened.at = opened.at.saturating_add(count as u64);
                Ok(count)
            }
            None => Ok(0),
        }
    }
}

impl<R: Files> Sources for HostFiles<'_, R> {
    ghost bytes_of = { λ _ _. None };

    ghost faults = { λ s _. s.faults };

    fn read_at(&mut self, name: &str, at: u64, buf: &mut [u8]) -> Result<usize, Failed> {
        match self.read(name, at, buf) {
            Ok(count) => Ok(count),
            Err(_) => {
                self.opened = None;
                self.faults = self.faults.saturating_add(1);
                Err(Failed)
            }
        }
    }
}

/// An output. One that takes nothing of a piece has failed.
#[derive(Drop)]
pub struct HostSink<W> {
    output: W,
    faults: u64,
}

impl<W: Write> HostSink<W> {
    pub fn new(output: W) -> Self {
        HostSink { output, faults: 0 }
    }
}

impl<W: Write> Sink for HostSink<W> {
    ghost taken = { λ _. None };

    ghost faults = { λ s. s.faults };

    fn put(&mut self, piece: &[u8]) -> Result<usize, Failed> {
        match self.output.write(piece) {
            Ok(count) if count > 0 => Ok(count),
            _ => {
                self.faults = self.faults.saturating_add(1);
                Err(Failed)
            }
        }
    }
}

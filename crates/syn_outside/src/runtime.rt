// The real outside: the files of the current folder and standard output, each call one read or one
// write of the runtime. What they hold is not told, so the clauses are those on counts; that the
// runtime reads and writes what it says is trusted.
ghost use Rattle.std.specs.Prelude.{◌≡◌, ℕ, ◌<◌, ◌≤◌, Option, None, Ok, Err, IfOk, OnOk, OnErr, MatchOption, length};
ghost use Rattle.syn_outside.specs.Faults.{Faults, Rose, HasCause, UnlessFailed, raised};
ghost use Rattle.syn_outside.specs.Files.{File, Told, Gives, ReadsPart, MayBegin, Writes, WritesSome};
ghost use Rattle.syn_outside.specs.Texts.{Adds, PutsSome};
ghost use Rattle.syn_outside.specs.declared.traits.Trouble.{Trouble};

use crate::buffer::put_front;
use crate::traits::{Cabinet, Sink, Trouble};
use std::fs::{File, OpenFile, OpenOptions};
use std::io::{self, ErrorKind, Read, Seek, SeekFrom, Write};
use std::marker::Model;
use std::rt::Files;

/// The most bytes that one read takes.
const MOST_READ: usize = 4096;

/// The files of the current folder. A name is a path as the runtime takes it.
#[derive(Drop)]
pub struct FolderCabinet<'a, R> {
    rt: &'a R,
    read_faults: u64,
    write_faults: u64,
}

impl<'a, R> Model for FolderCabinet<'a, R> {
    ghost Value = { Faults };

    ghost view = { λ c. record { reads = c.read_faults; writes = c.write_faults } };
}

impl<'a, R: Files> FolderCabinet<'a, R> {
    /// The files that `rt` finds in the current folder, with no fault counted yet.
    pub fn new(rt: &'a R) -> FolderCabinet<'a, R>
        ensures { result ≡ record { reads = 0; writes = 0 } }
    {
        FolderCabinet {
            rt,
            read_faults: 0,
            write_faults: 0,
        }
    }

    fn read_once(&self, name: &str, at: u64, buf: &mut [u8]) -> io::Result<usize>
        ensures { IfOk result (λ k. k ≤ length buf.new) }
    {
        let mut file = File::open(self.rt, name)?;
        file.seek(SeekFrom::Start(at))?;
        file.read(buf)
    }

    // The runtime does not say that it leaves the rest of a buffer, so the bytes come into one here.
    fn read_part(&self, name: &str, at: u64, buf: &mut [u8]) -> io::Result<usize>
        ensures { IfOk result (ReadsPart None name.now at buf.old buf.new) }
    {
        let mut part = [0; MOST_READ];
        let most = buf.len().min(MOST_READ);
        let count = self.read_once(name, at, &mut part[..most])?;
        put_front(buf, &part[..count]);
        Ok(count)
    }

    // The file's old tail goes last, so that a write that fails leaves the file as it was.
    fn write_once(&self, name: &str, at: u64, piece: &[u8]) -> io::Result<usize>
        ensures within { IfOk result (λ k. k ≤ length piece.now) }
        ensures some { IfOk result (λ k. 0 < length piece.now → 0 < k) }
    {
        let mut how = OpenOptions::new();
        how.write(true).create(at == 0);
        let mut file = how.open(self.rt, name)?;
        file.seek(SeekFrom::Start(at))?;
        let count = file.write(piece)?;
        if count == 0 && !piece.is_empty() {
            // A write that moves nothing would be tried again without end.
            return Err(io::Error::from(ErrorKind::WriteZero));
        }
        let end = at.saturating_add(count as u64);
        if file.metadata()?.len() > end {
            file.set_len(end)?;
        }
        Ok(count)
    }
}

impl<'a, R: Files> Cabinet for FolderCabinet<'a, R> {
    ghost files = { λ c. None };

    ghost read_faults = { λ c. c.reads };

    ghost write_faults = { λ c. c.writes };

    fn read(&mut self, name: &str, at: u64, buf: &mut [u8]) -> Result<usize, Trouble>
        ensures bytes { IfOk result (ReadsPart None name.now at buf.old buf.new) }
        ensures later { self.old.reads ≤ self.new.reads }
        ensures writes { self.new.writes ≡ self.old.writes }
        ensures cause { result ≡ Err Trouble.Failed → HasCause self.old.reads self.new.reads None name.now }
        ensures quiet { UnlessFailed result (self.new.reads ≡ self.old.reads) }

        // Each error counts, and nothing else does.
        ensures well { OnOk result (self.new ≡ self.old) }
        ensures failed { OnErr result (result ≡ Err Trouble.Failed) }
        ensures counts { OnErr result (self.new ≡ record self.old { reads = raised self.old.reads }) }
    {
        match self.read_part(name, at, buf) {
            Ok(k) => Ok(k),
            Err(_) => {
                self.read_faults = self.read_faults.saturating_add(1);
                Err(Trouble::Failed)
            }
        }
    }

    fn write(&mut self, name: &str, at: u64, piece: &[u8]) -> Result<usize, Trouble>
        requires { MayBegin None name.now at }
        ensures files { IfOk result (WritesSome None None name.now at piece.now) }
        ensures later { self.old.writes ≤ self.new.writes }
        ensures reads { self.new.reads ≡ self.old.reads }
        ensures cause { result ≡ Err Trouble.Failed → Rose self.old.writes self.new.writes }
        ensures quiet { UnlessFailed result (self.new.writes ≡ self.old.writes) }

        // Each error counts, and nothing else does.
        ensures well { OnOk result (self.new ≡ self.old) }
        ensures failed { OnErr result (result ≡ Err Trouble.Failed) }
        ensures counts { OnErr result (self.new ≡ record self.old { writes = raised self.old.writes }) }
    {
        match self.write_once(name, at, piece) {
            Ok(k) => Ok(k),
            Err(_) => {
                self.write_faults = self.write_faults.saturating_add(1);
                Err(Trouble::Failed)
            }
        }
    }
}

/// Standard output.
#[derive(Drop)]
pub struct StdSink<'a, R> {
    rt: &'a R,
    faults: u64,
}

impl<'a, R> Model for StdSink<'a, R> {
    ghost Value = { ℕ };

    ghost view = { λ s. s.faults };
}

impl<'a, R: Print> StdSink<'a, R> {
    /// The standard output of `rt`, with no fault counted yet.
    pub fn new(rt: &'a R) -> StdSink<'a, R>
        ensures { result ≡ 0 }
    {
        StdSink { rt, faults: 0 }
    }
}

impl<'a, R: Print> Sink for StdSink<'a, R> {
    ghost text = { λ s. None };

    ghost faults = { λ s. s };

    fn put(&mut self, piece: &[u8]) -> Result<usize, Trouble>
        ensures text { IfOk result (PutsSome None None piece.now) }
        ensures later { self.old ≤ self.new }
        ensures cause { result ≡ Err Trouble.Failed → Rose self.old self.new }
        ensures quiet { UnlessFailed result (self.new ≡ self.old) }

        // Each error counts, and nothing else does.
        ensures well { OnOk result (self.new ≡ self.old) }
        ensures failed { OnErr result (result ≡ Err Trouble.Failed) }
        ensures counts { OnErr result (self.new ≡ raised self.old) }
    {
        match count_of(self.rt.write_some(piece), piece.len()) {
            Some(k) => Ok(k),
            None => {
                self.faults = self.faults.saturating_add(1);
                Err(Trouble::Failed)
            }
        }
    }
}

/// How many of `len` bytes a write moved. None where it failed, or moved nothing though there was
/// something to move: such a write would be tried again without end.
fn count_of(answer: io::Result<usize>, len: usize) -> Option<usize>
    ensures { MatchOption result ((k : ℕ) → answer ≡ Ok k → (k ≡ 0) × (0 < len)) (λ k. (answer ≡ Ok k) × (0 < len → 0 < k)) }
{
    match answer {
        Ok(k) if k > 0 || len == 0 => Some(k),
        _ => None,
    }
}

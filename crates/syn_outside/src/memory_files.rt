// Files in memory. Reads and writes are numbered together from 1 and fail where their number is
// listed, and each moves at most a step, so a test can bring about each outcome of a read and a
// write. A write makes the file's new bytes beside the old ones, so an error leaves all as it was.
ghost use Rattle.std.specs.Prelude.{◌≡◌, ◌≢◌, ℕ, ◌-◌, ◌<◌, ◌≤◌, ◌↔◌, ◌⊎◌, List, [], ◌∷◌, ◌++◌, Option, Some, None, Err, IfOk, OnOk, OnErr, MatchOption, IsTrue, true, false, length, take, drop, min, option_map};
ghost use Rattle.syn_outside.specs.Faults.{Rose, HasCause, UnlessFailed, raised};
ghost use Rattle.syn_outside.specs.Files.{File, file_of, bytes_of, HasDistinctNames, Gives, ReadsPart, MayBegin, written, WritesSome};
ghost use Rattle.syn_outside.specs.declared.traits.Trouble.{Trouble};
ghost use Rattle.syn_outside.specs.Memory.{MemoryFiles, all_seen, is_to_fail, read_count, after_read, after_write, after_writing};
ghost use Rattle.syn_outside.specs.inner.Places.{IsPlace};

use crate::buffer::put_front;
use crate::traits::{Cabinet, Trouble};
use std::alloc::AllocError;
use std::marker::Model;

/// Files in memory, with faults at will.
#[derive(Drop)]
pub struct MemCabinet {
    files: Vec<(String, Vec<u8>)>,
    step: usize,
    fail: Vec<u64>,
    calls: u64,
    read_faults: u64,
    write_faults: u64,
}

impl Model for MemCabinet {
    ghost Value = { MemoryFiles };

    ghost view = { λ c. record {
      files = all_seen c.files.items;
      step = c.step;
      fail = c.fail.items;
      calls = c.calls;
      read_faults = c.read_faults;
      write_faults = c.write_faults;
    } };

    ghost invariant = { λ c. 0 < c.step };
}

impl MemCabinet {
    /// These files, of which a call moves at most `step` bytes and the calls numbered in `fail`,
    /// from 1, fail. Reads and writes are numbered together.
    pub fn new(files: Vec<(String, Vec<u8>)>, step: usize, fail: Vec<u64>) -> MemCabinet
        requires step { 0 < step }
        requires names { HasDistinctNames (all_seen files.items) }
        ensures { result ≡ record {
          files = all_seen files.items;
          step = step;
          fail = fail.items;
          calls = 0;
          read_faults = 0;
          write_faults = 0;
        } }
    {
        MemCabinet {
            files,
            step,
            fail,
            calls: 0,
            read_faults: 0,
            write_faults: 0,
        }
    }

    /// The bytes of the file `name`, `None` exactly where it isn't there.
    pub fn file(&self, name: &str) -> Option<&[u8]>
        ensures { option_map (λ b. b.now) result ≡ file_of self.now.files name.now }
    {
        match place_of(&self.files, name) {
            None => None,
            Some(i) => Some(self.files[i].1.as_slice()),
        }
    }

    // Counts a call, and says whether it is one that fails.
    fn fails(&mut self) -> bool
        ensures answer { result ≡ is_to_fail self.old.fail self.old.calls }
        ensures counts { self.new ≡ record self.old { calls = raised self.old.calls } }
    {
        self.calls = self.calls.saturating_add(1);
        self.fail.contains(&self.calls)
    }
}

impl Cabinet for MemCabinet {
    ghost files = { λ c. Some c.files };

    ghost read_faults = { λ c. c.read_faults };

    ghost write_faults = { λ c. c.write_faults };

    fn read(&mut self, name: &str, at: u64, buf: &mut [u8]) -> Result<usize, Trouble>
        ensures bytes { IfOk result (ReadsPart (Some self.old.files) name.now at buf.old buf.new) }
        ensures files { Some self.new.files ≡ Some self.old.files }
        ensures later { self.old.read_faults ≤ self.new.read_faults }
        ensures writes { self.new.write_faults ≡ self.old.write_faults }
        ensures cause { result ≡ Err Trouble.Failed →
            HasCause self.old.read_faults self.new.read_faults (Some self.old.files) name.now }
        ensures quiet { UnlessFailed result (self.new.read_faults ≡ self.old.read_faults) }

        // Which reads fail, how many bytes move, and what stays.
        ensures moved { IfOk result (λ k. k ≡ read_count self.old name.now at (length buf.old)) }
        ensures after { self.new ≡ after_read self.old }
        ensures failed { OnErr result (result ≡ Err Trouble.Failed) }
        ensures fails { OnErr result
            (IsTrue (is_to_fail self.old.fail self.old.calls)
            ⊎ (file_of self.old.files name.now ≡ None)) }
        ensures well { OnOk result (is_to_fail self.old.fail self.old.calls ≡ false) }
    {
        if self.fails() {
            self.read_faults = self.read_faults.saturating_add(1);
            return Err(Trouble::Failed);
        }
        match self.file(name) {
            None => Err(Trouble::Failed),
            Some(bytes) => Ok(copy_part(bytes, at as usize, self.step, buf)),
        }
    }

    fn write(&mut self, name: &str, at: u64, piece: &[u8]) -> Result<usize, Trouble>
        requires { MayBegin (Some self.old.files) name.now at }
        ensures files { IfOk result
            (WritesSome (Some self.old.files) (Some self.new.files) name.now at piece.now) }
        ensures err { OnErr result (Some self.new.files ≡ Some self.old.files) }
        ensures later { self.old.write_faults ≤ self.new.write_faults }
        ensures reads { self.new.read_faults ≡ self.old.read_faults }
        ensures cause { result ≡ Err Trouble.Failed → Rose self.old.write_faults self.new.write_faults }
        ensures quiet { UnlessFailed result (self.new.write_faults ≡ self.old.write_faults) }

        // Which writes fail, how many bytes move, and what stays.
        ensures moved { IfOk result (λ k. k ≡ min self.old.step (length piece.now)) }
        ensures after { IfOk result (λ k. self.new ≡ after_writing self.old name.now at (take k piece.now)) }
        ensures stays { OnErr result (self.new ≡ after_write self.old) }
        ensures made { IfOk result
            (λ k. file_of self.new.files name.now
            ≡ Some (take at (bytes_of self.old.files name.now) ++ take k piece.now)) }
        ensures others { (other : List ℕ) → other ≢ name.now →
            file_of self.new.files other ≡ file_of self.old.files other }
        ensures failed { (result ≡ Err Trouble.Failed) ↔ IsTrue (is_to_fail self.old.fail self.old.calls) }
    {
        if self.fails() {
            self.write_faults = self.write_faults.saturating_add(1);
            return Err(Trouble::Failed);
        }
        let count = self.step.min(piece.len());
        match put_at(&mut self.files, name, at as usize, &piece[..count]) {
            Ok(()) => Ok(count),
            Err(_) => Err(Trouble::NoMemory),
        }
    }
}

// The place of the first file of a name.
fn place_of(files: &[(String, Vec<u8>)], name: &str) -> Option<usize>
    ensures { MatchOption result
        (file_of (all_seen files.now) name.now ≡ None)
        (IsPlace (all_seen files.now) name.now) }
{
    for (i, file) in files.iter().enumerate() {
        if file.0.as_str() == name {
            return Some(i);
        }
    }
    None
}

// Copies bytes from place `at` on, at most `step`, to the front of `buf`.
fn copy_part(bytes: &[u8], at: usize, step: usize, buf: &mut [u8]) -> usize
    requires { 0 < step }
    ensures gives { Gives at buf.new result bytes.now }
    ensures room { length buf.new ≡ length buf.old }
    ensures rest { drop result buf.new ≡ drop result buf.old }
    ensures count { result ≡ min step (min (length bytes.now - at) (length buf.old)) }
{
    let rest = &bytes[at.min(bytes.len())..];
    let count = step.min(rest.len().min(buf.len()));
    put_front(buf, &rest[..count]);
    count
}

// Makes the file of a name its first `at` bytes and then `piece`.
fn put_at(
    files: &mut Vec<(String, Vec<u8>)>,
    name: &str,
    at: usize,
    piece: &[u8],
) -> Result<(), AllocError>
    requires { at ≤ length (bytes_of (all_seen files.old.items) name.now) }
    ensures ok { OnOk result
        (all_seen files.new.items ≡ written name.now at piece.now (all_seen files.old.items)) }
    ensures err { OnErr result (all_seen files.new.items ≡ all_seen files.old.items) }
{
    match place_of(files, name) {
        Some(i) => {
            overwrite(&mut files[i].1, at, piece)?;
            Ok(())
        }
        None => add(files, name, piece),
    }
}

// Makes bytes their first `at` and then `piece`, in room of their own, so that an error changes none.
fn overwrite(bytes: &mut Vec<u8>, at: usize, piece: &[u8]) -> Result<(), AllocError>
    requires { at ≤ length bytes.old.items }
    ensures ok { OnOk result (bytes.new.items ≡ take at bytes.old.items ++ piece.now) }
    ensures err { OnErr result (bytes.new.items ≡ bytes.old.items) }
{
    let mut fresh = Vec::with_capacity(*bytes.allocator(), at)?;
    fresh.extend_from_slice(&bytes[..at])?;
    fresh.extend_from_slice(piece)?;
    *bytes = fresh;
    Ok(())
}

// Adds a file at the end.
fn add(files: &mut Vec<(String, Vec<u8>)>, name: &str, bytes: &[u8]) -> Result<(), AllocError>
    ensures ok { OnOk result
        (all_seen files.new.items ≡ all_seen files.old.items ++ (name.now, bytes.now) ∷ []) }
    ensures err { OnErr result (all_seen files.new.items ≡ all_seen files.old.items) }
{
    let alloc = *files.allocator();
    let name = String::from_str(alloc, name)?;
    let bytes = Vec::from_slice(alloc, bytes)?;
    files.push((name, bytes))?;
    Ok(())
}

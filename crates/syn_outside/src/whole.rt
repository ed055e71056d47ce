// Reading a file whole and putting a text whole. Each turn but a reader's last moves at least one
// byte, so a reader takes at most one turn more than it takes bytes, and no answer is needed for a
// loop that has run too long.
ghost use Rattle.std.specs.Prelude.{◌≡◌, ℕ, ◌+◌, ◌<◌, ◌≤◌, List, [], ◌++◌, Option, Err, IfOk, OnOk, OnErr, IsOk, length, vec_len};
ghost use Rattle.syn_outside.specs.Faults.{Rose, HasCause, UnlessFailed, UnlessReadFault, UnlessWriteFault};
ghost use Rattle.syn_outside.specs.Files.{File, Told};
ghost use Rattle.syn_outside.specs.Texts.{Adds, AddsPrefix};
ghost use Rattle.syn_outside.specs.inner.Whole.{TakesPart};
ghost use Rattle.syn_outside.specs.declared.traits.Trouble.{Trouble};
ghost use Rattle.syn_outside.specs.declared.whole.ReadError.{ReadError};
ghost use Rattle.syn_outside.specs.declared.whole.WriteError.{WriteError};

use crate::traits::{Cabinet, Sink, Trouble};
use std::alloc::Global;

/// Why a file wasn't read whole.
#[derive(Clone, Copy, Debug, PartialEq, Eq)]
pub enum ReadError {
    /// A read failed, or the name isn't there.
    Fault,
    /// The file has more bytes than the limit.
    TooLong,
    /// There was no memory for it.
    NoMemory,
}

/// Why a text wasn't put whole.
#[derive(Clone, Copy, Debug, PartialEq, Eq)]
pub enum WriteError {
    /// A put failed.
    Fault,
    /// There was no memory for it.
    NoMemory,
}

// How many bytes a turn of a reader takes at most.
const TURN: usize = 4096;

/// Reads the file `name` whole, if it has at most `limit` bytes.
///
/// A name that isn't there is a `Fault`, as a read that fails. A file that goes past `limit` is
/// `TooLong`, and little more than `limit` of it is read. The files stay as they were.
pub fn read_all<C: Cabinet>(
    alloc: Global,
    cab: &mut C,
    name: &str,
    limit: u64,
) -> Result<Vec<u8>, ReadError>
    ensures bytes { IfOk result (λ v. Told (λ bytes. v.items ≡ bytes) (C.files cab.old) name.now) }
    ensures within { IfOk result (λ v. vec_len v ≤ limit) }
    ensures too_long { result ≡ Err ReadError.TooLong →
        Told (λ bytes. limit < length bytes) (C.files cab.old) name.now }
    ensures fault { result ≡ Err ReadError.Fault →
        HasCause (C.read_faults cab.old) (C.read_faults cab.new) (C.files cab.old) name.now }

    ensures files { C.files cab.new ≡ C.files cab.old }
    ensures writes { C.write_faults cab.new ≡ C.write_faults cab.old }
    ensures later { C.read_faults cab.old ≤ C.read_faults cab.new }
    ensures quiet { UnlessReadFault result (C.read_faults cab.new ≡ C.read_faults cab.old) }
{
    let mut bytes = Vec::new(alloc);
    let (_turns, outcome) = take_all(cab, name, limit, &mut bytes);
    match outcome {
        Ok(()) => Ok(bytes),
        Err(error) => Err(error),
    }
}

// Takes the file `name` into `bytes` turn by turn, and answers the number of turns too.
fn take_all<C: Cabinet>(
    cab: &mut C,
    name: &str,
    limit: u64,
    bytes: &mut Vec<u8>,
) -> (u64, Result<(), ReadError>)
    requires { bytes.old.items ≡ [] }
    ensures turns { result.0 ≤ length bytes.new.items + 1 }
    ensures bound { result.0 ≤ limit + 1 }
    ensures whole { OnOk result.1 (Told (λ all. bytes.new.items ≡ all) (C.files cab.old) name.now) }
    ensures within { OnOk result.1 (length bytes.new.items ≤ limit) }
    ensures given { result.1 ≡ Err ReadError.TooLong → limit < length bytes.new.items }
    ensures too_long { result.1 ≡ Err ReadError.TooLong →
        Told (λ all. length bytes.new.items ≤ length all) (C.files cab.old) name.now }
    ensures fault { result.1 ≡ Err ReadError.Fault →
        HasCause (C.read_faults cab.old) (C.read_faults cab.new) (C.files cab.old) name.now }

    ensures files { C.files cab.new ≡ C.files cab.old }
    ensures writes { C.write_faults cab.new ≡ C.write_faults cab.old }
    ensures later { C.read_faults cab.old ≤ C.read_faults cab.new }
    ensures quiet { UnlessReadFault result.1 (C.read_faults cab.new ≡ C.read_faults cab.old) }
{
    let mut buffer = [0; TURN];
    let mut turns = 0;
    while bytes.len() as u64 <= limit {
        turns += 1;
        match take_part(cab, name, bytes, &mut buffer) {
            Ok(0) => return (turns, Ok(())),
            Ok(_) => {}
            Err(Trouble::Failed) => return (turns, Err(ReadError::Fault)),
            Err(Trouble::NoMemory) => return (turns, Err(ReadError::NoMemory)),
        }
    }
    (turns, Err(ReadError::TooLong))
}

// Takes the next bytes of a file of which `bytes` is the beginning.
fn take_part<C: Cabinet>(
    cab: &mut C,
    name: &str,
    bytes: &mut Vec<u8>,
    buffer: &mut [u8],
) -> Result<usize, Trouble>
    requires { 0 < length buffer.old }
    ensures bytes { IfOk result (TakesPart (C.files cab.old) name.now bytes.old.items bytes.new.items) }
    ensures err { OnErr result (bytes.new.items ≡ bytes.old.items) }
    ensures fault { result ≡ Err Trouble.Failed →
        HasCause (C.read_faults cab.old) (C.read_faults cab.new) (C.files cab.old) name.now }

    ensures files { C.files cab.new ≡ C.files cab.old }
    ensures writes { C.write_faults cab.new ≡ C.write_faults cab.old }
    ensures later { C.read_faults cab.old ≤ C.read_faults cab.new }
    ensures quiet { UnlessFailed result (C.read_faults cab.new ≡ C.read_faults cab.old) }
{
    let count = cab.read(name, bytes.len() as u64, buffer)?;
    match bytes.extend_from_slice(&buffer[..count]) {
        Ok(()) => Ok(count),
        Err(_) => Err(Trouble::NoMemory),
    }
}

/// Puts all of `bytes`.
///
/// After an error the text is the old one followed by first bytes of `bytes`. No bytes make no call.
pub fn put_all<S: Sink>(sink: &mut S, bytes: &[u8]) -> Result<(), WriteError>
    ensures all { OnOk result (Adds (S.text sink.old) (S.text sink.new) bytes.now) }
    ensures part { OnErr result (AddsPrefix (S.text sink.old) (S.text sink.new) bytes.now) }
    ensures fault { result ≡ Err WriteError.Fault → Rose (S.faults sink.old) (S.faults sink.new) }
    ensures later { S.faults sink.old ≤ S.faults sink.new }
    ensures quiet { UnlessWriteFault result (S.faults sink.new ≡ S.faults sink.old) }
    ensures nothing { bytes.now ≡ [] → sink.new ≡ sink.old }
    ensures well { bytes.now ≡ [] → IsOk result }
{
    let mut done = 0;
    while done < bytes.len() {
        match sink.put(&bytes[done..]) {
            Ok(count) => done += count,
            Err(Trouble::Failed) => return Err(WriteError::Fault),
            Err(Trouble::NoMemory) => return Err(WriteError::NoMemory),
        }
    }
    Ok(())
}

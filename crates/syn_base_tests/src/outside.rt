// What no clause can say of files and texts: that calls succeed, on the real files, the real output
// and in memory.
ghost use Rattle.std.specs.Prelude.{◌<◌};

use std::alloc::{AllocError, Global};
use std::process::Abort;
use std::rt::Files;
use std::test::Fail;
use syn_outside::{
    Cabinet, FolderCabinet, MemCabinet, MemSink, ReadError, StdSink, Trouble, WriteError, put_all,
    read_all,
};

/// A cabinet of one file `a` of `length` bytes, whose call with the number `fail` fails.
fn one_file(alloc: Global, length: usize, step: usize, fail: u64) -> Result<MemCabinet, AllocError>
    requires { 0 < step }
{
    let bytes = vec![in alloc; 7u8; length]?;
    let mut files = Vec::new(alloc);
    files.push((String::from_str(alloc, "a")?, bytes))?;
    Ok(MemCabinet::new(files, step, Vec::from_slice(alloc, &[fail])?))
}

/// How many bytes a reader with room for 1,000 takes of the file.
fn count_read(alloc: Global, cab: &mut MemCabinet, name: &str) -> Result<usize, ReadError> {
    Ok(read_all(alloc, cab, name, 1000)?.len())
}

/// A reader with room for 1,000 takes so many bytes of such a cabinet, or is told the error.
fn reads(
    rt: &impl Abort,
    alloc: Global,
    name: &str,
    length: usize,
    step: usize,
    fail: u64,
    want: Result<usize, ReadError>,
) -> Result<(), Fail>
    requires { 0 < step }
{
    let mut cab = one_file(alloc, length, step, fail)?;
    assert!(rt; count_read(alloc, &mut cab, name) == want);
    Ok(())
}

#[test]
fn reads_whole_files(rt: HostRuntime) -> Result<(), Fail> {
    reads(&rt, rt.alloc(), "a", 1000, 1, 0, Ok(1000))?;
    reads(&rt, rt.alloc(), "a", 1001, 4096, 0, Err(ReadError::TooLong))?;
    reads(&rt, rt.alloc(), "a", 0, 8, 0, Ok(0))?;
    reads(&rt, rt.alloc(), "a", 30, 8, 2, Err(ReadError::Fault))?;
    reads(&rt, rt.alloc(), "a", 30, 8, 6, Ok(30))?;
    reads(&rt, rt.alloc(), "b", 30, 8, 0, Err(ReadError::Fault))
}

/// A fault in the middle of the text, and the rest put after it.
fn put_in_two(rt: &impl Abort, sink: &mut MemSink) {
    let bytes = [7u8; 30];
    assert!(rt; put_all(sink, &bytes) == Err(WriteError::Fault));
    assert!(rt; sink.text() == &bytes[..8]);
    assert!(rt; put_all(sink, &bytes[8..]) == Ok(()));
    assert!(rt; sink.text() == &bytes[..]);
}

#[test]
fn puts_whole_texts(rt: HostRuntime) -> Result<(), Fail> {
    let mut sink = MemSink::new(8, Vec::from_slice(rt.alloc(), &[2])?);
    put_in_two(&rt, &mut sink);
    assert!(rt; put_all(&mut StdSink::new(&rt), b"put\n") == Ok(()));
    Ok(())
}

/// Whether the file `a.txt` is read whole as these bytes.
fn holds<C: Cabinet>(alloc: Global, cab: &mut C, want: &[u8]) -> bool {
    match read_all(alloc, cab, "a.txt", 100) {
        Ok(bytes) => bytes.as_slice() == want,
        Err(_) => false,
    }
}

/// Writes the text at the place.
fn writes<R: Abort + Files>(rt: &R, cab: &mut FolderCabinet<'_, R>, place: u64, text: &[u8]) {
    assert!(rt; cab.write("a.txt", place, text) == Ok(text.len()));
}

/// What can't be read or written.
fn finds_no_file<R: Abort + Files>(rt: &R, cab: &mut FolderCabinet<'_, R>) {
    let mut buffer = [1; 8];
    assert!(rt; cab.read("a.txt", 0, &mut buffer) == Err(Trouble::Failed));
    assert!(rt; cab.write("b.txt", 1, b"no such file") == Err(Trouble::Failed));
}

/// The rest of the buffer is left.
fn reads_a_part<R: Abort + Files>(rt: &R, cab: &mut FolderCabinet<'_, R>) {
    let mut buffer = [1; 8];
    assert!(rt; cab.read("a.txt", 1, &mut buffer) == Ok(6));
    assert!(rt; &buffer == b"irst 2\x01\x01");
}

#[test]
fn works_on_the_folder(rt: HostRuntime) {
    let mut cab = FolderCabinet::new(&rt);
    finds_no_file(&rt, &mut cab);
    writes(&rt, &mut cab, 0, b"longer than the last");
    writes(&rt, &mut cab, 0, b"first");
    writes(&rt, &mut cab, 5, b" second");
    assert!(rt; holds(rt.alloc(), &mut cab, b"first second"));
    writes(&rt, &mut cab, 6, b"2");
    assert!(rt; holds(rt.alloc(), &mut cab, b"first 2"));
    reads_a_part(&rt, &mut cab);
}

// The reader of values: the value that the text is by itself, and then whether it is of the sort.
ghost use Rattle.std.specs.Prelude.{◌≡◌, ◌+◌, ◌<◌, ◌≤◌, IfOk, get_or, length};
ghost use Rattle.syn_value.specs.declared.tree.ValueTree.{ValueTree};
ghost use Rattle.syn_value.specs.inner.Machine as machine;
ghost use Rattle.syn_value.specs.inner.Machine.{Leads, Makes, Stands};
ghost use Rattle.syn_value.specs.Texts.{IsRead, OneValue};

use crate::errors::ValueError;
use crate::reader::Reader;
use crate::sorting::is_of_sort;
use crate::value::Value;
use std::alloc::Global;
use syn_term::{Sort, Symbols};

/// The value of the sort that the text is: `0`, `[1, 2]`, `(1,[])`. BadValue: it is none, since it is no
/// text of a value, the value is of no such sort, a number is above 1,000,000, or there are more than
/// 10,000 list items and tuple parts together. NoMemory: memory was refused.
pub fn read_value(
    alloc: Global,
    syms: &Symbols,
    sort: Sort,
    text: &str,
) -> Result<Value, ValueError>
    ensures value { IsRead syms.now sort text.now result }
    ensures law { OneValue }
{
    match read_any(alloc, text.as_bytes()) {
        Ok(value) => sorted(syms, sort, value),
        Err(error) => Err(error),
    }
}

/// The value, where it is of the sort.
fn sorted(syms: &Symbols, sort: Sort, value: Value) -> Result<Value, ValueError>
    ensures { Makes result (machine.of_sort syms.now sort value) }
{
    if is_of_sort(syms, sort, &value.node) {
        return Ok(value);
    }
    drop(value);
    Err(ValueError::BadValue)
}

/// The value that the text is, of whatever sort.
fn read_any(alloc: Global, bytes: &[u8]) -> Result<Value, ValueError>
    ensures { Makes result (machine.value_in bytes.now) }
{
    let mut reader = Reader::new(alloc);
    match feed(alloc, &mut reader, bytes) {
        Ok(()) => reader.into_value(),
        Err(error) => {
            drop(reader);
            Err(error)
        }
    }
}

/// Reads all bytes, from the last to the first.
fn feed(alloc: Global, reader: &mut Reader, bytes: &[u8]) -> Result<(), ValueError>
    requires { reader.old ≡ machine.start }
    ensures { Leads result reader.new (machine.read_all bytes.now) }
{
    let mut at = bytes.len();
    let mut end = bytes.len();
    while 0 < at {
        match step(alloc, reader, bytes, at - 1, end) {
            Ok(next) => {
                end = next;
                at -= 1;
            }
            Err(error) => return Err(error),
        }
    }
    reader.number(alloc, &bytes[..end])
}

/// Reads the byte at this place. The bytes from behind it up to `end` are digits of a number that may
/// begin further to the left, and what is answered is the end of such digits before it.
fn step(
    alloc: Global,
    reader: &mut Reader,
    bytes: &[u8],
    at: usize,
    end: usize,
) -> Result<usize, ValueError>
    requires { (at < end) × (end ≤ length bytes.now) }
    ensures state { Stands result reader.new bytes.now at (machine.step (get_or bytes.now at 0) (machine.state_at reader.old bytes.now (at + 1) end)) }
    ensures end { IfOk result (λ e. (at ≤ e) × (e ≤ length bytes.now)) }
{
    let byte = bytes[at];
    if byte.is_ascii_digit() {
        return Ok(end);
    }
    reader.number(alloc, &bytes[at + 1..end])?;
    reader.sign(alloc, byte)?;
    Ok(at)
}

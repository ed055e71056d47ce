// A text that grows: each piece is put after what stands already, so that a printer is a row of
// pieces in the order in which they are read.
ghost use Rattle.std.specs.Prelude.{◌≡◌, ◌++◌, ◌==◌, [], decimal, if◌then◌else◌, string_bytes, OnOk};

use itoa::Buffer;
use syn_term::NoMemory;

/// Puts the text after what stands already. The one error is want of memory.
pub fn put(out: &mut String, text: &str) -> Result<(), NoMemory>
    ensures { OnOk result (string_bytes out.new ≡ string_bytes out.old ++ text.now) }
{
    out.push_str(text)?;
    Ok(())
}

/// Puts the number, in decimal, after what stands already. The one error is want of memory.
pub fn put_number(out: &mut String, number: u32) -> Result<(), NoMemory>
    ensures { OnOk result (string_bytes out.new ≡ string_bytes out.old ++ decimal number) }
{
    let mut buffer = Buffer::new();
    put(out, buffer.format(number))
}

/// What stands before the item with this index, where `between` stands between two items.
pub fn separator(i: usize, between: &str) -> &str
    ensures { result.now ≡ (if i == 0 then [] else between.now) }
{
    if i == 0 { "" } else { between }
}

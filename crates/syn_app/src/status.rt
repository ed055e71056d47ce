// The statuses that the program ends with. Each is data; its number and its text are one table each,
// and the contracts say that they are the tables of the definitions.
ghost use Rattle.std.specs.Prelude.{◌≡◌, ◌++◌, IfOk, codes, decimal, string_bytes};
ghost use Rattle.syn_app.specs.Status.{status_number, status_text, which_text};

use std::alloc::Global;
use syn_term::NoMemory;

/// One of the files that a command reads.
#[derive(Clone, Copy, Debug, PartialEq, Eq)]
pub enum Which {
    Theory,
    Spec,
    Derivation,
    Program,
}

/// What a command came to. Lines and rows count from 1.
#[derive(Clone, Copy, Debug, PartialEq, Eq)]
pub enum Status {
    /// The command did what it says.
    Done,
    /// The words are of no form.
    Words,
    /// The file could not be read.
    ReadFault(Which),
    /// The file has more bytes than a file may have.
    TooLong(Which),
    /// The first line that is no line of a theory.
    BadTheory(u64),
    /// The first line that is no line of a specification.
    BadSpec(u64),
    /// The first line that is no line of a derivation.
    BadDerivation(u64),
    /// The first row that does not follow from those before it.
    NotFollows(u64),
    /// The last row is not final.
    NotFinal,
    /// The value that is no text of a value of its sort, counted from 1.
    BadValue(u64),
    /// The evaluation took all turns that it may take.
    TurnsSpent,
    /// The answer could not be written.
    WriteFault,
    /// Memory was refused.
    NoMemory,
    /// The first line that is no line of a program.
    BadProgram(u64),
}

/// The number that the process ends with.
pub fn status_code(status: &Status) -> u8
    ensures { result ≡ status_number status.now }
{
    match status {
        Status::Done => 0,
        Status::Words => 2,
        Status::ReadFault(_) => 3,
        Status::TooLong(_) => 4,
        Status::BadTheory(_) => 5,
        Status::BadSpec(_) => 6,
        Status::BadDerivation(_) => 7,
        Status::NotFollows(_) => 8,
        Status::NotFinal => 9,
        Status::BadValue(_) => 10,
        Status::TurnsSpent => 12,
        Status::WriteFault => 15,
        Status::NoMemory => 16,
        Status::BadProgram(_) => 17,
    }
}

/// The text of the status, as `bad spec: line 3`, without a line feed. The one error is want of
/// memory.
pub fn status_line(alloc: Global, status: &Status) -> Result<String, NoMemory>
    ensures { IfOk result (λ line. string_bytes line ≡ status_text status.now) }
{
    match *status {
        Status::Done => plain(alloc, "done"),
        Status::Words => plain(alloc, "words: no such form"),
        Status::ReadFault(which) => of_file(alloc, "read fault: ", which),
        Status::TooLong(which) => of_file(alloc, "too long: ", which),
        Status::BadTheory(line) => numbered(alloc, "bad theory: line ", line, ""),
        Status::BadSpec(line) => numbered(alloc, "bad spec: line ", line, ""),
        Status::BadDerivation(line) => numbered(alloc, "bad derivation: line ", line, ""),
        Status::NotFollows(row) => numbered(alloc, "row ", row, " does not follow"),
        Status::NotFinal => plain(alloc, "not final"),
        Status::BadValue(place) => numbered(alloc, "bad value: ", place, ""),
        Status::TurnsSpent => plain(alloc, "turns spent"),
        Status::WriteFault => plain(alloc, "write fault"),
        Status::NoMemory => plain(alloc, "no memory"),
        Status::BadProgram(line) => numbered(alloc, "bad program: line ", line, ""),
    }
}

/// The text as a string.
fn plain(alloc: Global, text: &str) -> Result<String, NoMemory>
    ensures { IfOk result (λ line. string_bytes line ≡ text.now) }
{
    Ok(String::from_str(alloc, text)?)
}

/// The text, and then what the file is called.
fn of_file(alloc: Global, text: &str, which: Which) -> Result<String, NoMemory>
    ensures { IfOk result (λ line. string_bytes line ≡ text.now ++ which_text which) }
{
    let name = which_text(which);
    Ok(format!(in alloc; "{text}{name}")?)
}

/// What texts call the file.
fn which_text(which: Which) -> &'static str
    ensures { result.now ≡ which_text which }
{
    match which {
        Which::Theory => "theory",
        Which::Spec => "spec",
        Which::Derivation => "derivation",
        Which::Program => "program",
    }
}

/// The number in decimal, between two texts.
fn numbered(alloc: Global, before: &str, number: u64, after: &str) -> Result<String, NoMemory>
    ensures { IfOk result (λ line. string_bytes line ≡ before.now ++ decimal number ++ after.now) }
{
    Ok(format!(in alloc; "{before}{number}{after}")?)
}

// What the reader answers, as the tables write it.
use std::alloc::Global;
use std::test::Fail;
use syn_deriv::{print_derivation, read_derivation};
use syn_lex::FileError;
use syn_start::Start;
use syn_term::Bank;

/// The line of a derivation's text that is refused, 0 where it is read.
pub fn bad_line(alloc: Global, bank: &mut Bank, start: &Start, bytes: &[u8]) -> Result<u64, Fail> {
    match read_derivation(alloc, bank, start, bytes) {
        Ok(_) => Ok(0),
        Err(FileError::Bad(line)) => Ok(line),
        Err(FileError::NoMemory) => Err(Fail::new("no memory")),
    }
}

/// The text that the derivation of a text prints as.
pub fn printed(alloc: Global, bank: &mut Bank, start: &Start, text: &str) -> Result<String, Fail> {
    match read_derivation(alloc, bank, start, text.as_bytes()) {
        Ok(d) => Ok(print_derivation(alloc, start, &d)?),
        Err(_) => Err(Fail::new("no derivation")),
    }
}

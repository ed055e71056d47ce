// What the reader of programs answers, as the tables write it, and the texts that cases stand for.
use std::alloc::Global;
use std::test::Fail;
use syn_files::{print_program, read_program, read_theory};
use syn_lex::FileError;
use syn_model::Theory;
use syn_term::{Bank, decimal_number};

/// A theory with lists, tuples, functions, relations, an order, an axiom and a monotonicity.
pub(crate) const BASE: &str = "\
theory base
sort L = nil | cons(nat, L)
sort P = pair(nat, L)
fun p(nat): nat
clause p(0) = 0
clause p(s(x)) = x
rel le(nat, nat)
clause le(x, 0) <-> x = 0
clause le(x, s(y)) <-> x = s(y) or le(x, y)
fun len(L): nat
clause len(nil) = 0
clause len(cons(x, y)) = s(len(y))
order below(x: nat) by x
axiom refl: all x: nat. le(x, x)
mono trans: le up le 2
";

/// The lines of a case, which has ` // ` between them, each ended by a line feed.
fn put_lines(out: &mut String, case: &str) -> Result<(), Fail> {
    for line in case.split(" // ") {
        out.push_str(line)?;
        out.push('\n')?;
    }
    Ok(())
}

/// The text of a case, which has ` // ` between its lines.
pub(crate) fn case_text(alloc: Global, case: &str) -> Result<String, Fail> {
    let mut text = String::new(alloc);
    put_lines(&mut text, case)?;
    Ok(text)
}

/// The number of the bad line that a case wants, 0 where the text is to be read.
pub(crate) fn wanted(word: &str) -> u64 {
    match decimal_number(word) {
        Some(number) => u64::from(number),
        None => 0,
    }
}

/// The line of a program's text that is refused, 0 where it is read.
pub(crate) fn bad_program_line(alloc: Global, theory: &Theory, bytes: &[u8]) -> Result<u64, Fail> {
    match read_program(alloc, &mut Bank::new(alloc), theory, bytes) {
        Ok(_) => Ok(0),
        Err(FileError::Bad(line)) => Ok(line),
        Err(FileError::NoMemory) => Err(Fail::new("no memory")),
    }
}

/// The text that the program of a text prints as.
pub(crate) fn printed_program(alloc: Global, theory: &Theory, text: &str) -> Result<String, Fail> {
    match read_program(alloc, &mut Bank::new(alloc), theory, text.as_bytes()) {
        Ok(program) => Ok(print_program(alloc, theory, &program)?),
        Err(_) => Err(Fail::new("no program")),
    }
}

/// The theory of a text.
pub(crate) fn theory_of(alloc: Global, text: &str) -> Result<Theory, Fail> {
    match read_theory(alloc, &mut Bank::new(alloc), text.as_bytes()) {
        Ok(theory) => Ok(theory),
        Err(_) => Err(Fail::new("no theory")),
    }
}

// The text of a specification, three lines, each read by what must stand before and after its names.
// Since no name has a bracket, a colon or a space, the first such byte ends the name, and a line has
// one reading at most; so the names of the second line are the ones that the third is read with.
ghost use Rattle.std.specs.Prelude.{◌≡◌, ◌≢◌, ◌↔◌, ◌<◌, ◌++◌, ◌∷◌, List, ℕ, IsTrue, MatchOption, MatchResult, codes, false, map};
ghost use Rattle.syn_term.specs.Names.{IsName, is_name_byte};
ghost use Rattle.syn_app.specs.declared.flat.FlatTerm.{FlatTerm};
ghost use Rattle.syn_app.specs.Limits.{FitsForm};
ghost use Rattle.syn_lex.specs.TextLines.{IsCut};
ghost use Rattle.syn_app.specs.inner.Readers.{IsFlatSpec, Refuses};
ghost use Rattle.syn_app.specs.SpecText.{AreProgramNames, ExtendsSpec, IsCondition, ProgramNames, WholeSpec, ensures_line, ensures_of, program_line, spec_line};
ghost use Rattle.syn_app.specs.Terms.{IsClosed};

use crate::flat::{Base, FlatTerm};
use crate::lines::{part_before, same, strip};
use crate::numbers::name_in;
use crate::terms::{MOST_DEPTH, MOST_NODES, size_of, term_in};
use std::alloc::Global;
use syn_lex::{Cut, FileError, split_lines};
use syn_term::NoMemory;

/// A specification, as its text is read: the names are parts of the text.
#[derive(Clone, Copy, Debug)]
pub(crate) struct FlatSpec<'a> {
    pub(crate) name: &'a str,
    pub(crate) program: &'a str,
    pub(crate) input: &'a str,
    pub(crate) output: &'a str,
    pub(crate) term: FlatTerm,
}

// The names of a program line.
#[derive(Clone, Copy, Debug)]
struct Header<'a> {
    program: &'a str,
    input: &'a str,
    output: &'a str,
}

fn spec_name(line: &[u8]) -> Option<&str>
    ensures { MatchOption result ((name : List ℕ) → IsName name → ¬ (line.now ≡ spec_line name)) (λ name. IsName name.now × (line.now ≡ spec_line name.now)) }
{
    match strip(line, b"spec ") {
        None => None,
        Some(name) => name_in(name),
    }
}

fn name_before<'a>(text: &'a [u8], mark: u8, others: &[u8]) -> Option<(&'a str, &'a [u8])>
    requires ascii { mark < 128 }
    requires mark { is_name_byte mark ≡ false }
    ensures { MatchOption result ((name rest : List ℕ) → IsName name → ¬ (text.now ≡ name ++ mark ∷ (others.now ++ rest))) (λ p. IsName p.0.now × (text.now ≡ p.0.now ++ mark ∷ (others.now ++ p.1.now))) }
{
    match part_before(text, mark, others) {
        None => None,
        Some((part, rest)) => match name_in(part) {
            None => None,
            Some(name) => Some((name, rest)),
        },
    }
}

fn are_distinct(program: &str, input: &str, output: &str) -> bool
    ensures { IsTrue result ↔ ((program.now ≢ input.now) × (program.now ≢ output.now) × (input.now ≢ output.now)) }
{
    program != input && program != output && input != output
}

fn header_of(line: &[u8]) -> Option<Header<'_>>
    ensures { MatchOption result ((n : ProgramNames) → AreProgramNames n → ¬ (line.now ≡ program_line n)) (λ h. AreProgramNames (record { program = h.program.now; input = h.input.now; output = h.output.now }) × (line.now ≡ program_line (record { program = h.program.now; input = h.input.now; output = h.output.now }))) }
{
    let Some(after_word) = strip(line, b"program ") else {
        return None;
    };
    let Some((program, after_program)) = name_before(after_word, b'(', b"") else {
        return None;
    };
    let Some((input, after_input)) = name_before(after_program, b':', b" nat): ") else {
        return None;
    };
    let Some((output, after_output)) = name_before(after_input, b':', b" nat") else {
        return None;
    };
    if !after_output.is_empty() {
        return None;
    }
    if !are_distinct(program, input, output) {
        return None;
    }
    Some(Header {
        program,
        input,
        output,
    })
}

fn is_closed(base: &Base) -> bool
    ensures { IsTrue result ↔ IsClosed base.now }
{
    match *base {
        Base::Input => true,
        Base::Number(_) => true,
        Base::RowVariable(_) => false,
    }
}

// The equality has two nodes more than its term, and is one deeper.
fn fits(term: &FlatTerm) -> bool
    ensures { IsTrue result ↔ FitsForm (ensures_of term.now) }
{
    let size = size_of(term);
    size + 2 <= MOST_NODES && size + 1 <= MOST_DEPTH
}

fn condition_word<'a>(line: &'a [u8], output: &str) -> Option<&'a [u8]>
    ensures { MatchOption result ((word : List ℕ) → ¬ (line.now ≡ codes "ensures " ++ (output.now ++ (codes " = " ++ word)))) (λ word. line.now ≡ codes "ensures " ++ (output.now ++ (codes " = " ++ word.now))) }
{
    let Some(after_word) = strip(line, b"ensures ") else {
        return None;
    };
    match strip(after_word, output.as_bytes()) {
        None => None,
        Some(after_output) => strip(after_output, b" = "),
    }
}

fn condition_of(line: &[u8], header: &Header<'_>) -> Option<FlatTerm>
    requires { IsName header.now.input.now }
    ensures { MatchOption result ((r : FlatTerm) → IsCondition r → ¬ (line.now ≡ ensures_line (record { program = header.now.program.now; input = header.now.input.now; output = header.now.output.now }) r)) (λ r. IsCondition r × (line.now ≡ ensures_line (record { program = header.now.program.now; input = header.now.input.now; output = header.now.output.now }) r)) }
{
    let Some(word) = condition_word(line, header.output) else {
        return None;
    };
    match term_in(word, header.input) {
        None => None,
        Some(term) => {
            if is_closed(&term.base) && fits(&term) {
                Some(term)
            } else {
                None
            }
        }
    }
}

// The specification that the cut is one of, or the number of the first bad line.
fn spec_in<'a>(cut: &Cut<'a>) -> Result<FlatSpec<'a>, FileError>
    ensures { (bytes : List ℕ) → IsCut bytes (map (λ line. line.now) cut.now.lines.items) cut.now.rest.now → MatchResult result (λ s. IsFlatSpec bytes s.name.now (record { program = s.program.now; input = s.input.now; output = s.output.now }) s.term) (Refuses ExtendsSpec WholeSpec bytes) }
{
    let Some(name) = spec_name(cut.line_at(0)) else {
        return Err(FileError::Bad(1));
    };
    let Some(header) = header_of(cut.line_at(1)) else {
        return Err(FileError::Bad(2));
    };
    let Some(term) = condition_of(cut.line_at(2), &header) else {
        return Err(FileError::Bad(3));
    };
    if !cut.ends_after(3) {
        return Err(FileError::Bad(4));
    }
    Ok(FlatSpec {
        name,
        program: header.program,
        input: header.input,
        output: header.output,
        term,
    })
}

/// The specification that the bytes are the text of, or the number of the first bad line.
pub(crate) fn read_spec(alloc: Global, bytes: &[u8]) -> Result<FlatSpec<'_>, FileError>
    ensures { MatchResult result (λ s. IsFlatSpec bytes.now s.name.now (record { program = s.program.now; input = s.input.now; output = s.output.now }) s.term) (Refuses ExtendsSpec WholeSpec bytes.now) }
{
    match split_lines(alloc, bytes) {
        Err(NoMemory) => Err(FileError::NoMemory),
        Ok(cut) => spec_in(&cut),
    }
}

// The text of a derivation. The line of a row is read part by part: a part is told by its first word,
// and a number or a term ends at the first space, so a line has one reading at most. Where a part
// can't be read, the line is the line of no row; so the first line that isn't read is the first that
// extends none.
ghost use Rattle.std.specs.Prelude.{◌≡◌, ◌↔◌, ◌<◌, ◌^◌, ◌++◌, ◌∷◌, [], List, ℕ, IsTrue, IfOk, MatchOption, MatchResult, decimal, drop, length, map, slice_index_or, take};
ghost use Rattle.syn_term.specs.Names.{IsName};
ghost use Rattle.syn_app.specs.declared.flat.FlatForm.{FlatForm};
ghost use Rattle.syn_app.specs.declared.flat.FlatRow.{FlatRow};
ghost use Rattle.syn_app.specs.declared.flat.Step.{Step};
ghost use Rattle.syn_app.specs.declared.flat.FlatTerm.{FlatTerm};
ghost use Rattle.syn_app.specs.DerivationText.{AreRows, ExtendsDerivation, IsRow, IsStep, WholeDerivation, first_line, form_tree, row_line, row_lines, row_tree};
ghost use Rattle.syn_app.specs.Limits as limits;
ghost use Rattle.syn_app.specs.Limits.{FitsForm, FitsRow, FitsTerm};
ghost use Rattle.syn_app.specs.inner.Readers.{HasParts, HasTerms, IsFlatDerivation, IsTerm, Refuses, RefusesLines, row_text, with_form, with_step};
ghost use Rattle.syn_app.specs.Terms.{term_text, term_tree};

use crate::flat::{FlatForm, FlatRow, FlatTerm, Step};
use crate::lines::{part_before, same, strip};
use crate::numbers::number_in;
use crate::terms::{MOST_DEPTH, MOST_NODES, size_of, term_in};
use itoa::Buffer;
use std::alloc::Global;
use syn_lex::{FileError, split_lines};
use syn_term::NoMemory;

fn term_before<'a>(text: &'a [u8], others: &[u8], input: &str) -> Option<(FlatTerm, &'a [u8])>
    requires { IsName input.now }
    ensures { MatchOption result ((r : FlatTerm) (rest : List ℕ) → IsTerm r → ¬ (text.now ≡ term_text input.now r ++ 32 ∷ (others.now ++ rest))) (λ p. IsTerm p.0 × (text.now ≡ term_text input.now p.0 ++ 32 ∷ (others.now ++ p.1.now))) }
{
    match part_before(text, b' ', others) {
        None => None,
        Some((word, rest)) => match term_in(word, input) {
            None => None,
            Some(term) => Some((term, rest)),
        },
    }
}

fn step_before(text: &[u8]) -> Option<(Step, &[u8])>
    ensures { MatchOption result ((s : Step) (rest : List ℕ) → IsStep s → ¬ (text.now ≡ with_step s rest)) (λ p. IsStep p.0 × (text.now ≡ with_step p.0 p.1.now)) }
{
    if let Some(rest) = strip(text, b"goal: goal ") {
        return Some((Step::Goal, rest));
    }
    let Some(after_word) = strip(text, b"reflex ") else {
        return None;
    };
    let Some((word, rest)) = part_before(after_word, b' ', b"-: goal ") else {
        return None;
    };
    match number_in(word) {
        None => None,
        Some(row) => Some((Step::Reflex { row }, rest)),
    }
}

fn form_before<'a>(text: &'a [u8], input: &str) -> Option<(FlatForm, &'a [u8])>
    requires { IsName input.now }
    ensures { MatchOption result ((f : FlatForm) (rest : List ℕ) → HasTerms f → ¬ (text.now ≡ with_form input.now f rest)) (λ p. HasTerms p.0 × (text.now ≡ with_form input.now p.0 p.1.now)) }
{
    if let Some(rest) = strip(text, b"true | ") {
        return Some((FlatForm::True, rest));
    }
    let Some((left, after_left)) = term_before(text, b"= ", input) else {
        return None;
    };
    match term_before(after_left, b"| ", input) {
        None => None,
        Some((right, rest)) => Some((FlatForm::Equal(left, right), rest)),
    }
}

fn row_after_number(text: &[u8], input: &str) -> Option<FlatRow>
    requires { IsName input.now }
    ensures { MatchOption result ((r : FlatRow) → HasParts r → ¬ (text.now ≡ row_text input.now r)) (λ r. HasParts r × (text.now ≡ row_text input.now r)) }
{
    let Some((step, after_step)) = step_before(text) else {
        return None;
    };
    let Some((form, after_form)) = form_before(after_step, input) else {
        return None;
    };
    match term_in(after_form, input) {
        None => None,
        Some(out) => Some(FlatRow { step, form, out }),
    }
}

fn after_number(line: &[u8], number: u64) -> Option<&[u8]>
    ensures { MatchOption result ((rest : List ℕ) → ¬ (line.now ≡ decimal number ++ 32 ∷ rest)) (λ rest. line.now ≡ decimal number ++ 32 ∷ rest.now) }
{
    let mut buffer = Buffer::new();
    match strip(line, buffer.format(number).as_bytes()) {
        None => None,
        Some(rest) => strip(rest, b" "),
    }
}

fn form_nodes(form: &FlatForm) -> u64
    ensures is { result ≡ limits.form_nodes (form_tree form.now) }
    ensures bound { result < 2 ^ 36 }
{
    match form {
        FlatForm::True => 1,
        FlatForm::Equal(left, right) => 1 + size_of(left) + size_of(right),
    }
}

fn form_depth(form: &FlatForm) -> u64
    ensures { result ≡ limits.form_depth (form_tree form.now) }
{
    match form {
        FlatForm::True => 1,
        FlatForm::Equal(left, right) => 1 + size_of(left).max(size_of(right)),
    }
}

// Formula and output each have no more nodes than the row, and are no deeper.
fn fits(row: &FlatRow) -> bool
    ensures { IsTrue result ↔ (FitsForm (form_tree row.now.form) × FitsTerm (term_tree row.now.out) × FitsRow (row_tree row.now)) }
{
    let out = size_of(&row.out);
    form_nodes(&row.form) + out <= MOST_NODES && form_depth(&row.form).max(out) <= MOST_DEPTH
}

fn row_in(line: &[u8], number: u64, input: &str) -> Option<FlatRow>
    requires { IsName input.now }
    ensures { MatchOption result ((r : FlatRow) → IsRow r → ¬ (line.now ≡ row_line input.now number r)) (λ r. IsRow r × (line.now ≡ row_line input.now number r)) }
{
    let Some(text) = after_number(line, number) else {
        return None;
    };
    match row_after_number(text, input) {
        None => None,
        Some(row) => { if fits(&row) { Some(row) } else { None } }
    }
}

fn push(rows: &mut Vec<FlatRow>, row: FlatRow) -> Result<(), NoMemory>
    ensures { IfOk result (λ _. rows.new.items ≡ rows.old.items ++ row ∷ []) }
{
    match rows.push(row) {
        Ok(()) => Ok(()),
        Err(_) => Err(NoMemory),
    }
}

fn read_rows(alloc: Global, input: &str, lines: &[&[u8]]) -> Result<Vec<FlatRow>, FileError>
    requires name { IsName input.now }
    requires some { 0 < length lines.now }
    requires first { slice_index_or (map (λ line. line.now) lines.now) 0 [] ≡ first_line }
    ensures { MatchResult result (λ rows. (map (λ line. line.now) lines.now ≡ first_line ∷ row_lines input.now 1 rows.items) × AreRows rows.items) (RefusesLines (ExtendsDerivation input.now) (map (λ line. line.now) lines.now)) }
{
    let mut rows = Vec::new(alloc);
    for number in 1..lines.len() {
        let Some(row) = row_in(lines[number], number as u64, input) else {
            return Err(FileError::Bad(number as u64 + 1));
        };
        if let Err(NoMemory) = push(&mut rows, row) {
            return Err(FileError::NoMemory);
        }
    }
    Ok(rows)
}

/// The rows of the derivation that the bytes are the text of, over an input of this name, or the
/// number of the first bad line.
pub(crate) fn read_derivation(
    alloc: Global,
    input: &str,
    bytes: &[u8],
) -> Result<Vec<FlatRow>, FileError>
    requires { IsName input.now }
    ensures { MatchResult result (λ rows. IsFlatDerivation input.now bytes.now rows.items) (Refuses (ExtendsDerivation input.now) WholeDerivation bytes.now) }
{
    let Ok(cut) = split_lines(alloc, bytes) else {
        return Err(FileError::NoMemory);
    };
    if !same(cut.line_at(0), b"derivation 1") {
        return Err(FileError::Bad(1));
    }
    let rows = match read_rows(alloc, input, cut.lines.as_slice()) {
        Err(error) => return Err(error),
        Ok(rows) => rows,
    };
    if !cut.rest.is_empty() {
        return Err(FileError::Bad(cut.lines.len() as u64 + 1));
    }
    Ok(rows)
}

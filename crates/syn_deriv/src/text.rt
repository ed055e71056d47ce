// The text of a derivation, line by line. What is known of it is nothing yet, or its rows so far.
ghost use Rattle.std.specs.Prelude.{◌≡◌, ◌↔◌, ◌∷◌, [], ℕ, All, List, IfOk, IsTrue, None, Some, codes, map};
ghost use Rattle.syn_term.specs.Bank.{Extends};
ghost use Rattle.syn_form.specs.Grammar.{name_word};
ghost use Rattle.syn_lex.specs.Stepping.{Lead, OneText, ReadsText};
ghost use Rattle.syn_lex.specs.TextLines.{IsCut};
ghost use Rattle.syn_start.specs.Rows.{IsRowOf};
ghost use Rattle.syn_deriv.specs.DerivationLines.{DerivationLine, IsBegun, bare_lines, number_word};
ghost use Rattle.syn_deriv.specs.inner.Telling.{AreLinesOf, TakesDerivationLine, TakesDerivationWords, seen};

use crate::cursor::{Cursor, is_text};
use crate::row_lines::line_of_words;
use std::alloc::Global;
use syn_lex::{Cut, FileError, Words, line_tokens, split_lines};
use syn_start::{Derivation, Start};
use syn_term::{Bank, NoMemory};

/// What is known of a derivation while its lines are read: nothing yet, or its rows so far.
#[derive(Drop)]
struct Progress {
    derivation: Option<Derivation>,
}

/// Whether the words are `1` alone.
fn is_version(cursor: &mut Cursor<'_>) -> bool
    ensures { IsTrue result ↔ (cursor.old.left ≡ number_word 1 ∷ []) }
{
    match cursor.number() {
        None => false,
        Some(version) => {
            if version != 1 {
                return false;
            }
            cursor.is_empty()
        }
    }
}

/// Whether the words are the first line of a derivation.
fn is_header(words: &Words) -> bool
    ensures { IsTrue result ↔ (words.now ≡ name_word (codes "derivation") ∷ number_word 1 ∷ []) }
{
    let mut cursor = Cursor {
        left: words.from(0),
    };
    match cursor.name() {
        None => false,
        Some(name) => {
            if !is_text(name, "derivation") {
                return false;
            }
            is_version(&mut cursor)
        }
    }
}

/// Puts the row that the words are behind the others. Whether they are one is the answer.
#[tactic(auto, using(syn_expr::proofs::Growth::growth))]
fn extend_words(
    alloc: Global,
    bank: &mut Bank,
    start: &Start,
    derivation: &mut Derivation,
    words: &Words,
) -> Result<bool, NoMemory>
    requires some { words.now ≡ [] → ⊥ }
    requires rows { AreLinesOf start.now bank.old (Some derivation.old) }
    ensures taken { IfOk result (TakesDerivationWords start.now (seen (Some derivation.old)) words.now (seen (Some derivation.new))) }
    ensures rows { AreLinesOf start.now bank.new (Some derivation.new) }
    ensures extends { Extends bank.old bank.new }
{
    let number = derivation.lines().len() as u64 + 1;
    match line_of_words(alloc, bank, start, number, words)? {
        None => Ok(false),
        Some((step, row)) => {
            derivation.push(step, row)?;
            Ok(true)
        }
    }
}

impl Progress {
    /// Begins the derivation by the words. Whether they begin one is the answer.
    fn begin(&mut self, alloc: Global, words: &Words) -> bool
        requires some { words.now ≡ [] → ⊥ }
        requires none { self.old.derivation ≡ None }
        ensures taken { (x : _) → TakesDerivationWords x (seen self.old.derivation) words.now (seen self.new.derivation) result }
        ensures rows { (x : _) (bank : _) → AreLinesOf x bank self.new.derivation }
    {
        if !is_header(words) {
            return false;
        }
        drop(self.derivation.replace(Derivation::new(alloc)));
        true
    }

    /// Goes on by the words of a line. Whether they lead on is the answer.
    #[tactic(auto, using(syn_expr::proofs::Growth::growth))]
    fn take_words(
        &mut self,
        alloc: Global,
        bank: &mut Bank,
        start: &Start,
        words: &Words,
    ) -> Result<bool, NoMemory>
        requires { AreLinesOf start.now bank.old self.old.derivation }
        ensures taken { IfOk result (TakesDerivationWords start.now (seen self.old.derivation) words.now (seen self.new.derivation)) }
        ensures rows { AreLinesOf start.now bank.new self.new.derivation }
        ensures extends { Extends bank.old bank.new }
    {
        if words.is_empty() {
            return Ok(true);
        }
        match &mut self.derivation {
            Some(derivation) => extend_words(alloc, bank, start, derivation, words),
            None => Ok(self.begin(alloc, words)),
        }
    }

    /// Goes on by a line. Whether it leads on is the answer.
    #[tactic(auto, using(syn_expr::proofs::Growth::growth))]
    fn take_line(
        &mut self,
        alloc: Global,
        bank: &mut Bank,
        start: &Start,
        line: &[u8],
    ) -> Result<bool, NoMemory>
        requires { AreLinesOf start.now bank.old self.old.derivation }
        ensures taken { IfOk result (TakesDerivationLine start.now (seen self.old.derivation) line.now (seen self.new.derivation)) }
        ensures rows { AreLinesOf start.now bank.new self.new.derivation }
        ensures extends { Extends bank.old bank.new }
    {
        match line_tokens(alloc, line)? {
            None => Ok(false),
            Some(found) => {
                self.take_words(alloc, bank, start, &Words::new(line, found.as_slice()))
            }
        }
    }
}

/// Whether nothing follows the last line.
fn is_ended(cut: &Cut) -> bool
    ensures { IsTrue result ↔ (cut.now.rest.now ≡ []) }
{
    cut.rest.is_empty()
}

/// The derivation that the lines lead to, where its first line is there and nothing follows the last line.
fn finished(progress: Progress, cut: &Cut) -> Result<Derivation, FileError>
    ensures answer { (x : _) (bytes : List ℕ) → IsCut bytes (map (λ line. line.now) cut.now.lines.items) cut.now.rest.now → Lead (DerivationLine x) None (map (λ line. line.now) cut.now.lines.items) (seen progress.derivation) → ReadsText (DerivationLine x) None IsBegun (λ d. Some (bare_lines d)) bytes result }
    ensures rows { (x : _) (bank : _) → AreLinesOf x bank progress.derivation → IfOk result (All (λ line. IsRowOf x bank line.1)) }
{
    let after = cut.lines.len() as u64 + 1;
    match progress.derivation {
        None => Err(FileError::Bad(after)),
        Some(derivation) => {
            if is_ended(cut) {
                Ok(derivation)
            } else {
                drop(derivation);
                Err(FileError::Bad(after))
            }
        }
    }
}

/// The derivation that the lines of a text lead to. The errors are those of `read_derivation`.
#[tactic(auto, using(syn_expr::proofs::Growth::growth))]
fn derivation_in(
    alloc: Global,
    bank: &mut Bank,
    start: &Start,
    cut: &Cut,
) -> Result<Derivation, FileError>
    ensures answer { (bytes : List ℕ) → IsCut bytes (map (λ line. line.now) cut.now.lines.items) cut.now.rest.now → ReadsText (DerivationLine start.now) None IsBegun (λ d. Some (bare_lines d)) bytes result }
    ensures rows { IfOk result (All (λ line. IsRowOf start.now bank.new line.1)) }
    ensures extends { Extends bank.old bank.new }
{
    let mut progress = Progress { derivation: None };
    for i in 0..cut.lines.len() {
        match progress.take_line(alloc, bank, start, cut.line_at(i)) {
            Ok(true) => {}
            Ok(false) => {
                drop(progress);
                return Err(FileError::Bad(i as u64 + 1));
            }
            Err(NoMemory) => {
                drop(progress);
                return Err(FileError::NoMemory);
            }
        }
    }
    finished(progress, cut)
}

/// The derivation over the start that the bytes are the text of, the terms of its rows made by the bank.
/// Each row is plain over the specification's table, and its output has the sort of the program's result.
/// `Bad(n)`: line n, counted from 1, is the first that may not follow those before it, or the one after the
/// last where the first line is missing; bytes after the last line feed are a line that may follow nothing.
/// Whether the steps give their rows is not asked.
#[tactic(auto, using(syn_expr::proofs::Growth::growth))]
pub fn read_derivation(
    alloc: Global,
    bank: &mut Bank,
    start: &Start,
    bytes: &[u8],
) -> Result<Derivation, FileError>
    ensures answer { ReadsText (DerivationLine start.now) None IsBegun (λ d. Some (bare_lines d)) bytes.now result }
    ensures one { OneText (DerivationLine start.now) None IsBegun bytes.now }
    ensures rows { IfOk result (All (λ line. IsRowOf start.now bank.new line.1)) }
    ensures extends { Extends bank.old bank.new }
{
    match split_lines(alloc, bytes) {
        Err(NoMemory) => Err(FileError::NoMemory),
        Ok(cut) => derivation_in(alloc, bank, start, &cut),
    }
}

// The text of a program, line by line. What is known of it is nothing yet, its head, or the program.
ghost use Rattle.std.specs.Prelude.{◌≡◌, ◌↔◌, [], ℕ, List, IfOk, IsTrue, None, map};
ghost use Rattle.syn_term.specs.Bank.{Extends};
ghost use Rattle.syn_lex.specs.Stepping.{Lead, OneText, ReadsText};
ghost use Rattle.syn_lex.specs.TextLines.{IsCut};
ghost use Rattle.syn_model.specs.declared.decl.Decl.{Decl};
ghost use Rattle.syn_model.specs.BareParts.{bare_program_tree};
ghost use Rattle.syn_model.specs.Programs.{IsProgram, IsProgramHead};
ghost use Rattle.syn_files.specs.ProgramLines.{IsBodyWithinLimit, IsWholeProgram, ProgramLine, begun, known, nothing};
ghost use Rattle.syn_files.specs.inner.ProgramTelling.{IsHeadOver, IsProgramOver, TakesProgramLine, TakesProgramWords, program_state};

use crate::program_body::program_of_words;
use crate::program_head::program_head_of_words;
use std::alloc::Global;
use syn_lex::{Cut, FileError, Words, line_tokens, split_lines};
use syn_model::{Program, ProgramHead, Theory};
use syn_term::{Bank, NoMemory};

/// What is known of a program while its lines are read: nothing yet, its head, or the program, which has
/// the head in it.
#[derive(Drop)]
struct ProgramProgress {
    head: Option<ProgramHead>,
    program: Option<Program>,
}

impl ProgramProgress {
    /// Begins the program by the words. Whether they begin one is the answer.
    fn begin(&mut self, alloc: Global, theory: &Theory, words: &Words) -> Result<bool, NoMemory>
        requires some { words.now ≡ [] → ⊥ }
        requires headless { self.old.head ≡ None }
        requires none { self.old.program ≡ None }
        ensures taken { IfOk result (TakesProgramWords (theory.now).decls nothing words.now (program_state self.new.head self.new.program)) }
        ensures head { IsHeadOver (theory.now).decls self.new.head }
        ensures program { IsProgramOver (theory.now).decls self.new.program }
    {
        match program_head_of_words(alloc, theory, words)? {
            None => Ok(false),
            Some(head) => {
                drop(self.head.replace(head));
                Ok(true)
            }
        }
    }

    /// Ends the program of this head by the words. Whether they are its body is the answer.
    #[tactic(auto, using(syn_expr::proofs::Growth::growth))]
    fn complete(
        &mut self,
        alloc: Global,
        bank: &mut Bank,
        head: ProgramHead,
        words: &Words,
    ) -> Result<bool, NoMemory>
        requires some { words.now ≡ [] → ⊥ }
        requires headless { self.old.head ≡ None }
        requires none { self.old.program ≡ None }
        ensures taken { (ds : List Decl) → IfOk result (TakesProgramWords ds (begun head) words.now (program_state self.new.head self.new.program)) }
        ensures head { self.new.head ≡ None }
        ensures program { (ds : List Decl) → IsProgramHead ds head → IsProgramOver ds self.new.program }
        ensures extends { Extends bank.old bank.new }
    {
        match program_of_words(alloc, bank, head, words)? {
            None => Ok(false),
            Some(program) => {
                drop(self.program.replace(program));
                Ok(true)
            }
        }
    }

    /// Goes on by the words of a line. Whether they lead on is the answer.
    #[tactic(auto, using(syn_expr::proofs::Growth::growth))]
    fn take_words(
        &mut self,
        alloc: Global,
        bank: &mut Bank,
        theory: &Theory,
        words: &Words,
    ) -> Result<bool, NoMemory>
        requires head { IsHeadOver (theory.now).decls self.old.head }
        requires program { IsProgramOver (theory.now).decls self.old.program }
        ensures taken { IfOk result (TakesProgramWords (theory.now).decls (program_state self.old.head self.old.program) words.now (program_state self.new.head self.new.program)) }
        ensures head { IsHeadOver (theory.now).decls self.new.head }
        ensures program { IsProgramOver (theory.now).decls self.new.program }
        ensures extends { Extends bank.old bank.new }
    {
        if words.is_empty() {
            return Ok(true);
        }
        if self.program.is_some() {
            return Ok(false);
        }
        match self.head.take() {
            None => self.begin(alloc, theory, words),
            Some(head) => self.complete(alloc, bank, head, words),
        }
    }

    /// Goes on by a line. Whether it leads on is the answer.
    #[tactic(auto, using(syn_expr::proofs::Growth::growth))]
    fn take_line(
        &mut self,
        alloc: Global,
        bank: &mut Bank,
        theory: &Theory,
        line: &[u8],
    ) -> Result<bool, NoMemory>
        requires head { IsHeadOver (theory.now).decls self.old.head }
        requires program { IsProgramOver (theory.now).decls self.old.program }
        ensures taken { IfOk result (TakesProgramLine (theory.now).decls (program_state self.old.head self.old.program) line.now (program_state self.new.head self.new.program)) }
        ensures head { IsHeadOver (theory.now).decls self.new.head }
        ensures program { IsProgramOver (theory.now).decls self.new.program }
        ensures extends { Extends bank.old bank.new }
    {
        match line_tokens(alloc, line)? {
            None => Ok(false),
            Some(found) => {
                self.take_words(alloc, bank, theory, &Words::new(line, found.as_slice()))
            }
        }
    }
}

/// Whether nothing follows the last line.
fn is_ended(cut: &Cut) -> bool
    ensures { IsTrue result ↔ (cut.now.rest.now ≡ []) }
{
    cut.rest.is_empty()
}

/// The program that the lines lead to, where one is there and nothing follows the last line.
fn finished(progress: ProgramProgress, cut: &Cut) -> Result<Program, FileError>
    ensures answer { (ds : List Decl) (bytes : List ℕ) → IsCut bytes (map (λ line. line.now) cut.now.lines.items) cut.now.rest.now → Lead (ProgramLine ds) nothing (map (λ line. line.now) cut.now.lines.items) (program_state progress.head progress.program) → ReadsText (ProgramLine ds) nothing IsWholeProgram (λ p. known (bare_program_tree p)) bytes result }
    ensures over { (ds : List Decl) → IsProgramOver ds progress.program → IfOk result (IsProgram ds) }
{
    let after = cut.lines.len() as u64 + 1;
    let ProgramProgress { head, program } = progress;
    drop(head);
    match program {
        None => Err(FileError::Bad(after)),
        Some(program) => {
            if is_ended(cut) {
                Ok(program)
            } else {
                drop(program);
                Err(FileError::Bad(after))
            }
        }
    }
}

/// The program that the lines of a text lead to. The errors are those of `read_program`.
#[tactic(auto, using(syn_expr::proofs::Growth::growth))]
fn program_in(
    alloc: Global,
    bank: &mut Bank,
    theory: &Theory,
    cut: &Cut,
) -> Result<Program, FileError>
    ensures answer { (bytes : List ℕ) → IsCut bytes (map (λ line. line.now) cut.now.lines.items) cut.now.rest.now → ReadsText (ProgramLine (theory.now).decls) nothing IsWholeProgram (λ p. known (bare_program_tree p)) bytes result }
    ensures program { IfOk result (IsProgram (theory.now).decls) }
    ensures extends { Extends bank.old bank.new }
{
    let mut progress = ProgramProgress {
        head: None,
        program: None,
    };
    for i in 0..cut.lines.len() {
        match progress.take_line(alloc, bank, theory, cut.line_at(i)) {
            Ok(true) => {}
            Ok(false) => {
                drop(progress);
                return Err(FileError::Bad(i as u64 + 1));
            }
            Err(NoMemory) => {
                drop(progress);
                return Err(FileError::NoMemory);
            }
        }
    }
    finished(progress, cut)
}

/// The program over the theory that the bytes are the text of, the terms of its body made by the bank.
/// `Bad(n)`: line n, counted from 1, is the first that may not follow those before it, or the one after
/// the last where the text ends too early; bytes after the last line feed are a line that may follow
/// nothing. What is read prints as a text that reads back, since its body is within the limit of one.
#[tactic(auto, using(syn_expr::proofs::Growth::growth))]
pub fn read_program(
    alloc: Global,
    bank: &mut Bank,
    theory: &Theory,
    bytes: &[u8],
) -> Result<Program, FileError>
    ensures answer { ReadsText (ProgramLine (theory.now).decls) nothing IsWholeProgram (λ p. known (bare_program_tree p)) bytes.now result }
    ensures one { OneText (ProgramLine (theory.now).decls) nothing IsWholeProgram bytes.now }
    ensures program { IfOk result (IsProgram (theory.now).decls) }
    ensures within { IfOk result IsBodyWithinLimit }
    ensures extends { Extends bank.old bank.new }
{
    match split_lines(alloc, bytes) {
        Err(NoMemory) => Err(FileError::NoMemory),
        Ok(cut) => program_in(alloc, bank, theory, &cut),
    }
}

// The text of a theory, line by line. What is known of it is the theory so far, or nothing yet; each line
// that may follow leads on from there.
ghost use Rattle.std.specs.Prelude.{◌≡◌, ◌↔◌, [], ℕ, All, List, IfOk, IsTrue, None, Some, map, true};
ghost use Rattle.syn_term.specs.Bank.{Extends};
ghost use Rattle.syn_lex.specs.Stepping.{Lead, OneText, ReadsText};
ghost use Rattle.syn_lex.specs.TextLines.{IsCut};
ghost use Rattle.syn_model.specs.Headings.{is_whole};
ghost use Rattle.syn_model.specs.BareTrees.{bare_decl, bare_theory_tree};
ghost use Rattle.syn_files.specs.Printed.{IsWithinLimit};
ghost use Rattle.syn_files.specs.TheoryLines.{IsWholeTheory, TheoryLine};
ghost use Rattle.syn_files.specs.inner.Telling.{ReadsDecl, TakesLine, TakesWords, seen};

use crate::decl_lines::decl_of_words;
use crate::title::titled;
use std::alloc::Global;
use syn_lex::{Cut, FileError, Words, line_tokens, split_lines};
use syn_model::{DeclError, Theory};
use syn_term::{Bank, NoMemory};

/// What is known of a theory while its lines are read: nothing yet, or its name and its declarations so
/// far.
#[derive(Drop)]
struct Progress {
    theory: Option<Theory>,
}

/// Puts down what the words declare. Whether they declare what may follow is the answer.
#[tactic(auto, using(syn_expr::proofs::Growth::growth))]
fn declare_words(
    alloc: Global,
    bank: &mut Bank,
    theory: &mut Theory,
    words: &Words,
) -> Result<bool, NoMemory>
    requires { words.now ≡ [] → ⊥ }
    ensures taken { IfOk result (TakesWords (seen (Some theory.old)) words.now (seen (Some theory.new))) }
    ensures extends { Extends bank.old bank.new }
{
    match decl_of_words(alloc, bank, theory, words)? {
        None => Ok(false),
        Some(decl) => match theory.declare(decl) {
            Ok(()) => Ok(true),
            Err(DeclError::Refused) => Ok(false),
            Err(DeclError::NoMemory) => Err(NoMemory),
        },
    }
}

impl Progress {
    /// Begins the theory that the words name. Whether they name one is the answer.
    fn begin(&mut self, alloc: Global, words: &Words) -> Result<bool, NoMemory>
        requires none { self.old.theory ≡ None }
        requires some { words.now ≡ [] → ⊥ }
        ensures { IfOk result (TakesWords (seen self.old.theory) words.now (seen self.new.theory)) }
    {
        match titled(alloc, words)? {
            None => Ok(false),
            Some(theory) => {
                drop(self.theory.replace(theory));
                Ok(true)
            }
        }
    }

    /// Goes on by the words of a line. Whether they lead on is the answer.
    #[tactic(auto, using(syn_expr::proofs::Growth::growth))]
    fn take_words(
        &mut self,
        alloc: Global,
        bank: &mut Bank,
        words: &Words,
    ) -> Result<bool, NoMemory>
        ensures taken { IfOk result (TakesWords (seen self.old.theory) words.now (seen self.new.theory)) }
        ensures extends { Extends bank.old bank.new }
    {
        if words.is_empty() {
            return Ok(true);
        }
        match &mut self.theory {
            Some(theory) => declare_words(alloc, bank, theory, words),
            None => self.begin(alloc, words),
        }
    }

    /// Goes on by a line. Whether it leads on is the answer.
    #[tactic(auto, using(syn_expr::proofs::Growth::growth))]
    fn take_line(&mut self, alloc: Global, bank: &mut Bank, line: &[u8]) -> Result<bool, NoMemory>
        ensures taken { IfOk result (TakesLine (seen self.old.theory) line.now (seen self.new.theory)) }
        ensures extends { Extends bank.old bank.new }
    {
        match line_tokens(alloc, line)? {
            None => Ok(false),
            Some(found) => self.take_words(alloc, bank, &Words::new(line, found.as_slice())),
        }
    }
}

/// Whether nothing follows the last line, and no clause is missing.
fn is_finished(theory: &Theory, cut: &Cut) -> bool
    ensures { IsTrue result ↔ (cut.now.rest.now ≡ []) × (is_whole (theory.now).decls ≡ true) }
{
    cut.rest.is_empty() && theory.is_whole()
}

/// The theory that the lines lead to, where nothing is missing and nothing follows the last line.
fn finished(progress: Progress, cut: &Cut) -> Result<Theory, FileError>
    ensures { (bytes : List ℕ) → IsCut bytes (map (λ line. line.now) cut.now.lines.items) cut.now.rest.now → Lead TheoryLine None (map (λ line. line.now) cut.now.lines.items) (seen progress.theory) → ReadsText TheoryLine None IsWholeTheory (λ t. Some (bare_theory_tree t)) bytes result }
{
    let after = cut.lines.len() as u64 + 1;
    match progress.theory {
        None => Err(FileError::Bad(after)),
        Some(theory) => {
            if is_finished(&theory, cut) {
                Ok(theory)
            } else {
                Err(FileError::Bad(after))
            }
        }
    }
}

#[tactic(auto, using(syn_expr::proofs::Growth::growth))]
fn theory_in(alloc: Global, bank: &mut Bank, cut: &Cut) -> Result<Theory, FileError>
    ensures answer { (bytes : List ℕ) → IsCut bytes (map (λ line. line.now) cut.now.lines.items) cut.now.rest.now → ReadsText TheoryLine None IsWholeTheory (λ t. Some (bare_theory_tree t)) bytes result }
    ensures extends { Extends bank.old bank.new }
{
    let mut progress = Progress { theory: None };
    for i in 0..cut.lines.len() {
        match progress.take_line(alloc, bank, cut.line_at(i)) {
            Ok(true) => {}
            Ok(false) => return Err(FileError::Bad(i as u64 + 1)),
            Err(NoMemory) => return Err(FileError::NoMemory),
        }
    }
    finished(progress, cut)
}

/// The theory that the bytes are the text of, its terms made by the bank. `Bad(n)`: line n, counted from 1,
/// is the first that may not follow those before it, or the one after the last where the text ends too
/// early; bytes after the last line feed are a line that may follow nothing. What is read prints as a text
/// that reads back, since each expression in it is within the limit of an expression.
#[tactic(auto, using(syn_expr::proofs::Growth::growth))]
pub fn read_theory(alloc: Global, bank: &mut Bank, bytes: &[u8]) -> Result<Theory, FileError>
    ensures answer { ReadsText TheoryLine None IsWholeTheory (λ t. Some (bare_theory_tree t)) bytes.now result }
    ensures one { OneText TheoryLine None IsWholeTheory bytes.now }
    ensures within { IfOk result (λ t. All IsWithinLimit t.decls) }
    ensures extends { Extends bank.old bank.new }
{
    match split_lines(alloc, bytes) {
        Err(NoMemory) => Err(FileError::NoMemory),
        Ok(cut) => theory_in(alloc, bank, &cut),
    }
}

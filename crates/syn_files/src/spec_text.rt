// The text of a specification, line by line. What is known of it is nothing yet, its name, or the
// specification so far; each line that may follow leads on from there.
ghost use Rattle.std.specs.Prelude.{◌≡◌, ◌↔◌, [], ℕ, All, List, IfOk, IsTrue, None, map};
ghost use Rattle.syn_term.specs.Bank.{Extends};
ghost use Rattle.syn_lex.specs.Stepping.{Lead, OneText, ReadsText};
ghost use Rattle.syn_lex.specs.TextLines.{IsCut};
ghost use Rattle.syn_model.specs.declared.decl.Decl.{Decl};
ghost use Rattle.syn_model.specs.BareParts.{bare_spec_tree};
ghost use Rattle.syn_model.specs.Specifications.{IsSpec, IsWholeSpec};
ghost use Rattle.syn_files.specs.PrintedSpec.{IsPartWithinLimit};
ghost use Rattle.syn_files.specs.SpecLines.{IsWholeText, SpecLine, known, nothing};
ghost use Rattle.syn_files.specs.inner.SpecTelling.{IsOver, TakesSpecLine, TakesSpecWords, state_of};

use crate::spec_forms::part_of_words;
use crate::spec_head::{head_of_words, spec_titled};
use std::alloc::Global;
use syn_lex::{Cut, FileError, Words, line_tokens, split_lines};
use syn_model::{DeclError, Spec, Theory};
use syn_term::{Bank, NoMemory, Text};

/// What is known of a specification while its lines are read: nothing yet, its name, or the specification
/// so far.
#[derive(Drop)]
struct SpecProgress {
    name: Option<Text>,
    spec: Option<Spec>,
}

/// Puts down the part that the words say. Whether they say one that may follow is the answer.
#[tactic(auto, using(syn_expr::proofs::Growth::growth))]
fn extend_words(
    alloc: Global,
    bank: &mut Bank,
    theory: &Theory,
    spec: &mut Spec,
    words: &Words,
) -> Result<bool, NoMemory>
    requires some { words.now ≡ [] → ⊥ }
    requires over { IsSpec (theory.now).decls spec.old }
    ensures taken { IfOk result (TakesSpecWords (theory.now).decls (known (bare_spec_tree spec.old)) words.now (known (bare_spec_tree spec.new))) }
    ensures over { IsSpec (theory.now).decls spec.new }
    ensures extends { Extends bank.old bank.new }
{
    match part_of_words(alloc, bank, spec, words)? {
        None => Ok(false),
        Some(part) => match spec.extend(theory, part) {
            Ok(()) => Ok(true),
            Err(DeclError::Refused) => Ok(false),
            Err(DeclError::NoMemory) => Err(NoMemory),
        },
    }
}

impl SpecProgress {
    /// Takes the name that the words give. Whether they give one is the answer.
    fn entitle(&mut self, alloc: Global, words: &Words) -> Result<bool, NoMemory>
        requires some { words.now ≡ [] → ⊥ }
        requires nameless { self.old.name ≡ None }
        requires none { self.old.spec ≡ None }
        ensures taken { (ds : List Decl) → IfOk result (TakesSpecWords ds (state_of self.old.name self.old.spec) words.now (state_of self.new.name self.new.spec)) }
        ensures none { self.new.spec ≡ None }
    {
        match spec_titled(alloc, words)? {
            None => Ok(false),
            Some(name) => {
                drop(self.name.replace(name));
                Ok(true)
            }
        }
    }

    /// Begins the specification, or its text, by the words. Whether they do is the answer.
    fn begin(&mut self, alloc: Global, theory: &Theory, words: &Words) -> Result<bool, NoMemory>
        requires some { words.now ≡ [] → ⊥ }
        requires none { self.old.spec ≡ None }
        ensures taken { IfOk result (TakesSpecWords (theory.now).decls (state_of self.old.name self.old.spec) words.now (state_of self.new.name self.new.spec)) }
        ensures over { IsOver (theory.now).decls self.new.spec }
    {
        let Some(name) = &self.name else {
            return self.entitle(alloc, words);
        };
        match head_of_words(alloc, theory, name.as_str(), words)? {
            None => Ok(false),
            Some(spec) => {
                drop(self.spec.replace(spec));
                Ok(true)
            }
        }
    }

    /// Goes on by the words of a line. Whether they lead on is the answer.
    #[tactic(auto, using(syn_expr::proofs::Growth::growth))]
    fn take_words(
        &mut self,
        alloc: Global,
        bank: &mut Bank,
        theory: &Theory,
        words: &Words,
    ) -> Result<bool, NoMemory>
        requires { IsOver (theory.now).decls self.old.spec }
        ensures taken { IfOk result (TakesSpecWords (theory.now).decls (state_of self.old.name self.old.spec) words.now (state_of self.new.name self.new.spec)) }
        ensures over { IsOver (theory.now).decls self.new.spec }
        ensures extends { Extends bank.old bank.new }
    {
        if words.is_empty() {
            return Ok(true);
        }
        match &mut self.spec {
            Some(spec) => extend_words(alloc, bank, theory, spec, words),
            None => self.begin(alloc, theory, words),
        }
    }

    /// Goes on by a line. Whether it leads on is the answer.
    #[tactic(auto, using(syn_expr::proofs::Growth::growth))]
    fn take_line(
        &mut self,
        alloc: Global,
        bank: &mut Bank,
        theory: &Theory,
        line: &[u8],
    ) -> Result<bool, NoMemory>
        requires { IsOver (theory.now).decls self.old.spec }
        ensures taken { IfOk result (TakesSpecLine (theory.now).decls (state_of self.old.name self.old.spec) line.now (state_of self.new.name self.new.spec)) }
        ensures over { IsOver (theory.now).decls self.new.spec }
        ensures extends { Extends bank.old bank.new }
    {
        match line_tokens(alloc, line)? {
            None => Ok(false),
            Some(found) => {
                self.take_words(alloc, bank, theory, &Words::new(line, found.as_slice()))
            }
        }
    }
}

/// Whether nothing follows the last line, and the output condition is there.
fn is_finished(spec: &Spec, cut: &Cut) -> bool
    ensures { IsTrue result ↔ (cut.now.rest.now ≡ []) × IsWholeSpec spec.now }
{
    cut.rest.is_empty() && spec.is_whole()
}

/// The specification that the lines lead to, where nothing is missing and nothing follows the last line.
fn finished(progress: SpecProgress, cut: &Cut) -> Result<Spec, FileError>
    ensures answer { (ds : List Decl) (bytes : List ℕ) → IsCut bytes (map (λ line. line.now) cut.now.lines.items) cut.now.rest.now → Lead (SpecLine ds) nothing (map (λ line. line.now) cut.now.lines.items) (state_of progress.name progress.spec) → ReadsText (SpecLine ds) nothing IsWholeText (λ s. known (bare_spec_tree s)) bytes result }
    ensures over { (ds : List Decl) → IsOver ds progress.spec → IfOk result (IsSpec ds) }
{
    let after = cut.lines.len() as u64 + 1;
    let SpecProgress { name, spec } = progress;
    drop(name);
    match spec {
        None => Err(FileError::Bad(after)),
        Some(spec) => {
            if is_finished(&spec, cut) {
                Ok(spec)
            } else {
                Err(FileError::Bad(after))
            }
        }
    }
}

#[tactic(auto, using(syn_expr::proofs::Growth::growth))]
fn spec_in(alloc: Global, bank: &mut Bank, theory: &Theory, cut: &Cut) -> Result<Spec, FileError>
    ensures answer { (bytes : List ℕ) → IsCut bytes (map (λ line. line.now) cut.now.lines.items) cut.now.rest.now → ReadsText (SpecLine (theory.now).decls) nothing IsWholeText (λ s. known (bare_spec_tree s)) bytes result }
    ensures spec { IfOk result (IsSpec (theory.now).decls) }
    ensures extends { Extends bank.old bank.new }
{
    let mut progress = SpecProgress {
        name: None,
        spec: None,
    };
    for i in 0..cut.lines.len() {
        match progress.take_line(alloc, bank, theory, cut.line_at(i)) {
            Ok(true) => {}
            Ok(false) => return Err(FileError::Bad(i as u64 + 1)),
            Err(NoMemory) => return Err(FileError::NoMemory),
        }
    }
    finished(progress, cut)
}

/// The specification over the theory that the bytes are the text of, its terms made by the bank. `Bad(n)`:
/// line n, counted from 1, is the first that may not follow those before it, or the one after the last
/// where the text ends too early; bytes after the last line feed are a line that may follow nothing. What is
/// read prints as a text that reads back, since each formula in it is within the limit of an expression.
#[tactic(auto, using(syn_expr::proofs::Growth::growth))]
pub fn read_spec(
    alloc: Global,
    bank: &mut Bank,
    theory: &Theory,
    bytes: &[u8],
) -> Result<Spec, FileError>
    ensures answer { ReadsText (SpecLine (theory.now).decls) nothing IsWholeText (λ s. known (bare_spec_tree s)) bytes.now result }
    ensures one { OneText (SpecLine (theory.now).decls) nothing IsWholeText bytes.now }
    ensures spec { IfOk result (IsSpec (theory.now).decls) }
    ensures within { IfOk result (λ s. All IsPartWithinLimit s.parts) }
    ensures extends { Extends bank.old bank.new }
{
    match split_lines(alloc, bytes) {
        Err(NoMemory) => Err(FileError::NoMemory),
        Ok(cut) => spec_in(alloc, bank, theory, &cut),
    }
}

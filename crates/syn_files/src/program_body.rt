// The second line of a program's text: its body.
ghost use Rattle.std.specs.Prelude.{◌≡◌, [], List, IfOk, MatchOption};
ghost use Rattle.syn_term.specs.Bank.{Extends};
ghost use Rattle.syn_model.specs.declared.decl.Decl.{Decl};
ghost use Rattle.syn_model.specs.Programs.{IsProgramHead, MayBeBody, with_body};
ghost use Rattle.syn_files.specs.inner.ProgramTelling.{IsProgramOver, ReadsBody, ReadsOut};

use std::alloc::Global;
use syn_expr::{ExprError, Scope, body_of_words};
use syn_form::Out;
use syn_lex::Words;
use syn_model::{DeclError, Program, ProgramHead};
use syn_term::{Bank, NoMemory};

/// The output that the words stand for over the head's table; None where they stand for none. The one
/// error is want of memory.
#[tactic(auto, using(syn_expr::proofs::Growth::growth))]
fn out_of(
    alloc: Global,
    bank: &mut Bank,
    head: &ProgramHead,
    words: &Words,
) -> Result<Option<Out>, NoMemory>
    ensures told { IfOk result (ReadsOut (head.now).table words.now) }
    ensures extends { Extends bank.old bank.new }
{
    let scope = Scope {
        syms: head.symbols(),
        names: &[],
        rows: false,
    };
    match body_of_words(alloc, bank, &scope, words) {
        Ok(body) => Ok(Some(body)),
        Err(ExprError::Refused) => Ok(None),
        Err(ExprError::NoMemory) => Err(NoMemory),
    }
}

/// The program of this head and body; None where the body may be none. The one error is want of memory.
fn completed(head: ProgramHead, body: Out) -> Result<Option<Program>, NoMemory>
    ensures told { IfOk result (λ o. MatchOption o (MayBeBody head body → ⊥) (λ p. MayBeBody head body × (p ≡ with_body head body))) }
    ensures over { (ds : List Decl) → IsProgramHead ds head → IfOk result (IsProgramOver ds) }
{
    match Program::new(head, body) {
        Ok(program) => Ok(Some(program)),
        Err(DeclError::Refused) => Ok(None),
        Err(DeclError::NoMemory) => Err(NoMemory),
    }
}

/// The program of this head whose body the words are; None where they are none. The one error is want of
/// memory.
#[tactic(auto, using(syn_expr::proofs::Growth::growth))]
pub(crate) fn program_of_words(
    alloc: Global,
    bank: &mut Bank,
    head: ProgramHead,
    words: &Words,
) -> Result<Option<Program>, NoMemory>
    requires { words.now ≡ [] → ⊥ }
    ensures told { (ds : List Decl) → IfOk result (ReadsBody ds head words.now) }
    ensures over { (ds : List Decl) → IsProgramHead ds head → IfOk result (IsProgramOver ds) }
    ensures extends { Extends bank.old bank.new }
{
    match out_of(alloc, bank, &head, words) {
        Ok(Some(body)) => completed(head, body),
        Ok(None) => {
            drop(head);
            Ok(None)
        }
        Err(error) => {
            drop(head);
            Err(error)
        }
    }
}

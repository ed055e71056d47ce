// The first line of a program's text: its head.
ghost use Rattle.std.specs.Prelude.{◌≡◌, [], IfOk, MatchOption};
ghost use Rattle.syn_model.specs.Heads.{MayHead, given_head};
ghost use Rattle.syn_model.specs.Programs.{headed};
ghost use Rattle.syn_model.specs.Tables.{table_of};
ghost use Rattle.syn_files.specs.inner.ProgramTelling.{Heads, IsHeadOver, ReadsProgramHead, program_line};

use crate::cursor::Cursor;
use crate::simple_lines::value_line;
use std::alloc::Global;
use syn_lex::Words;
use syn_model::{DeclError, ProgramHead, Theory};
use syn_term::{NoMemory, Sort};

/// The head of these parts; None where none may stand behind the theory's declarations. The one error is
/// want of memory.
fn head_of(
    alloc: Global,
    theory: &Theory,
    name: &str,
    inputs: &[(String, Sort)],
    value: Sort,
) -> Result<Option<ProgramHead>, NoMemory>
    ensures told { IfOk result (λ o. MatchOption o (MayHead (theory.now).decls (given_head name.now inputs.now value) [] → ⊥) (λ h. MayHead (theory.now).decls (given_head name.now inputs.now value) [] × (h ≡ headed (theory.now).decls (given_head name.now inputs.now value)))) }
    ensures over { IfOk result (IsHeadOver (theory.now).decls) }
{
    match ProgramHead::new(alloc, theory, name, inputs, value) {
        Ok(head) => Ok(Some(head)),
        Err(DeclError::Refused) => Ok(None),
        Err(DeclError::NoMemory) => Err(NoMemory),
    }
}

/// `f(a: S, ..): S`, behind the word `program`: the head that the line gives.
fn head_line(
    alloc: Global,
    theory: &Theory,
    cursor: &mut Cursor<'_>,
) -> Result<Option<ProgramHead>, NoMemory>
    ensures told { IfOk result (Heads (theory.now).decls (program_line (table_of (theory.now).decls) cursor.old.left)) }
    ensures over { IfOk result (IsHeadOver (theory.now).decls) }
{
    let Some(name) = cursor.name() else {
        return Ok(None);
    };
    let Some(inputs) = cursor.params(alloc, theory.symbols())? else {
        return Ok(None);
    };
    match value_line(theory.symbols(), cursor) {
        None => {
            drop(inputs);
            Ok(None)
        }
        Some(value) => head_of(alloc, theory, name, inputs.as_slice(), value),
    }
}

/// The head that the words give; None where they give none. The one error is want of memory.
#[tactic(auto, using(crate::proofs::ProgramHeadLaws::no_program_head))]
pub(crate) fn program_head_of_words(
    alloc: Global,
    theory: &Theory,
    words: &Words,
) -> Result<Option<ProgramHead>, NoMemory>
    ensures told { IfOk result (ReadsProgramHead (theory.now).decls words.now) }
    ensures over { IfOk result (IsHeadOver (theory.now).decls) }
{
    let mut cursor = Cursor {
        left: words.from(0),
    };
    if !cursor.word("program") {
        return Ok(None);
    }
    head_line(alloc, theory, &mut cursor)
}

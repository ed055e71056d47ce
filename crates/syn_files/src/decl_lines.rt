// What the words of a line declare, by the word that they begin with.
ghost use Rattle.std.specs.Prelude.{◌≡◌, ◌∷◌, [], IfOk, codes, false, map};
ghost use Rattle.std.specs.Str.{bytes_eq};
ghost use Rattle.syn_term.specs.Bank.{Extends};
ghost use Rattle.syn_form.specs.Grammar.{name_word};
ghost use Rattle.syn_model.specs.BareTrees.{bare_decl};
ghost use Rattle.syn_files.specs.inner.Telling.{IsOtherKeyword, ReadsDecl};

use crate::axiom_lines::axiom_line;
use crate::clause_lines::clause_line;
use crate::cursor::{Cursor, is_text};
use crate::mono_lines::mono_line;
use crate::order_lines::order_line;
use crate::simple_lines::{fun_line, rel_line, sort_line};
use std::alloc::Global;
use syn_lex::Words;
use syn_model::{Decl, Theory};
use syn_term::{Bank, NoMemory};

/// What a line declares that begins with this word and goes on so, where expressions stand in it.
#[tactic(auto, using(syn_expr::proofs::Growth::growth))]
fn with_expressions(
    alloc: Global,
    bank: &mut Bank,
    theory: &Theory,
    keyword: &str,
    cursor: &mut Cursor<'_>,
) -> Result<Option<Decl>, NoMemory>
    requires { IsOtherKeyword keyword.now }
    ensures told { IfOk result (ReadsDecl (map bare_decl (theory.now).decls) (name_word keyword.now ∷ cursor.old.left)) }
    ensures extends { Extends bank.old bank.new }
{
    if is_text(keyword, "axiom") {
        return axiom_line(alloc, bank, theory, cursor);
    }
    if is_text(keyword, "mono") {
        return mono_line(alloc, theory.symbols(), cursor);
    }
    if is_text(keyword, "order") {
        return order_line(alloc, bank, theory, cursor);
    }
    if is_text(keyword, "clause") {
        return clause_line(alloc, bank, theory, cursor);
    }
    Ok(None)
}

/// What a line declares that begins with this word and goes on so.
#[tactic(auto, using(syn_expr::proofs::Growth::growth))]
fn decl_behind(
    alloc: Global,
    bank: &mut Bank,
    theory: &Theory,
    keyword: &str,
    cursor: &mut Cursor<'_>,
) -> Result<Option<Decl>, NoMemory>
    ensures told { IfOk result (ReadsDecl (map bare_decl (theory.now).decls) (name_word keyword.now ∷ cursor.old.left)) }
    ensures extends { Extends bank.old bank.new }
{
    if is_text(keyword, "sort") {
        return sort_line(alloc, theory.symbols(), cursor);
    }
    if is_text(keyword, "fun") {
        return fun_line(alloc, theory.symbols(), cursor);
    }
    if is_text(keyword, "rel") {
        return rel_line(alloc, theory.symbols(), cursor);
    }
    with_expressions(alloc, bank, theory, keyword, cursor)
}

/// What the words of a line declare behind the declarations of the theory; None where they declare
/// nothing that may follow. The one error is want of memory.
#[tactic(auto, using(syn_expr::proofs::Growth::growth))]
pub(crate) fn decl_of_words(
    alloc: Global,
    bank: &mut Bank,
    theory: &Theory,
    words: &Words,
) -> Result<Option<Decl>, NoMemory>
    ensures told { IfOk result (ReadsDecl (map bare_decl (theory.now).decls) words.now) }
    ensures extends { Extends bank.old bank.new }
{
    let mut cursor = Cursor {
        left: words.from(0),
    };
    match cursor.name() {
        None => Ok(None),
        Some(keyword) => decl_behind(alloc, bank, theory, keyword, &mut cursor),
    }
}

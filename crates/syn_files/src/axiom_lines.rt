// Axioms: a name and a formula.
ghost use Rattle.std.specs.Prelude.{◌≡◌, ◌∷◌, IfOk, MatchOption, None, Some, codes, map};
ghost use Rattle.syn_term.specs.Bank.{Extends};
ghost use Rattle.syn_form.specs.Grammar.{name_word};
ghost use Rattle.syn_model.specs.BareTrees.{bare_decl};
ghost use Rattle.syn_model.specs.declared.decl.Decl.TheVariants as decl;
ghost use Rattle.syn_files.specs.inner.Firsts.{got};
ghost use Rattle.syn_files.specs.inner.SimpleLines.{entry_first};
ghost use Rattle.syn_files.specs.inner.Telling.{ReadsDecl};

use crate::cursor::Cursor;
use std::alloc::Global;
use syn_expr::{ExprError, Scope, qform_of_words};
use syn_form::QForm;
use syn_model::{Decl, Theory};
use syn_term::{Bank, NoMemory, Text};

/// The name before a colon, at the front.
pub(crate) fn entry_name<'a>(cursor: &mut Cursor<'a>) -> Option<&'a str>
    ensures { MatchOption result (entry_first cursor.old.left ≡ None) (λ name. entry_first cursor.old.left ≡ Some (got name.now cursor.new.left)) }
{
    match cursor.name() {
        None => None,
        Some(name) => { if cursor.sign(b":") { Some(name) } else { None } }
    }
}

fn axiom(alloc: Global, name: &str, form: QForm) -> Result<Decl, NoMemory>
    ensures { IfOk result (λ d. d ≡ decl.Axiom name.now form) }
{
    match Text::from_str(alloc, name) {
        Ok(name) => Ok(Decl::Axiom { name, form }),
        Err(_) => {
            drop(form);
            Err(NoMemory)
        }
    }
}

/// The axiom that a line declares, behind the word `axiom`; None where it declares none. The one error is
/// want of memory.
#[tactic(auto, using(syn_expr::proofs::Growth::growth))]
pub(crate) fn axiom_line(
    alloc: Global,
    bank: &mut Bank,
    theory: &Theory,
    cursor: &mut Cursor<'_>,
) -> Result<Option<Decl>, NoMemory>
    ensures told { IfOk result (ReadsDecl (map bare_decl (theory.now).decls) (name_word (codes "axiom") ∷ cursor.old.left)) }
    ensures extends { Extends bank.old bank.new }
{
    let Some(name) = entry_name(cursor) else {
        return Ok(None);
    };
    let scope = Scope {
        syms: theory.symbols(),
        names: &[],
        rows: false,
    };
    match qform_of_words(alloc, bank, &scope, &cursor.left) {
        Ok(form) => Ok(Some(axiom(alloc, name, form)?)),
        Err(ExprError::Refused) => Ok(None),
        Err(ExprError::NoMemory) => Err(NoMemory),
    }
}

// Orders: a name, parameters, and the measure.
ghost use Rattle.std.specs.Prelude.{◌≡◌, ◌↔◌, ◌∷◌, IfOk, IsTrue, codes, map};
ghost use Rattle.syn_term.specs.Bank.{Extends};
ghost use Rattle.syn_form.specs.Grammar.{name_word};
ghost use Rattle.syn_model.specs.BareTrees.{bare_decl};
ghost use Rattle.syn_model.specs.Heads.{given_param, given_sort};
ghost use Rattle.syn_model.specs.declared.decl.Decl.TheVariants as decl;
ghost use Rattle.syn_files.specs.inner.Orders.{HaveLineNames, ReadsMeasure, ReadsOrder};
ghost use Rattle.syn_files.specs.inner.Telling.{ReadsDecl};

use crate::cursor::Cursor;
use crate::params::{numbered_names, param_sorts};
use std::alloc::Global;
use syn_expr::{ExprError, Scope, term_of_words};
use syn_lex::Words;
use syn_model::{Decl, Theory, are_distinct_names, are_new_inputs};
use syn_term::{Bank, NoMemory, Sort, Symbols, Term, Text};

/// Whether the parameters of an order have names that are new and differ, also from its own.
fn have_line_names(theory: &Theory, name: &str, params: &[(String, Sort)]) -> bool
    ensures { IsTrue result ↔ HaveLineNames (map bare_decl (theory.now).decls) name.now (map given_param params.now) }
{
    are_new_inputs(theory, params) && are_distinct_names(name, params)
}

/// The term that the words stand for over the parameters; None where they stand for none. The one error
/// is want of memory, as of each of these.
#[tactic(auto, using(syn_expr::proofs::Growth::growth))]
fn measure_of(
    alloc: Global,
    bank: &mut Bank,
    syms: &Symbols,
    params: &[(String, Sort)],
    words: &Words,
) -> Result<Option<Term>, NoMemory>
    ensures told { IfOk result (ReadsMeasure syms.now (map given_param params.now) words.now) }
    ensures extends { Extends bank.old bank.new }
{
    let names = numbered_names(alloc, params)?;
    let scope = Scope {
        syms,
        names: names.as_slice(),
        rows: false,
    };
    match term_of_words(alloc, bank, &scope, words) {
        Ok(term) => Ok(Some(term)),
        Err(ExprError::Refused) => Ok(None),
        Err(ExprError::NoMemory) => Err(NoMemory),
    }
}

fn order(
    alloc: Global,
    name: &str,
    params: &[(String, Sort)],
    measure: Term,
) -> Result<Decl, NoMemory>
    ensures { IfOk result (λ d. d ≡ decl.Order name.now (map given_sort params.now) measure) }
{
    let Ok(args) = param_sorts(alloc, params) else {
        drop(measure);
        return Err(NoMemory);
    };
    match Text::from_str(alloc, name) {
        Ok(name) => Ok(Decl::Order {
            name,
            args,
            measure,
        }),
        Err(_) => {
            drop(measure);
            drop(args);
            Err(NoMemory)
        }
    }
}

/// The order with this name and these parameters whose line ends with the words that are left; None where
/// none ends so.
#[tactic(auto, using(syn_expr::proofs::Growth::growth))]
fn order_behind(
    alloc: Global,
    bank: &mut Bank,
    theory: &Theory,
    name: &str,
    params: &[(String, Sort)],
    cursor: &mut Cursor<'_>,
) -> Result<Option<Decl>, NoMemory>
    ensures told { IfOk result (ReadsOrder (map bare_decl (theory.now).decls) name.now (map given_param params.now) cursor.old.left) }
    ensures extends { Extends bank.old bank.new }
{
    if !cursor.word("by") {
        return Ok(None);
    }
    if !have_line_names(theory, name, params) {
        return Ok(None);
    }
    match measure_of(alloc, bank, theory.symbols(), params, &cursor.left)? {
        None => Ok(None),
        Some(measure) => Ok(Some(order(alloc, name, params, measure)?)),
    }
}

/// The order that a line declares, behind the word `order`; None where it declares none.
#[tactic(auto, using(syn_expr::proofs::Growth::growth))]
pub(crate) fn order_line(
    alloc: Global,
    bank: &mut Bank,
    theory: &Theory,
    cursor: &mut Cursor<'_>,
) -> Result<Option<Decl>, NoMemory>
    ensures told { IfOk result (ReadsDecl (map bare_decl (theory.now).decls) (name_word (codes "order") ∷ cursor.old.left)) }
    ensures extends { Extends bank.old bank.new }
{
    let Some(name) = cursor.name() else {
        return Ok(None);
    };
    match cursor.params(alloc, theory.symbols())? {
        None => Ok(None),
        Some(params) => order_behind(alloc, bank, theory, name, params.as_slice(), cursor),
    }
}

// What stands behind the kind of a row: its formula, and maybe its output behind a bar.
ghost use Rattle.std.specs.Prelude.{◌≡◌, ◌↔◌, ◌∷◌, IfOk, IfSome, IsTrue, MatchOption, Some, codes, false, slice_get, true};
ghost use Rattle.syn_term.specs.Bank.{Extends};
ghost use Rattle.syn_form.specs.Grammar.{sign_word};
ghost use Rattle.syn_form.specs.Plain as plain;
ghost use Rattle.syn_form.specs.Texts.{IsFormOf, IsOutOf, expression_limit};
ghost use Rattle.syn_form.specs.Trees.{bare_form, bare_out};
ghost use Rattle.syn_expr.specs.Belonging.{FormBelongs, OutBelongs};
ghost use Rattle.syn_expr.specs.Scopes.{spoken};
ghost use Rattle.syn_expr.specs.TextAnswers.{OneAtMost};
ghost use Rattle.syn_row.specs.Rows.{bare_row};
ghost use Rattle.syn_start.specs.Rows.{IsRowOf};
ghost use Rattle.syn_deriv.specs.DerivationLines as lines;
ghost use Rattle.syn_deriv.specs.DerivationLines.{IsTextRow};
ghost use Rattle.syn_deriv.specs.inner.Telling.{IsBack, IsCutAt, IsOther, Tells, WritesBack, WritesBehind};

use crate::cursor::is_sign;
use std::alloc::Global;
use syn_expr::{ExprError, Scope, form_of_words, out_of_words};
use syn_form::{Form, Out, Side, given_sort};
use syn_lex::Words;
use syn_row::{Row, is_plain_row, is_within};
use syn_start::Start;
use syn_term::{Bank, NoMemory, Sort, Symbols};

/// What rows may speak of: the symbols, row variables and no names.
pub(crate) fn row_scope(syms: &Symbols) -> Scope<'_>
    ensures { spoken result ≡ lines.row_scope syms.now }
{
    Scope {
        syms,
        names: &[],
        rows: true,
    }
}

/// The formula that the words are; None where they are none. The one error of each of these is want of
/// memory.
#[tactic(auto, using(syn_expr::proofs::Growth::growth))]
fn row_form(
    alloc: Global,
    bank: &mut Bank,
    syms: &Symbols,
    words: &Words,
) -> Result<Option<Form>, NoMemory>
    ensures told { IfOk result (Tells bare_form (IsFormOf expression_limit (lines.row_scope syms.now) words.now)) }
    ensures one { OneAtMost (IsFormOf expression_limit (lines.row_scope syms.now) words.now) }
    ensures belongs { IfOk result (λ o. IfSome o (FormBelongs bank.new)) }
    ensures extends { Extends bank.old bank.new }
{
    match form_of_words(alloc, bank, &row_scope(syms), words) {
        Ok(form) => Ok(Some(form)),
        Err(ExprError::Refused) => Ok(None),
        Err(ExprError::NoMemory) => Err(NoMemory),
    }
}

/// The output that the words are; None where they are none.
#[tactic(auto, using(syn_expr::proofs::Growth::growth))]
fn row_out(
    alloc: Global,
    bank: &mut Bank,
    syms: &Symbols,
    words: &Words,
) -> Result<Option<Out>, NoMemory>
    ensures told { IfOk result (Tells bare_out (IsOutOf expression_limit (lines.row_scope syms.now) words.now)) }
    ensures one { OneAtMost (IsOutOf expression_limit (lines.row_scope syms.now) words.now) }
    ensures belongs { IfOk result (λ o. IfSome o (OutBelongs bank.new)) }
    ensures extends { Extends bank.old bank.new }
{
    match out_of_words(alloc, bank, &row_scope(syms), words) {
        Ok(out) => Ok(Some(out)),
        Err(ExprError::Refused) => Ok(None),
        Err(ExprError::NoMemory) => Err(NoMemory),
    }
}

/// Whether the word with k words before it is the bar.
fn is_bar_at(words: &Words, k: usize) -> bool
    ensures other { result ≡ false → (w : _) → slice_get words.now k ≡ Some w → IsOther (codes "|") w }
    ensures same { result ≡ true → slice_get words.now k ≡ Some (sign_word (codes "|")) }
{
    match words.get(k) {
        None => false,
        Some((kind, bytes)) => is_sign(kind, bytes, b"|"),
    }
}

/// How many words stand before the first bar; all where none stands.
fn bar_place(words: &Words) -> usize
    ensures { IsCutAt words.now result }
{
    for k in 0..words.len() {
        if is_bar_at(words, k) {
            return k;
        }
    }
    words.len()
}

/// Whether the output gives a term of this sort.
fn gives(syms: &Symbols, out: &Out, sort: Sort) -> bool
    ensures { IsTrue result ↔ (plain.given_sort syms.now out.now ≡ Some sort) }
{
    given_sort(syms, out) == Some(sort)
}

/// Whether the output gives a term of the sort of the program's result.
fn gives_result(start: &Start, out: &Out) -> bool
    ensures { IsTrue result ↔ (plain.given_sort (start.now).spec.table out.now ≡ Some (start.now).spec.head.result) }
{
    let (_, sort) = start.spec().output();
    gives(start.symbols(), out, sort)
}

/// The same, where there is an output.
fn has_result(start: &Start, out: &Option<Out>) -> bool
    ensures { IsTrue result ↔ IfSome out.now (λ o. plain.given_sort (start.now).spec.table o ≡ Some (start.now).spec.head.result) }
{
    match out {
        None => true,
        Some(out) => gives_result(start, out),
    }
}

/// Whether the row may stand in a text.
fn is_text_row(alloc: Global, start: &Start, row: &Row) -> Result<bool, NoMemory>
    ensures { IfOk result (λ b. IsTrue b ↔ IsTextRow start.now row.now) }
{
    if !is_within(row) {
        return Ok(false);
    }
    if !has_result(start, &row.out) {
        return Ok(false);
    }
    is_plain_row(alloc, start.symbols(), row)
}

/// The row, where it may stand in a text; else None.
fn text_row(alloc: Global, start: &Start, row: Row) -> Result<Option<Row>, NoMemory>
    ensures { IfOk result (λ o. MatchOption o (IsTextRow start.now row → ⊥) (λ r. (r ≡ row) × IsTextRow start.now row)) }
{
    match is_text_row(alloc, start, &row) {
        Ok(true) => Ok(Some(row)),
        Ok(false) => {
            drop(row);
            Ok(None)
        }
        Err(error) => {
            drop(row);
            Err(error)
        }
    }
}

/// The row of this side and formula with the output that the words are.
#[tactic(auto, using(syn_expr::proofs::Growth::growth))]
fn with_out(
    alloc: Global,
    bank: &mut Bank,
    start: &Start,
    side: Side,
    form: Form,
    words: &Words,
) -> Result<Option<Row>, NoMemory>
    requires { FormBelongs bank.old form }
    ensures told { IfOk result (Tells bare_row (WritesBack start.now side (bare_form form) (sign_word (codes "|") ∷ words.now))) }
    ensures row { IfOk result (λ o. IfSome o (IsRowOf start.now bank.new)) }
    ensures extends { Extends bank.old bank.new }
{
    match row_out(alloc, bank, start.symbols(), words) {
        Ok(Some(out)) => text_row(
            alloc,
            start,
            Row {
                side,
                form,
                out: Some(out),
            },
        ),
        Ok(None) => {
            drop(form);
            Ok(None)
        }
        Err(error) => {
            drop(form);
            Err(error)
        }
    }
}

/// The row of this side and formula with what stands behind the formula: nothing, or a bar and the output.
#[tactic(auto, using(syn_expr::proofs::Growth::growth))]
fn with_back(
    alloc: Global,
    bank: &mut Bank,
    start: &Start,
    side: Side,
    form: Form,
    back: &Words,
) -> Result<Option<Row>, NoMemory>
    requires belongs { FormBelongs bank.old form }
    requires back { IsBack back.now }
    ensures told { IfOk result (Tells bare_row (WritesBack start.now side (bare_form form) back.now)) }
    ensures row { IfOk result (λ o. IfSome o (IsRowOf start.now bank.new)) }
    ensures extends { Extends bank.old bank.new }
{
    if back.is_empty() {
        return text_row(
            alloc,
            start,
            Row {
                side,
                form,
                out: None,
            },
        );
    }
    with_out(alloc, bank, start, side, form, &back.from(1))
}

/// The row of this side that stands behind the kind; None where none does.
#[tactic(auto, using(syn_expr::proofs::Growth::growth))]
pub(crate) fn row_behind(
    alloc: Global,
    bank: &mut Bank,
    start: &Start,
    side: Side,
    words: &Words,
) -> Result<Option<Row>, NoMemory>
    ensures told { IfOk result (Tells bare_row (WritesBehind start.now side words.now)) }
    ensures row { IfOk result (λ o. IfSome o (IsRowOf start.now bank.new)) }
    ensures extends { Extends bank.old bank.new }
{
    let place = bar_place(words);
    match row_form(alloc, bank, start.symbols(), &words.until(place))? {
        None => Ok(None),
        Some(form) => with_back(alloc, bank, start, side, form, &words.from(place)),
    }
}

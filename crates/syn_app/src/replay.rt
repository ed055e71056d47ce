// The replay of a derivation, as a loop over its rows. A specification whose condition is `z = T`,
// T without variables, has rows of two shapes alone: variants of its goal, `?n = T | ?n`, and
// `true | T`, which the reflection of such a goal gives. So the check of a row looks for these
// shapes; the law in proofs/Steps.antt ties them to the rules.
ghost use Rattle.std.specs.Prelude.{◌≡◌, ◌↔◌, ℕ, [], ◌∷◌, ◌++◌, map, length, IsTrue, IfOk, OnOk, MatchOption, MatchResult};
ghost use Rattle.std.specs.Option.{option_copied};
ghost use Rattle.syn_term.specs.Bank.{Belongs, Extends};
ghost use Rattle.syn_term.specs.Terms.{bare};
ghost use Rattle.syn_app.specs.DerivationText.{entry_of};
ghost use Rattle.syn_app.specs.Replay.{row_at, simplified_rows};
ghost use Rattle.syn_app.specs.Rows.{bare_form, bare_row};
ghost use Rattle.syn_app.specs.inner.Shapes.{AreShaped, FirstUnshaped, HasEquation, HasTexts, HaveShape, IsEquation, IsNextRow, IsOpen, RowAgrees, StepGives, row_variable, solved_goal};

use crate::flat::{FlatRow, Row, Step};
use crate::rows::{row_of, simplified};
use crate::trees::{Form, Out};
use sqlite_items::at;
use std::alloc::Global;
use syn_term::{Bank, Head, NoMemory, Sort, Symbols, Term, Var};

/// Why a derivation isn't accepted.
#[derive(Clone, Copy, Debug, PartialEq, Eq)]
pub(crate) enum CheckError {
    /// The row with this number, from 1, is the first that doesn't follow.
    NotFollows(u64),
    /// Each row follows, and there is none, or the last isn't final.
    NotFinal,
    /// Memory was refused.
    NoMemory,
}

impl From<NoMemory> for CheckError {
    ghost use Rattle.syn_app.specs.declared.replay.CheckError.{CheckError};
    ghost use Rattle.syn_app.specs.declared.replay.CheckError.TheVariants as error;

    ghost from_gives = { λ _ e. e ≡ error.NoMemory };

    fn from(_error: NoMemory) -> CheckError {
        CheckError::NoMemory
    }
}

/// The number of the row variable that the term is.
fn row_variable_of(term: &Term) -> Option<u32>
    ensures { MatchOption result ((n : ℕ) → ¬ (bare term.now ≡ row_variable n)) (λ n. bare term.now ≡ row_variable n) }
{
    match term.head() {
        Head::Var(
            Var {
                number,
                sort: Sort::Nat,
            },
        ) => Some(number),
        _ => None,
    }
}

/// Whether the two terms are one row variable.
fn same_variable(a: &Term, b: &Term) -> bool
    ensures { IsTrue result ↔ ((n : ℕ) × (bare a.now ≡ row_variable n) × (bare b.now ≡ row_variable n)) }
{
    match (row_variable_of(a), row_variable_of(b)) {
        (Some(m), Some(n)) => m == n,
        _ => false,
    }
}

/// Whether the row is a variant of the goal.
fn is_open(target: &Term, row: &Row) -> bool
    requires { RowAgrees row.now target.now }
    ensures { IsTrue result ↔ IsOpen (bare target.now) (bare_row row.now) }
{
    let Out::Give(out) = &row.out;
    match &row.form {
        Form::True => false,
        Form::Equal(left, right) => same_variable(left, out) && right.same(target),
    }
}

/// Whether the row is `true`, with the target as its output.
fn is_solved(target: &Term, row: &Row) -> bool
    requires { RowAgrees row.now target.now }
    ensures { IsTrue result ↔ (bare_row row.now ≡ solved_goal (bare target.now)) }
{
    let Out::Give(out) = &row.out;
    match &row.form {
        Form::True => out.same(target),
        Form::Equal(_, _) => false,
    }
}

/// The row with this number, from 1.
fn numbered(rows: &[Row], number: u32) -> Option<&Row>
    ensures { option_copied result ≡ row_at rows.now number }
{
    if number == 0 {
        None
    } else {
        at(rows, number as usize - 1)
    }
}

/// Whether the formula is an equality.
fn is_equation(form: &Form) -> bool
    ensures { IsTrue result ↔ IsEquation (bare_form form.now) }
{
    matches!(form, Form::Equal(_, _))
}

/// Whether there is a row with this number, from 1, and its formula is an equality.
#[tactic(auto, using(crate::proofs::Numbered::bare_row_at))]
fn has_equation(rows: &[Row], number: u32) -> bool
    ensures { IsTrue result ↔ HasEquation (row_at (map bare_row rows.now) number) }
{
    match numbered(rows, number) {
        None => false,
        Some(row) => is_equation(&row.form),
    }
}

/// Whether the step gives the row from the rows before it.
fn follows(target: &Term, before: &[Row], step: Step, row: &Row) -> bool
    requires shapes { HaveShape (bare target.now) (map bare_row before.now) }
    requires agrees { RowAgrees row.now target.now }
    ensures { IsTrue result ↔ StepGives (bare target.now) (map bare_row before.now) step (bare_row row.now) }
{
    match step {
        Step::Goal => is_open(target, row),
        Step::Reflex { row: parent } => has_equation(before, parent) && is_solved(target, row),
    }
}

/// The row, simplified; None exactly where it doesn't follow from those before it.
#[tactic(auto, using(crate::proofs::Growth::growth))]
fn next_row(
    alloc: Global,
    bank: &mut Bank,
    syms: &Symbols,
    target: &Term,
    before: &[Row],
    flat: &FlatRow,
) -> Result<Option<Row>, NoMemory>
    requires table { HasTexts syms.now }
    requires target { Belongs bank.old target.now }
    requires shapes { HaveShape (bare target.now) (map bare_row before.now) }
    ensures row { IfOk result (IsNextRow (bare target.now) (map bare_row before.now) flat.now) }
    ensures extends { Extends bank.old bank.new }
{
    let row = row_of(alloc, bank, syms, flat)?;
    let row = simplified(row);
    if follows(target, before, flat.step, &row) {
        Ok(Some(row))
    } else {
        Ok(None)
    }
}

/// Puts the row at the end.
fn keep(rows: &mut Vec<Row>, row: Row) -> Result<(), NoMemory>
    ensures { OnOk result (rows.new.items ≡ rows.old.items ++ row ∷ []) }
{
    rows.push(row).map_err(|_| NoMemory)
}

/// The rows, simplified, each of which follows from those before it.
#[tactic(auto, using(crate::proofs::Growth::growth))]
pub(crate) fn replay(
    alloc: Global,
    bank: &mut Bank,
    syms: &Symbols,
    target: &Term,
    rows: &[FlatRow],
) -> Result<Vec<Row>, CheckError>
    requires table { HasTexts syms.now }
    requires target { Belongs bank.old target.now }
    ensures rows { MatchResult result (λ kept. (map bare_row kept.items ≡ simplified_rows (map entry_of rows.now)) × AreShaped (bare target.now) (map entry_of rows.now) (length rows.now)) (FirstUnshaped (bare target.now) (map entry_of rows.now)) }
    ensures extends { Extends bank.old bank.new }
{
    let mut kept = Vec::new(alloc);
    for i in 0..rows.len() {
        match next_row(alloc, bank, syms, target, kept.as_slice(), &rows[i])? {
            None => return Err(CheckError::NotFollows(i as u64 + 1)),
            Some(row) => keep(&mut kept, row)?,
        }
    }
    Ok(kept)
}

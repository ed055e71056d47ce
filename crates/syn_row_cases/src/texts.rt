// Rows as texts: `goal` or `assert`, the formula, and behind a bar the output.
ghost use Rattle.std.specs.Prelude.{[], All, IfOk};
ghost use Rattle.std.specs.Option.{option_map_or};
ghost use Rattle.syn_form.specs.Trees.{out_terms};
ghost use Rattle.syn_term.specs.Bank.{Belongs, Extends};
ghost use Rattle.syn_row.specs.Rows.{row_terms};

use std::alloc::Global;
use std::test::Fail;
use syn_cases::cut;
use syn_expr::{ExprError, Scope, print_form, print_out, read_form, read_out};
use syn_form::{Out, Side};
use syn_row::Row;
use syn_term::{Bank, Symbols};

/// In rows.
pub fn scope_of(syms: &Symbols) -> Scope<'_> {
    Scope {
        syms,
        names: &[],
        rows: true,
    }
}

fn refused(error: ExprError) -> Fail {
    match error {
        ExprError::Refused => Fail::new("no expression"),
        ExprError::NoMemory => Fail::new("no memory"),
    }
}

/// The output of the text, where there is one.
#[tactic(auto, using(crate::proofs::Growth::growth))]
fn read_output(
    alloc: Global,
    bank: &mut Bank,
    scope: &Scope,
    text: &str,
) -> Result<Option<Out>, Fail>
    ensures extends { Extends bank.old bank.new }
    ensures belongs { IfOk result (λ o. All (Belongs bank.new) (option_map_or out_terms o [])) }
{
    if text.is_empty() {
        return Ok(None);
    }
    match read_out(alloc, bank, scope, text) {
        Ok(out) => Ok(Some(out)),
        Err(error) => Err(refused(error)),
    }
}

/// The row of the text.
#[tactic(auto, using(crate::proofs::Growth::growth))]
pub fn read_row(alloc: Global, bank: &mut Bank, scope: &Scope, text: &str) -> Result<Row, Fail>
    ensures extends { Extends bank.old bank.new }
    ensures belongs { IfOk result (λ r. All (Belongs bank.new) (row_terms r)) }
{
    let (word, rest) = cut(text, " ");
    let (formula, output) = cut(rest, " | ");
    let side = if word == "goal" {
        Side::Goal
    } else {
        Side::Assertion
    };
    match read_form(alloc, bank, scope, formula) {
        Ok(form) => match read_output(alloc, bank, scope, output) {
            Ok(out) => Ok(Row { side, form, out }),
            Err(error) => {
                drop(form);
                Err(error)
            }
        },
        Err(error) => Err(refused(error)),
    }
}

/// The text of the row.
pub fn print_row(alloc: Global, scope: &Scope, row: &Row) -> Result<String, Fail> {
    let word = match row.side {
        Side::Goal => "goal ",
        Side::Assertion => "assert ",
    };
    let mut text = String::from_str(alloc, word)?;
    text.push_str(print_form(alloc, scope, &row.form)?.as_str())?;
    if let Some(out) = &row.out {
        text.push_str(" | ")?;
        text.push_str(print_out(alloc, scope, out)?.as_str())?;
    }
    Ok(text)
}

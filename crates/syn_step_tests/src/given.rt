// What a step gives over the rows of a derivation.
ghost use Rattle.std.specs.Prelude.{◌≡◌, All, IfOk, IfSome, map};
ghost use Rattle.syn_row.specs.Guards.{RuleBelongs};
ghost use Rattle.syn_start.specs.Rows.{IsRowOf};

use crate::reading::{derivation_of, text_of};
use crate::samples::start_of;
use sqlite_items::Items;
use std::alloc::Global;
use std::process::Abort;
use std::test::Fail;
use syn_cases::cut;
use syn_row::Row;
use syn_row_cases::{print_row, scope_of};
use syn_start::{Derivation, Start, Step};
use syn_step::result;
use syn_term::{Bank, NoMemory};

/// The rows of the lines, in their order.
fn rows_of(alloc: Global, lines: &[(Step, Row)]) -> Result<Items<Row>, NoMemory>
    ensures { IfOk result (λ rows. rows ≡ map (λ l. l.1) lines.now) }
{
    let mut rows = Items::new(alloc);
    for line in lines {
        rows.push(line.1.again()?)?;
    }
    Ok(rows)
}

/// The text of what the step gives over these rows; `none` where it gives none.
fn given_over(
    alloc: Global,
    bank: &mut Bank,
    start: &Start,
    rows: &[Row],
    step: &Step,
) -> Result<String, Fail>
    requires rule { IfSome (start.now).rule (RuleBelongs bank.old) }
    requires rows { All (IsRowOf start.now bank.old) rows.now }
{
    match result(alloc, bank, start, rows, step)? {
        None => Ok(String::from_str(alloc, "none")?),
        Some(row) => print_row(alloc, &scope_of(start.symbols()), &row),
    }
}

/// The same over the rows of these lines.
fn given_behind(
    alloc: Global,
    bank: &mut Bank,
    start: &Start,
    lines: &[(Step, Row)],
    step: &Step,
) -> Result<String, Fail>
    requires rule { IfSome (start.now).rule (RuleBelongs bank.old) }
    requires lines { All (λ l. IsRowOf start.now bank.old l.1) lines.now }
{
    let rows = rows_of(alloc, lines)?;
    given_over(alloc, bank, start, rows.as_slice(), step)
}

/// The same by the step of the last line over the rows of all others.
fn given_last(alloc: Global, bank: &mut Bank, start: &Start, d: &Derivation) -> Result<String, Fail>
    requires rule { IfSome (start.now).rule (RuleBelongs bank.old) }
    requires rows { All (λ l. IsRowOf start.now bank.old l.1) d.now }
{
    match d.lines() {
        [] => Err(Fail::new("no line")),
        [lines @ .., (step, _)] => given_behind(alloc, bank, start, lines, step),
    }
}

#[tactic(auto, using(crate::proofs::Growth::growth))]
fn given_of(alloc: Global, bank: &mut Bank, start: &Start, text: &str) -> Result<String, Fail>
    requires { IfSome (start.now).rule (RuleBelongs bank.old) }
{
    let d = derivation_of(alloc, bank, start, text)?;
    given_last(alloc, bank, start, &d)
}

fn given_from(alloc: Global, bank: &mut Bank, name: &str, text: &str) -> Result<String, Fail> {
    let start = start_of(alloc, bank, name)?;
    given_of(alloc, bank, &start, text)
}

/// The lines, and behind them one more with the rule.
fn text_with(alloc: Global, lines: &str, rule: &str) -> Result<String, Fail> {
    let mut text = text_of(alloc, lines, "\n")?;
    let number = lines.lines().count().saturating_add(1);
    text.push_str(format!(in alloc; "{number} {rule}: goal true\n")?.as_str())?;
    Ok(text)
}

/// The text of what the rule gives over the rows of these lines, for the specification of this name; `none` where it gives none.
pub fn given_text(alloc: Global, name: &str, lines: &str, rule: &str) -> Result<String, Fail> {
    let text = text_with(alloc, lines, rule)?;
    given_from(alloc, &mut Bank::new(alloc), name, text.as_str())
}

/// Whether the rule gives rows yet.
fn is_built(rule: &str) -> bool {
    let (word, _) = cut(rule, " ");
    word != "axiom" && word != "induct"
}

/// What is printed of a row in a line: a row's text has the short word for an assertion.
fn is_row(got: &str, row: &str) -> bool {
    let (kind, rest) = cut(row, " ");
    let (side, printed) = cut(got, " ");
    let same_kind = if kind == "assertion" {
        side == "assert"
    } else {
        side == kind
    };
    same_kind && printed == rest
}

/// Each step of the lines gives its row over all rows, or nothing where its rule isn't built.
pub fn gives_rows(rt: &impl Abort, alloc: Global, name: &str, lines: &str) -> Result<(), Fail> {
    for line in lines.lines() {
        let (front, row) = cut(line, ": ");
        let (_, rule) = cut(front, " ");
        let got = given_text(alloc, name, lines, rule)?;
        if is_built(rule) {
            assert!(rt; is_row(got.as_str(), row), "at {line}");
        } else {
            assert!(rt; got.as_str() == "none", "at {line}");
        }
    }
    Ok(())
}

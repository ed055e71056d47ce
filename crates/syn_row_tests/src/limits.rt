// Rows about the limits.
ghost use Rattle.std.specs.Prelude.{All, IfOk};
ghost use Rattle.syn_term.specs.Bank.{Belongs};
ghost use Rattle.syn_row.specs.Rows.{row_terms};

use std::alloc::Global;
use std::test::Fail;
use syn_form::Form;
use syn_row::{Row, canonical, is_plain_row};
use syn_row_cases::{make_table, print_row, read_row, scope_of};
use syn_term::{Bank, Shared, Symbols};

/// The text, behind another that is repeated.
fn behind(
    alloc: Global,
    first: &str,
    before: &str,
    times: u32,
    rest: &str,
) -> Result<String, Fail> {
    let mut text = String::from_str(alloc, first)?;
    for _ in 0..times {
        text.push_str(before)?;
    }
    text.push_str(rest)?;
    Ok(text)
}

/// The canonical row; None where the row passes the limit.
fn canonical_row(
    alloc: Global,
    bank: &mut Bank,
    syms: &Symbols,
    row: &Row,
) -> Result<Option<Row>, Fail>
    requires { All (Belongs bank.old) (row_terms row.now) }
{
    if !is_plain_row(alloc, syms, row)? {
        return Err(Fail::new("not plain"));
    }
    Ok(canonical(alloc, bank, syms, row)?)
}

/// Whether the row has a canonical row; a failure where it has none and something was made.
fn has_canonical(alloc: Global, bank: &mut Bank, syms: &Symbols, row: &Row) -> Result<bool, Fail>
    requires { All (Belongs bank.old) (row_terms row.now) }
{
    let made = bank.made();
    if canonical_row(alloc, bank, syms, row)?.is_some() {
        return Ok(true);
    }
    if bank.made() == made {
        Ok(false)
    } else {
        Err(Fail::new("something was made"))
    }
}

/// The same for the row of the text.
fn is_within(alloc: Global, bank: &mut Bank, syms: &Symbols, text: &str) -> Result<bool, Fail> {
    let row = read_row(alloc, bank, &scope_of(syms), text)?;
    has_canonical(alloc, bank, syms, &row)
}

/// A formula of 2,003 nodes and an output of 2,093 or more: 4,096 in all, and one more.
const WITHIN: &str = "goal le(1000, 1000) | if le(1000, 1000) then 87 else ?7";

const PAST: &str = "goal le(1000, 1000) | if le(1000, 1000) then 88 else ?7";

#[test]
fn limits_nodes(rt: HostRuntime) -> Result<(), Fail> {
    let syms = make_table(rt.alloc())?;
    let bank = &mut Bank::new(rt.alloc());
    assert!(rt; is_within(rt.alloc(), bank, &syms, WITHIN)?);
    assert!(rt; !is_within(rt.alloc(), bank, &syms, PAST)?);
    Ok(())
}

/// The row without its output, `not` before its formula.
fn negated_row(alloc: Global, bank: &Bank, row: &Row) -> Result<Row, Fail>
    requires { All (Belongs bank.now) (row_terms row.now) }
    ensures { IfOk result (λ r. All (Belongs bank.now) (row_terms r)) }
{
    let form = Form::Not(Shared::new(alloc, row.form.again()?)?);
    Ok(Row {
        side: row.side,
        form,
        out: None,
    })
}

/// The text of `le(0, N)`, N being so many successors of 1000.
fn deep_text(alloc: Global, count: u32) -> Result<String, Fail> {
    let mut text = behind(alloc, "goal le(0, ", "s(", count, "1000)")?;
    for _ in 0..count {
        text.push_str(")")?;
    }
    Ok(text)
}

fn deep_row(alloc: Global, bank: &mut Bank, syms: &Symbols, count: u32) -> Result<Row, Fail>
    ensures { IfOk result (λ r. All (Belongs bank.new) (row_terms r)) }
{
    let text = deep_text(alloc, count)?;
    read_row(alloc, bank, &scope_of(syms), text.as_str())
}

/// Whether the row with `not` before its formula has a canonical row.
fn negated_has_canonical(
    alloc: Global,
    bank: &mut Bank,
    syms: &Symbols,
    row: &Row,
) -> Result<bool, Fail>
    requires { All (Belongs bank.old) (row_terms row.now) }
{
    let row = negated_row(alloc, bank, row)?;
    has_canonical(alloc, bank, syms, &row)
}

/// Whether that row with `not` before its formula has a canonical row.
fn is_deep_within(
    alloc: Global,
    bank: &mut Bank,
    syms: &Symbols,
    count: u32,
) -> Result<bool, Fail> {
    let row = deep_row(alloc, bank, syms, count)?;
    negated_has_canonical(alloc, bank, syms, &row)
}

/// 1,200 levels, and 1,201.
#[test]
fn limits_depth(rt: HostRuntime) -> Result<(), Fail> {
    let syms = make_table(rt.alloc())?;
    let bank = &mut Bank::new(rt.alloc());
    assert!(rt; is_deep_within(rt.alloc(), bank, &syms, 197)?);
    assert!(rt; !is_deep_within(rt.alloc(), bank, &syms, 198)?);
    Ok(())
}

/// The text of the canonical row of the row of a text.
fn canonical_text(
    alloc: Global,
    bank: &mut Bank,
    syms: &Symbols,
    text: &str,
) -> Result<String, Fail> {
    let row = read_row(alloc, bank, &scope_of(syms), text)?;
    match canonical_row(alloc, bank, syms, &row)? {
        None => Err(Fail::new("past the limit")),
        Some(row) => print_row(alloc, &scope_of(syms), &row),
    }
}

/// A formula of 4,096 nodes becomes one.
#[test]
fn measures_what_is_simplified(rt: HostRuntime) -> Result<(), Fail> {
    let text = behind(rt.alloc(), "goal ", "true and ", 4094, "true | ?9")?;
    let syms = make_table(rt.alloc())?;
    let got = canonical_text(rt.alloc(), &mut Bank::new(rt.alloc()), &syms, text.as_str())?;
    assert_eq!(rt; got.as_str(), "goal true | ?1");
    Ok(())
}

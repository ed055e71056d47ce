// The canonical rows of rows, and rows that are one.
ghost use Rattle.std.specs.Prelude.{All};
ghost use Rattle.syn_term.specs.Bank.{Belongs};
ghost use Rattle.syn_row.specs.Rows.{row_terms};

use std::alloc::Global;
use std::process::Abort;
use std::test::Fail;
use syn_cases::cut;
use syn_row::{Row, canonical, is_plain_row};
use syn_row_cases::{make_table, print_row, read_row, scope_of};
use syn_term::{Bank, Symbols};

/// A row and its canonical row.
const CANONICAL: &str = "\
goal ?7 = dbl(?3) and true | ?7 => goal ?1 = dbl(?2) | ?1
goal true | s(?9) => goal true | s(?1)
goal ?5:list = cons(?2, nil) | ?2 => goal ?1:list = cons(?2, nil) | ?2
goal le(?4, ?3) | if le(?9, ?3) then ?4 else ?8 => goal le(?1, ?2) | if le(?3, ?2) then ?1 else ?4
assert le(?2, ?1) and le(?1, ?2) => assert le(?1, ?2) and le(?2, ?1)
assert le(?1, ?2) => assert le(?1, ?2)
assert not not le(?3, 0) => assert le(?1, 0)
goal le(?3, ?3) and ?8 = ?8 | ?3 => goal le(?1, ?1) | ?1
goal le(?6, 0) -> false | if true then ?7 else ?6 => goal not le(?1, 0) | ?2
goal le(0, 0) => goal le(0, 0)
goal le(?2, ?1) or le(?2, ?1) | dbl(?1) => goal le(?1, ?2) | dbl(?2)
goal false | cons(?3, ?4:list) => goal false | cons(?1, ?2:list)";

/// Two rows, and whether they are one.
const SAME: &str = "\
goal le(?1, ?2) | ?1 / goal le(?1, ?2) | ?1 => yes
goal le(?1, ?2) | ?1 / assert le(?1, ?2) | ?1 => no
goal le(?1, ?2) | ?1 / goal le(?1, ?2) => no
goal le(?1, ?2) / goal le(?1, ?2) | ?1 => no
goal le(?1, ?2) / goal le(?1, ?2) => yes
goal le(?1, ?2) | ?1 / goal le(?1, ?2) | ?2 => no
goal le(?1, ?2) | ?1 / goal le(?2, ?1) | ?1 => no";

/// The text of the canonical row.
fn canonical_text(alloc: Global, bank: &mut Bank, syms: &Symbols, row: &Row) -> Result<String, Fail>
    requires { All (Belongs bank.old) (row_terms row.now) }
{
    if !is_plain_row(alloc, syms, row)? {
        return Err(Fail::new("not plain"));
    }
    match canonical(alloc, bank, syms, row)? {
        None => Err(Fail::new("past the limit")),
        Some(row) => print_row(alloc, &scope_of(syms), &row),
    }
}

/// The text of the canonical row of the row of a text.
fn canonical_of(
    alloc: Global,
    bank: &mut Bank,
    syms: &Symbols,
    text: &str,
) -> Result<String, Fail> {
    let row = read_row(alloc, bank, &scope_of(syms), text)?;
    canonical_text(alloc, bank, syms, &row)
}

fn becomes(
    rt: &impl Abort,
    alloc: Global,
    syms: &Symbols,
    text: &str,
    want: &str,
) -> Result<(), Fail> {
    let got = canonical_of(alloc, &mut Bank::new(alloc), syms, text)?;
    assert_eq!(rt; got.as_str(), want, "at {text}");
    Ok(())
}

fn make_canonical_rows(rt: &impl Abort, alloc: Global, syms: &Symbols) -> Result<(), Fail> {
    for line in CANONICAL.lines() {
        let (text, want) = cut(line, " => ");
        becomes(rt, alloc, syms, text, want)?;
        becomes(rt, alloc, syms, want, want)?;
    }
    Ok(())
}

#[test]
fn makes_canonical_rows(rt: HostRuntime) -> Result<(), Fail> {
    let syms = make_table(rt.alloc())?;
    make_canonical_rows(&rt, rt.alloc(), &syms)
}

/// Whether the two rows are one.
fn is_one(bank: &Bank, row: &Row, other: &Row) -> bool
    requires row { All (Belongs bank.now) (row_terms row.now) }
    requires other { All (Belongs bank.now) (row_terms other.now) }
{
    row.same(other)
}

/// Whether the row is that of the text.
fn is_row_of(
    alloc: Global,
    bank: &mut Bank,
    syms: &Symbols,
    row: &Row,
    text: &str,
) -> Result<bool, Fail>
    requires { All (Belongs bank.old) (row_terms row.now) }
{
    let other = read_row(alloc, bank, &scope_of(syms), text)?;
    Ok(is_one(bank, row, &other))
}

/// Whether the rows of the two texts are one.
fn are_one(
    alloc: Global,
    bank: &mut Bank,
    syms: &Symbols,
    first: &str,
    second: &str,
) -> Result<bool, Fail> {
    let row = read_row(alloc, bank, &scope_of(syms), first)?;
    is_row_of(alloc, bank, syms, &row, second)
}

fn compare_rows(rt: &impl Abort, alloc: Global, syms: &Symbols) -> Result<(), Fail> {
    for line in SAME.lines() {
        let (texts, want) = cut(line, " => ");
        let (first, second) = cut(texts, " / ");
        let got = are_one(alloc, &mut Bank::new(alloc), syms, first, second)?;
        assert_eq!(rt; got, want == "yes", "at {line}");
    }
    Ok(())
}

#[test]
fn compares_rows(rt: HostRuntime) -> Result<(), Fail> {
    let syms = make_table(rt.alloc())?;
    compare_rows(&rt, rt.alloc(), &syms)
}

// What splitting, duality and reflexivity give.
ghost use Rattle.std.specs.Prelude.{All};
ghost use Rattle.syn_term.specs.Bank.{Belongs};
ghost use Rattle.syn_row.specs.Rows.{row_terms};

use crate::replacing::given_text;
use std::alloc::Global;
use std::process::Abort;
use std::test::Fail;
use syn_cases::cut;
use syn_resolve::{dual, reflex, split};
use syn_row::{Row, is_plain_row};
use syn_row_cases::{make_table, pos_of, read_row, scope_of};
use syn_term::{Bank, Symbols, decimal_number};

/// A row, a member, and the row that splitting gives; `none` where it gives none.
const SPLIT: &str = "\
goal le(a, b) -> b = ?1 | ?1 / 1 => assert le(a, b) | ?1
goal le(a, b) -> b = ?1 | ?1 / 2 => goal b = ?1 | ?1
goal le(a, b) -> b = ?1 | ?1 / 0 => none
goal le(a, b) -> b = ?1 | ?1 / 3 => none
assert le(a, b) and le(b, a) / 1 => assert le(a, b)
assert le(a, b) and le(b, a) / 2 => assert le(b, a)
assert le(a, b) and le(b, a) / 0 => none
assert le(a, b) and le(b, a) / 3 => none
assert le(a, b) or le(b, a) / 1 => none
assert le(a, b) -> le(b, a) / 1 => none
goal le(a, b) and le(b, a) / 1 => none
goal le(a, ?4) or le(?7, a) or le(b, ?4) | ?7 / 2 => goal le(?1, a) | ?1
goal le(a, ?4) or le(?7, a) or le(b, ?4) | ?7 / 3 => goal le(b, ?1) | ?2
goal not (le(a, b) and le(b, a)) / 1 => none
goal le(a, b) | a / 1 => none";

/// A row, and the row that duality gives.
const DUAL: &str = "\
goal not le(a, b) | a => assert le(a, b) | a
goal le(a, ?3) | ?3 => assert not le(a, ?1) | ?1
assert le(a, b) => goal not le(a, b)
assert le(a, b) and le(b, a) | b => goal not (le(a, b) and le(b, a)) | b
assert true => goal false";

/// A row, a position, and the row that reflexivity gives there without guards; `none` where it gives none.
const REFLEX: &str = "\
goal ?1 = a | ?1 / - => goal true | a
goal ?4 = s(?7) and le(?7, ?4) | ?4 / 1 => goal le(?1, s(?1)) | s(?1)
assert le(a, ?1) or ?1 = b | ?1 / 2 => assert true | b
assert le(?2, ?1) and dbl(?1) = dbl(?2) / 2 => assert le(?1, ?1)
goal not dbl(?3) = ?5 -> le(?5, b) | ?5 / 1.1 => goal true | dbl(?1)
goal le(?6, a) and ?5:list = nil / 2 => goal le(?1, a)
goal s(?1) = ?1 | ?1 / - => none
goal a = b / - => none
goal a = a / - => goal true
goal le(a, b) | a / - => none
goal ?1 = a | ?1 / 1 => none
goal ?1 = a | ?1 / 3 => none
goal not ?1 = a / - => none";

/// What is done with a row.
#[derive(Clone, Copy)]
pub(crate) enum Rule<'a> {
    Split(u32),
    Dual,
    Reflex(&'a str),
}

/// What the rule gives of the row.
fn given(
    alloc: Global,
    bank: &mut Bank,
    syms: &Symbols,
    row: &Row,
    rule: Rule<'_>,
) -> Result<Option<Row>, Fail>
    requires { All (Belongs bank.old) (row_terms row.now) }
{
    if !is_plain_row(alloc, syms, row)? {
        return Err(Fail::new("not plain"));
    }
    match rule {
        Rule::Split(member) => Ok(split(alloc, bank, syms, row, member)?),
        Rule::Dual => Ok(dual(alloc, bank, syms, row)?),
        Rule::Reflex(at) => {
            let at = pos_of(alloc, at)?;
            Ok(reflex(alloc, bank, syms, None, row, &at)?)
        }
    }
}

/// The text of what the rule gives of the row of a text, `none` where it gives none.
pub(crate) fn given_of(
    alloc: Global,
    bank: &mut Bank,
    syms: &Symbols,
    text: &str,
    rule: Rule<'_>,
) -> Result<String, Fail> {
    let row = read_row(alloc, bank, &scope_of(syms), text)?;
    let given = given(alloc, bank, syms, &row, rule)?;
    given_text(alloc, syms, given)
}

/// The rule gives the row of the text.
fn gives(
    rt: &impl Abort,
    alloc: Global,
    syms: &Symbols,
    text: &str,
    rule: Rule<'_>,
    want: &str,
) -> Result<(), Fail> {
    let got = given_of(alloc, &mut Bank::new(alloc), syms, text, rule)?;
    assert_eq!(rt; got.as_str(), want, "at {text}");
    Ok(())
}

fn split_rows(rt: &impl Abort, alloc: Global, syms: &Symbols) -> Result<(), Fail> {
    for line in SPLIT.lines() {
        let (case, want) = cut(line, " => ");
        let (text, member) = cut(case, " / ");
        let rule = Rule::Split(decimal_number(member).unwrap_or(0));
        gives(rt, alloc, syms, text, rule, want)?;
    }
    Ok(())
}

#[test]
fn splits_rows(rt: HostRuntime) -> Result<(), Fail> {
    let syms = make_table(rt.alloc())?;
    split_rows(&rt, rt.alloc(), &syms)
}

fn take_duals(rt: &impl Abort, alloc: Global, syms: &Symbols) -> Result<(), Fail> {
    for line in DUAL.lines() {
        let (text, want) = cut(line, " => ");
        gives(rt, alloc, syms, text, Rule::Dual, want)?;
    }
    Ok(())
}

#[test]
fn takes_duals(rt: HostRuntime) -> Result<(), Fail> {
    let syms = make_table(rt.alloc())?;
    take_duals(&rt, rt.alloc(), &syms)
}

fn make_sides_one(rt: &impl Abort, alloc: Global, syms: &Symbols) -> Result<(), Fail> {
    for line in REFLEX.lines() {
        let (case, want) = cut(line, " => ");
        let (text, at) = cut(case, " / ");
        gives(rt, alloc, syms, text, Rule::Reflex(at), want)?;
    }
    Ok(())
}

#[test]
fn makes_sides_one(rt: HostRuntime) -> Result<(), Fail> {
    let syms = make_table(rt.alloc())?;
    make_sides_one(&rt, rt.alloc(), &syms)
}

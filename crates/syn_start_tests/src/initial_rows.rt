// The initial rows of specifications.
use crate::samples::{start_of, theory_of};
use std::alloc::Global;
use std::process::Abort;
use std::test::Fail;
use syn_cases::cut;
use syn_model::Theory;
use syn_row::Row;
use syn_row_cases::{print_row, scope_of};
use syn_start::{Start, def_row, goal_row, input_row};
use syn_term::{Bank, decimal_number};

/// A specification, a rule, and the row that it gives; `none` where it gives none.
const INITIAL: &str = "\
max2 goal => goal le(a, ?1) and le(b, ?1) and (?1 = a or ?1 = b) | ?1
max2 input => assert true
twice goal => goal ?1 = dbl(a) | ?1
twice input => assert le(0, a)
above goal => none
max2 le 1 => assert (le(?1, 0) -> ?1 = 0) and (?1 = 0 -> le(?1, 0))
max2 le 2 => assert (le(?1, s(?2)) -> (?1 = s(?2) or le(?1, ?2))) and ((?1 = s(?2) or le(?1, ?2)) -> le(?1, s(?2)))
max2 le 3 => none
max2 le 0 => none
max2 dbl 1 => assert dbl(0) = 0
twice dbl 2 => assert dbl(s(?1)) = s(s(dbl(?1)))
twice dbl 3 => none
twice lt 1 => assert (lt(?1, ?2) -> le(s(?1), ?2)) and (le(s(?1), ?2) -> lt(?1, ?2))
max2 least 1 => assert (le(?1, ?2) -> least(?1, ?2) = ?1) and (not le(?1, ?2) -> least(?1, ?2) = ?2)
max2 below 1 => none
max2 s 1 => none
max2 max2 1 => none
max2 other 1 => none";

/// The row of the rule: `goal`, `input`, or a name with the number of a clause.
fn row_of(alloc: Global, bank: &mut Bank, start: &Start, rule: &str) -> Result<Option<Row>, Fail> {
    let (name, number) = cut(rule, " ");
    match name {
        "goal" => Ok(goal_row(alloc, bank, start)?),
        "input" => Ok(input_row(alloc, bank, start)?),
        _ => Ok(def_row(
            alloc,
            bank,
            start,
            name,
            decimal_number(number).unwrap_or(0),
        )?),
    }
}

/// The text of the row of the rule.
fn initial_row(alloc: Global, bank: &mut Bank, start: &Start, rule: &str) -> Result<String, Fail> {
    match row_of(alloc, bank, start, rule)? {
        None => Ok(String::from_str(alloc, "none")?),
        Some(row) => print_row(alloc, &scope_of(start.symbols()), &row),
    }
}

fn initial_text(
    alloc: Global,
    bank: &mut Bank,
    theory: &Theory,
    name: &str,
    rule: &str,
) -> Result<String, Fail> {
    let start = start_of(alloc, bank, theory, name)?;
    initial_row(alloc, bank, &start, rule)
}

fn make_initial_rows(
    rt: &impl Abort,
    alloc: Global,
    bank: &mut Bank,
    theory: &Theory,
) -> Result<(), Fail> {
    for line in INITIAL.lines() {
        let (case, want) = cut(line, " => ");
        let (name, rule) = cut(case, " ");
        let got = initial_text(alloc, bank, theory, name, rule)?;
        assert_eq!(rt; got.as_str(), want, "at {line}");
    }
    Ok(())
}

#[test]
fn makes_initial_rows(rt: HostRuntime) -> Result<(), Fail> {
    let theory = theory_of(rt.alloc())?;
    make_initial_rows(&rt, rt.alloc(), &mut Bank::new(rt.alloc()), &theory)
}

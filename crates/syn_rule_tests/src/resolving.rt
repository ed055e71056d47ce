// What resolution gives.
ghost use Rattle.std.specs.Prelude.{All};
ghost use Rattle.syn_term.specs.Bank.{Belongs};
ghost use Rattle.syn_row.specs.Rows.{row_terms};

use crate::replacing::given_text;
use std::alloc::Global;
use std::process::Abort;
use std::test::Fail;
use syn_cases::cut;
use syn_resolve::resolve;
use syn_row::{Row, is_plain_row};
use syn_row_cases::{give_one_sort, make_table, positions_of, read_row, scope_of};
use syn_term::{Bank, Pos, Symbols};

/// Two rows, each with its positions, and the row that resolution gives without guards; `none` where it gives none.
const RESOLVED: &str = "\
goal le(a, b) | b @ - / goal not le(a, b) | a @ 1 => goal true | if le(a, b) then b else a
assert a = 0 or le(a, b) @ 2 / assert not le(a, b) or b = 0 @ 1.1 => assert true
assert not le(a, b) or b = 0 @ 1.1 / assert a = 0 or le(a, b) @ 2 => assert b = 0 or a = 0
goal le(a, ?1) and le(?1, b) | ?1 @ 1 / assert le(?1, ?1) or a = b @ 1 => goal le(a, b) and not a = b | a
goal le(a, ?1) and le(?2, b) | ?1 @ 1,2 / assert le(?1, ?1) @ - => none
goal le(a, ?1) and le(?2, a) | ?1 @ 1,2 / assert le(?1, ?1) @ - => goal true | a
goal le(a, ?1) | ?1 @ - / assert le(b, ?1) @ - => none
goal le(a, b) | a @ 1 / assert le(a, b) @ - => none
goal le(a, b) | a @ -,- / assert le(a, b) @ - => none
goal le(a, b) | a @ - / assert le(a, b) @ 3 => none
goal le(a, ?3) | s(?3) @ - / goal not le(a, ?3) | ?3 @ 1 => goal true | if le(a, ?1) then s(?1) else ?1
goal not le(a, b) @ 1 / goal not le(a, b) @ 1 => goal false";

/// The row that resolution gives of the two.
fn resolvent(
    alloc: Global,
    bank: &mut Bank,
    syms: &Symbols,
    r: &Row,
    ps: &[Pos],
    s: &Row,
    qs: &[Pos],
) -> Result<Option<Row>, Fail>
    requires first { All (Belongs bank.old) (row_terms r.now) }
    requires second { All (Belongs bank.old) (row_terms s.now) }
{
    if !is_plain_row(alloc, syms, r)? {
        return Err(Fail::new("the first is not plain"));
    }
    if !is_plain_row(alloc, syms, s)? {
        return Err(Fail::new("the second is not plain"));
    }
    if !give_one_sort(syms, &r.out, &s.out) {
        return Err(Fail::new("outputs of two sorts"));
    }
    Ok(resolve(alloc, bank, syms, None, r, ps, s, qs)?)
}

fn resolved_with(
    alloc: Global,
    bank: &mut Bank,
    syms: &Symbols,
    r: &Row,
    ps: &[Pos],
    second: &str,
    qs: &[Pos],
) -> Result<String, Fail>
    requires { All (Belongs bank.old) (row_terms r.now) }
{
    let s = read_row(alloc, bank, &scope_of(syms), second)?;
    let given = resolvent(alloc, bank, syms, r, ps, &s, qs)?;
    given_text(alloc, syms, given)
}

fn resolved_at(
    alloc: Global,
    bank: &mut Bank,
    syms: &Symbols,
    first: &str,
    ps: &[Pos],
    second: &str,
    qs: &[Pos],
) -> Result<String, Fail> {
    let r = read_row(alloc, bank, &scope_of(syms), first)?;
    resolved_with(alloc, bank, syms, &r, ps, second, qs)
}

fn resolved_text(
    alloc: Global,
    bank: &mut Bank,
    syms: &Symbols,
    first: &str,
    second: &str,
) -> Result<String, Fail> {
    let (first, ps) = cut(first, " @ ");
    let (second, qs) = cut(second, " @ ");
    let ps = positions_of(alloc, ps)?;
    let qs = positions_of(alloc, qs)?;
    resolved_at(
        alloc,
        bank,
        syms,
        first,
        ps.as_slice(),
        second,
        qs.as_slice(),
    )
}

fn resolve_rows(rt: &impl Abort, alloc: Global, syms: &Symbols) -> Result<(), Fail> {
    for line in RESOLVED.lines() {
        let (case, want) = cut(line, " => ");
        let (first, second) = cut(case, " / ");
        let got = resolved_text(alloc, &mut Bank::new(alloc), syms, first, second)?;
        assert_eq!(rt; got.as_str(), want, "at {line}");
    }
    Ok(())
}

#[test]
fn resolves_rows(rt: HostRuntime) -> Result<(), Fail> {
    let syms = make_table(rt.alloc())?;
    resolve_rows(&rt, rt.alloc(), &syms)
}

// What equality replacement gives.
ghost use Rattle.std.specs.Prelude.{All};
ghost use Rattle.syn_term.specs.Bank.{Belongs};
ghost use Rattle.syn_row.specs.Rows.{row_terms};

use std::alloc::Global;
use std::process::Abort;
use std::test::Fail;
use syn_cases::cut;
use syn_resolve::equal;
use syn_row::{Dir, Row, is_plain_row};
use syn_row_cases::{give_one_sort, make_table, pos_of, print_row, read_row, scope_of};
use syn_term::{Bank, Pos, Symbols};

/// A row with the position of an equality and the way in which it is used, a row with the place of a term, and the row that
/// equality replacement gives without guards; `none` where it gives none.
const REPLACED: &str = "\
assert ?1 = 0 or ?1 = s(?1) @ 1 lr / goal le(a, ?1) | ?1 @ 1 => goal not a = s(a) and le(0, ?1) | ?1
goal a = b | a @ - lr / goal le(a, ?3) | ?3 @ 1 => goal false | if a = b then ?1 else a
goal not a = b | a @ 1 lr / goal le(a, ?3) | ?3 @ 1 => goal le(b, ?1) | if a = b then ?1 else a
goal not a = b | a @ 1 rl / goal le(b, ?3) | ?3 @ 1 => goal le(a, ?1) | if a = b then ?1 else a
goal not ?1 = b | ?1 @ 1 lr / goal le(a, ?1) | ?1 @ 1 => goal le(b, ?1) | if a = b then ?1 else a
assert a = b or le(b, a) @ 1 lr / assert le(a, a) @ 2 => assert le(b, a) or le(a, b)
assert a = b @ - lr / goal le(a, b) or le(b, a) | b @ 1.1 => goal le(b, b) or le(b, a) | b
assert a = b @ - lr / goal le(a, b) or a = b | a @ 1.1 => goal le(b, b) or a = b | a
goal not a = b and (a = b or le(?1, a)) | ?1 @ 1.1 lr / assert le(dbl(a), b) @ 1.1 => goal le(?1, a) and not le(dbl(b), b) | ?1
assert a = dbl(a) @ - lr / assert a = dbl(a) @ 2.1 => assert a = dbl(dbl(a))
assert dbl(?2) = ?1 @ - lr / goal le(dbl(?2), ?1) | ?1 @ 1 => goal le(?1, ?2) | ?2
assert ?1 = 0 @ - lr / goal le(a, b) @ 1 => goal le(0, b)
assert ?1:list = nil @ - lr / goal le(a, b) @ 1 => none
assert a = b @ - lr / goal le(b, b) @ 1 => none
assert a = b @ - rl / goal le(b, b) @ 1 => goal le(a, b)
assert le(a, b) @ - lr / goal le(a, b) @ 1 => none
assert a = b @ 1 lr / goal le(a, b) @ 1 => none
assert a = b @ - lr / goal le(a, b) @ - => none
assert a = b @ - lr / goal le(a, b) @ 3 => none
assert a = b @ - lr / goal le(a, b) @ 0 => none";

/// The way of the word.
fn way_of(word: &str) -> Dir {
    if word == "rl" { Dir::Rl } else { Dir::Lr }
}

/// The row that equality replacement gives of the two.
fn replaced(
    alloc: Global,
    bank: &mut Bank,
    syms: &Symbols,
    r: &Row,
    at: &Pos,
    way: Dir,
    s: &Row,
    place: &Pos,
) -> Result<Option<Row>, Fail>
    requires first { All (Belongs bank.old) (row_terms r.now) }
    requires second { All (Belongs bank.old) (row_terms s.now) }
{
    if !is_plain_row(alloc, syms, r)? {
        return Err(Fail::new("the first is not plain"));
    }
    if !is_plain_row(alloc, syms, s)? {
        return Err(Fail::new("the second is not plain"));
    }
    if !give_one_sort(syms, &s.out, &r.out) {
        return Err(Fail::new("outputs of two sorts"));
    }
    Ok(equal(alloc, bank, syms, None, r, at, way, s, place)?)
}

/// The text of what is given, `none` where nothing is.
pub(crate) fn given_text(
    alloc: Global,
    syms: &Symbols,
    given: Option<Row>,
) -> Result<String, Fail> {
    match given {
        None => Ok(String::from_str(alloc, "none")?),
        Some(row) => print_row(alloc, &scope_of(syms), &row),
    }
}

fn replaced_in(
    alloc: Global,
    bank: &mut Bank,
    syms: &Symbols,
    r: &Row,
    at: &Pos,
    way: Dir,
    second: &str,
    place: &Pos,
) -> Result<String, Fail>
    requires { All (Belongs bank.old) (row_terms r.now) }
{
    let s = read_row(alloc, bank, &scope_of(syms), second)?;
    let given = replaced(alloc, bank, syms, r, at, way, &s, place)?;
    given_text(alloc, syms, given)
}

fn replaced_by(
    alloc: Global,
    bank: &mut Bank,
    syms: &Symbols,
    first: &str,
    at: &Pos,
    way: Dir,
    second: &str,
    place: &Pos,
) -> Result<String, Fail> {
    let r = read_row(alloc, bank, &scope_of(syms), first)?;
    replaced_in(alloc, bank, syms, &r, at, way, second, place)
}

fn replaced_text(
    alloc: Global,
    bank: &mut Bank,
    syms: &Symbols,
    first: &str,
    second: &str,
) -> Result<String, Fail> {
    let (first, used) = cut(first, " @ ");
    let (second, place) = cut(second, " @ ");
    let (at, way) = cut(used, " ");
    let at = pos_of(alloc, at)?;
    let place = pos_of(alloc, place)?;
    replaced_by(alloc, bank, syms, first, &at, way_of(way), second, &place)
}

fn replace_equals(rt: &impl Abort, alloc: Global, syms: &Symbols) -> Result<(), Fail> {
    for line in REPLACED.lines() {
        let (case, want) = cut(line, " => ");
        let (first, second) = cut(case, " / ");
        let got = replaced_text(alloc, &mut Bank::new(alloc), syms, first, second)?;
        assert_eq!(rt; got.as_str(), want, "at {line}");
    }
    Ok(())
}

#[test]
fn replaces_equals(rt: HostRuntime) -> Result<(), Fail> {
    let syms = make_table(rt.alloc())?;
    replace_equals(&rt, rt.alloc(), &syms)
}

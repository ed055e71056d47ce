// Positions in terms: what stands there, and putting a new subterm there.
ghost use Rattle.std.specs.Prelude.{All, IfOk};
ghost use Rattle.syn_term.specs.Bank.{Belongs};

use std::alloc::Global;
use std::process::Abort;
use std::test::Fail;
use syn_cases::{added, cut};
use syn_term::{Bank, Head, Kind, NoMemory, Pos, Sort, SymId, Symbols, Term, Var, decimal_number};

const ZERO: SymId = SymId(0);

const SUCC: SymId = SymId(1);

const F: SymId = SymId(2);

/// A position in `f(s(s(0)), s(s(0)))`, whose two arguments are one and the same, the sort of the
/// variable that is put there, and how many nodes are made for it.
const REPLACED: &str = "\
: nat => 0
1 : nat => 1
2 : nat => 1
1 1 : nat => 2
2 1 : nat => 2
1 1 1 : nat => 3
2 1 1 : nat => 3
1 1 1 : 0 => no
: 0 => no
3 : nat => no
0 : nat => no
1 0 : nat => no
1 2 : nat => no
1 1 1 1 : nat => no";

const PROBES: &str = " :1:2:1 1:2 1:1 1 1:2 1 1";

/// The position with the numbers of the text.
fn position(alloc: Global, text: &str) -> Result<Pos, NoMemory> {
    let mut pos = Pos::root(alloc);
    for word in text.split(' ') {
        if let Some(k) = decimal_number(word) {
            pos.push(k)?;
        }
    }
    Ok(pos)
}

/// A table with a function of two numbers.
fn make_table(alloc: Global) -> Result<Symbols, Fail> {
    let mut syms = Symbols::new(alloc)?;
    added(
        alloc,
        &mut syms,
        "f",
        Kind::Fun,
        &[Sort::Nat, Sort::Nat],
        Some(Sort::Nat),
    )?;
    Ok(syms)
}

/// The symbol over the arguments.
fn applied(
    alloc: Global,
    bank: &mut Bank,
    syms: &Symbols,
    f: SymId,
    args: &[Term],
) -> Result<Term, Fail>
    requires { All (Belongs bank.old) args.now }
    ensures { IfOk result (Belongs bank.new) }
{
    match bank.app(alloc, syms, f, args)? {
        None => Err(Fail::new("no term")),
        Some(t) => Ok(t),
    }
}

/// So many successors of 0.
fn number(alloc: Global, bank: &mut Bank, syms: &Symbols, count: u32) -> Result<Term, Fail>
    ensures { IfOk result (Belongs bank.new) }
{
    let mut t = applied(alloc, bank, syms, ZERO, &[])?;
    for _ in 0..count {
        t = applied(alloc, bank, syms, SUCC, &[t])?;
    }
    Ok(t)
}

/// `f(s(s(0)), s(s(0)))`
fn twice(alloc: Global, bank: &mut Bank, syms: &Symbols) -> Result<Term, Fail>
    ensures { IfOk result (Belongs bank.new) }
{
    let part = number(alloc, bank, syms, 2)?;
    applied(alloc, bank, syms, F, &[part.again()?, part])
}

/// What stands at the top at a position.
fn head_at(t: &Term, pos: &Pos) -> Option<Head> {
    match t.at(pos) {
        None => None,
        Some(part) => Some(part.head()),
    }
}

/// At how many of the positions the variable stands.
fn count_variables(alloc: Global, t: &Term, v: Var) -> Result<usize, NoMemory> {
    let mut count = 0usize;
    for probe in PROBES.split(':') {
        let pos = position(alloc, probe)?;
        if head_at(t, &pos) == Some(Head::Var(v)) {
            count = count.saturating_add(1);
        }
    }
    Ok(count)
}

/// Whether the variable stands at the position, and at no other.
fn stands_there(alloc: Global, t: &Term, pos: &Pos, v: Var) -> Result<bool, NoMemory> {
    Ok(head_at(t, pos) == Some(Head::Var(v)) && count_variables(alloc, t, v)? == 1)
}

/// The term with the variable at the position. None: it may not be put there.
fn replaced(
    alloc: Global,
    bank: &mut Bank,
    syms: &Symbols,
    t: &Term,
    pos: &Pos,
    v: Var,
) -> Result<Option<Term>, NoMemory>
    requires { Belongs bank.old t.now }
{
    let new = bank.var(alloc, v)?;
    bank.replace_at(alloc, syms, t, pos, &new)
}

/// Whether the variable may be put at the position of the term, and stands there alone then.
fn may_be_put(
    alloc: Global,
    bank: &mut Bank,
    syms: &Symbols,
    t: &Term,
    pos: &Pos,
    v: Var,
) -> Result<bool, Fail>
    requires { Belongs bank.old t.now }
{
    match replaced(alloc, bank, syms, t, pos, v)? {
        None => Ok(false),
        Some(t) => {
            if stands_there(alloc, &t, pos, v)? {
                Ok(true)
            } else {
                Err(Fail::new("another place"))
            }
        }
    }
}

/// How many nodes were made to put the variable there, beside its own. None: it may not be put there.
fn made_in(
    alloc: Global,
    bank: &mut Bank,
    syms: &Symbols,
    pos: &Pos,
    v: Var,
) -> Result<Option<u64>, Fail> {
    let t = twice(alloc, bank, syms)?;
    let before = bank.made();
    if may_be_put(alloc, bank, syms, &t, pos, v)? {
        Ok(Some(bank.made().saturating_sub(before.saturating_add(1))))
    } else {
        Ok(None)
    }
}

/// The same for a row of the table.
fn made_for(alloc: Global, syms: &Symbols, row: &str) -> Result<Option<u64>, Fail> {
    let (path, sort) = cut(row, ": ");
    let v = Var {
        number: 7,
        sort: syn_cases::sort_of(sort),
    };
    let pos = position(alloc, path)?;
    made_in(alloc, &mut Bank::new(alloc), syms, &pos, v)
}

fn replace_one_place(rt: &impl Abort, alloc: Global, syms: &Symbols) -> Result<(), Fail> {
    for line in REPLACED.lines() {
        let (row, made) = cut(line, " => ");
        let got = made_for(alloc, syms, row)?;
        assert!(rt; got == decimal_number(made).map(u64::from), "at {row}");
    }
    Ok(())
}

#[test]
fn replaces_one_place(rt: HostRuntime) -> Result<(), Fail> {
    let syms = make_table(rt.alloc())?;
    replace_one_place(&rt, rt.alloc(), &syms)
}

/// The position at the end of a chain of this depth.
fn end_of(alloc: Global, depth: u32) -> Result<Pos, NoMemory> {
    let mut pos = Pos::root(alloc);
    for _ in 0..depth {
        pos.push(1)?;
    }
    Ok(pos)
}

/// How many nodes were made to put the variable for `0` at the end of the chain, beside its own.
fn made_at_the_end(
    alloc: Global,
    bank: &mut Bank,
    syms: &Symbols,
    t: &Term,
    pos: &Pos,
) -> Result<u64, Fail>
    requires { Belongs bank.old t.now }
{
    let v = Var {
        number: 7,
        sort: Sort::Nat,
    };
    if head_at(t, pos) != Some(Head::Sym(ZERO)) {
        return Err(Fail::new("no end"));
    }
    let before = bank.made();
    match replaced(alloc, bank, syms, t, pos, v)? {
        None => Err(Fail::new("no place")),
        Some(t) => {
            if head_at(&t, pos) != Some(Head::Var(v)) {
                return Err(Fail::new("another place"));
            }
            Ok(bank.made().saturating_sub(before.saturating_add(1)))
        }
    }
}

/// The same for a chain of this depth.
fn deep(alloc: Global, bank: &mut Bank, syms: &Symbols, depth: u32) -> Result<u64, Fail> {
    let pos = end_of(alloc, depth)?;
    deep_at(alloc, bank, syms, &pos, depth)
}

fn deep_at(
    alloc: Global,
    bank: &mut Bank,
    syms: &Symbols,
    pos: &Pos,
    depth: u32,
) -> Result<u64, Fail> {
    let t = number(alloc, bank, syms, depth)?;
    made_at_the_end(alloc, bank, syms, &t, pos)
}

#[test]
fn replaces_at_depth(rt: HostRuntime) -> Result<(), Fail> {
    let syms = Symbols::new(rt.alloc())?;
    assert!(rt; deep(rt.alloc(), &mut Bank::new(rt.alloc()), &syms, 2399)? == 2399);
    Ok(())
}

#[test]
fn goes_on_beyond_eight(rt: HostRuntime) -> Result<(), Fail> {
    let pos = position(rt.alloc(), "1 2 3 4 5 6 7 8 9")?;
    assert!(rt; pos.as_slice() == &[1, 2, 3, 4, 5, 6, 7, 8, 9][..]);
    Ok(())
}

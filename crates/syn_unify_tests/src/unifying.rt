// Unifiers of two terms, and what comes of the terms.
ghost use Rattle.std.specs.Prelude.{IfOk};
ghost use Rattle.syn_term.specs.Bank.{Belongs, Extends};
ghost use Rattle.syn_form.specs.Plain.{IsSorted};
ghost use Rattle.syn_form.specs.Substitutions.{KeepsSorts};
ghost use Rattle.syn_unify.specs.Bindings.{BindsOwn};

use crate::samples::{PAIR, applied, cons, empty, make_table, sorted, term_of, variable, write};
use sqlite_items::Items;
use std::alloc::Global;
use std::process::Abort;
use std::test::Fail;
use syn_cases::cut;
use syn_term::{Bank, Symbols, Term};
use syn_unify::{Subst, apply_term, unify_terms};

/// Two terms, how many variables are bound, and what both become.
const ROWS: &str = "\
x x => 0 a
x y => 1 a
x ys => 1 as
x xs => no
xs x => no
x xyf => no
0 0 => 0 0
0 0s => no
0s 0ss => no
xs 0s => 1 0s
xyf 0ysf => no
xyf 0zsf => 2 0asf
xxf y0sf => 2 0s0sf
xxf yysf => no
xysf xsyf => no
xysf zsxf => 2 asasf
xyf yxf => 1 aaf
xyfzf yzf0f => 3 00f0f
X Y => 1 a
X x => no
x X => no";

/// What the term becomes, as a code; `large` where that has too many nodes or levels.
pub(crate) fn becomes(
    alloc: Global,
    bank: &mut Bank,
    syms: &Symbols,
    s: &Subst,
    t: &Term,
) -> Result<String, Fail>
    requires keeps { KeepsSorts syms.now s.now }
    requires sorted { IsSorted syms.now t.now }
    requires own { BindsOwn bank.old s.now }
    requires belongs { Belongs bank.old t.now }
    ensures { Extends bank.old bank.new }
{
    let mut text = String::new(alloc);
    match apply_term(alloc, bank, syms, s, t)? {
        None => text.push_str("large")?,
        Some(t) => write(&mut text, &mut Items::new(alloc), &t)?,
    }
    Ok(text)
}

/// How many variables are bound, and what the two become, where it is one.
#[tactic(auto, using(crate::proofs::Growth::growth))]
fn made_one(
    alloc: Global,
    bank: &mut Bank,
    syms: &Symbols,
    s: &Subst,
    a: &Term,
    b: &Term,
) -> Result<String, Fail>
    requires keeps { KeepsSorts syms.now s.now }
    requires left { IsSorted syms.now a.now }
    requires right { IsSorted syms.now b.now }
    requires own { BindsOwn bank.old s.now }
    requires left_own { Belongs bank.old a.now }
    requires right_own { Belongs bank.old b.now }
{
    let text = becomes(alloc, bank, syms, s, a)?;
    let other = becomes(alloc, bank, syms, s, b)?;
    if text == other {
        Ok(format!(in alloc; "{} {text}", s.len())?)
    } else {
        Err(Fail::new("two terms"))
    }
}

/// The same of what makes them one; `no` where nothing does.
#[tactic(auto, using(crate::proofs::Growth::growth))]
fn answer(
    alloc: Global,
    bank: &mut Bank,
    syms: &Symbols,
    a: &Term,
    b: &Term,
) -> Result<String, Fail>
    requires left { IsSorted syms.now a.now }
    requires right { IsSorted syms.now b.now }
    requires left_own { Belongs bank.old a.now }
    requires right_own { Belongs bank.old b.now }
{
    match unify_terms(alloc, bank, syms, a, b)? {
        None => Ok(String::from_str(alloc, "no")?),
        Some(s) => made_one(alloc, bank, syms, &s, a, b),
    }
}

/// The same of a term and that of the code.
#[tactic(auto, using(crate::proofs::Growth::growth))]
fn answer_with(
    alloc: Global,
    bank: &mut Bank,
    syms: &Symbols,
    a: &Term,
    right: &str,
) -> Result<String, Fail>
    requires sorted { IsSorted syms.now a.now }
    requires own { Belongs bank.old a.now }
{
    let b = term_of(alloc, bank, syms, right)?;
    answer(alloc, bank, syms, a, &b)
}

/// The same of the terms of two codes.
#[tactic(auto, using(crate::proofs::Growth::growth))]
fn answer_of_codes(
    alloc: Global,
    bank: &mut Bank,
    syms: &Symbols,
    left: &str,
    right: &str,
) -> Result<String, Fail> {
    let a = term_of(alloc, bank, syms, left)?;
    answer_with(alloc, bank, syms, &a, right)
}

fn unify_rows(rt: &impl Abort, alloc: Global, syms: &Symbols) -> Result<(), Fail> {
    for line in ROWS.lines() {
        let (row, wanted) = cut(line, " => ");
        let (left, right) = cut(row, " ");
        let found = answer_of_codes(alloc, &mut Bank::new(alloc), syms, left, right)?;
        assert_eq!(rt; found.as_str(), wanted);
    }
    Ok(())
}

#[test]
fn unifies_terms(rt: HostRuntime) -> Result<(), Fail> {
    let syms = make_table(rt.alloc())?;
    unify_rows(&rt, rt.alloc(), &syms)
}

/// So many doublings leave what comes of the last variable within the limit.
const FITTING: [u32; 3] = [1, 10, 15];

/// `f(x, x)` of the variable with this number.
#[tactic(auto, using(crate::proofs::Growth::growth))]
fn doubled(alloc: Global, bank: &mut Bank, syms: &Symbols, number: u32) -> Result<Term, Fail>
    ensures extends { Extends bank.old bank.new }
    ensures belongs { IfOk result (Belongs bank.new) }
{
    let x = variable(alloc, bank, number)?;
    let y = x.again()?;
    applied(alloc, bank, syms, PAIR, &[x, y])
}

/// The list of the variables from this number down to 1.
#[tactic(auto, using(crate::proofs::Growth::growth))]
fn variables(alloc: Global, bank: &mut Bank, syms: &Symbols, count: u32) -> Result<Term, Fail>
    ensures extends { Extends bank.old bank.new }
    ensures belongs { IfOk result (Belongs bank.new) }
{
    let mut list = empty(alloc, bank, syms)?;
    for i in 0..count {
        let x = variable(alloc, bank, i + 1)?;
        list = cons(alloc, bank, syms, x, list)?;
    }
    Ok(list)
}

/// The list of `f(x, x)` for the variables from the one before this number down to 0.
#[tactic(auto, using(crate::proofs::Growth::growth))]
fn doubles(alloc: Global, bank: &mut Bank, syms: &Symbols, count: u32) -> Result<Term, Fail>
    ensures extends { Extends bank.old bank.new }
    ensures belongs { IfOk result (Belongs bank.new) }
{
    let mut list = empty(alloc, bank, syms)?;
    for i in 0..count {
        let x = doubled(alloc, bank, syms, i)?;
        list = cons(alloc, bank, syms, x, list)?;
    }
    Ok(list)
}

/// Whether the term becomes one that isn't too large by the unifier of the two.
#[tactic(auto, using(crate::proofs::Growth::growth))]
fn fits_by(
    alloc: Global,
    bank: &mut Bank,
    syms: &Symbols,
    a: &Term,
    b: &Term,
    t: &Term,
) -> Result<bool, Fail>
    requires left { IsSorted syms.now a.now }
    requires right { IsSorted syms.now b.now }
    requires sorted { IsSorted syms.now t.now }
    requires left_own { Belongs bank.old a.now }
    requires right_own { Belongs bank.old b.now }
    requires own { Belongs bank.old t.now }
{
    match unify_terms(alloc, bank, syms, a, b)? {
        None => Err(Fail::new("no unifier")),
        Some(s) => Ok(apply_term(alloc, bank, syms, &s, t)?.is_some()),
    }
}

/// The sorted list of the variables from this number down to 1.
fn sorted_variables(
    alloc: Global,
    bank: &mut Bank,
    syms: &Symbols,
    count: u32,
) -> Result<Term, Fail>
    ensures extends { Extends bank.old bank.new }
    ensures sorted { IfOk result (IsSorted syms.now) }
    ensures belongs { IfOk result (Belongs bank.new) }
{
    let t = variables(alloc, bank, syms, count)?;
    sorted(syms, t)
}

/// The sorted list of `f(x, x)` for the variables from the one before this number down to 0.
fn sorted_doubles(alloc: Global, bank: &mut Bank, syms: &Symbols, count: u32) -> Result<Term, Fail>
    ensures extends { Extends bank.old bank.new }
    ensures sorted { IfOk result (IsSorted syms.now) }
    ensures belongs { IfOk result (Belongs bank.new) }
{
    let t = doubles(alloc, bank, syms, count)?;
    sorted(syms, t)
}

/// Both lists.
#[tactic(auto, using(crate::proofs::Growth::growth))]
pub(crate) fn lists(
    alloc: Global,
    bank: &mut Bank,
    syms: &Symbols,
    count: u32,
) -> Result<(Term, Term), Fail>
    ensures extends { Extends bank.old bank.new }
    ensures sorted { IfOk result (λ both. IsSorted syms.now both.0 × IsSorted syms.now both.1) }
    ensures belongs { IfOk result (λ both. Belongs bank.new both.0 × Belongs bank.new both.1) }
{
    let a = sorted_variables(alloc, bank, syms, count)?;
    match sorted_doubles(alloc, bank, syms, count) {
        Ok(b) => Ok((a, b)),
        Err(fail) => {
            drop(a);
            Err(fail)
        }
    }
}

/// The variable with this number as a sorted term.
pub(crate) fn sorted_variable(
    alloc: Global,
    bank: &mut Bank,
    syms: &Symbols,
    number: u32,
) -> Result<Term, Fail>
    ensures extends { Extends bank.old bank.new }
    ensures sorted { IfOk result (IsSorted syms.now) }
    ensures belongs { IfOk result (Belongs bank.new) }
{
    let t = variable(alloc, bank, number)?;
    sorted(syms, t)
}

/// The same of the last variable and the two lists.
#[tactic(auto, using(crate::proofs::Growth::growth))]
fn last_fits(
    alloc: Global,
    bank: &mut Bank,
    syms: &Symbols,
    a: &Term,
    b: &Term,
    count: u32,
) -> Result<bool, Fail>
    requires left { IsSorted syms.now a.now }
    requires right { IsSorted syms.now b.now }
    requires left_own { Belongs bank.old a.now }
    requires right_own { Belongs bank.old b.now }
{
    let last = sorted_variable(alloc, bank, syms, count)?;
    fits_by(alloc, bank, syms, a, b, &last)
}

/// Whether the last variable becomes a term that isn't too large by `x1 = f(x0, x0)`, `x2 = f(x1, x1)` and so on.
#[tactic(auto, using(crate::proofs::Growth::growth))]
fn fits_after(alloc: Global, bank: &mut Bank, syms: &Symbols, count: u32) -> Result<bool, Fail> {
    let (a, b) = lists(alloc, bank, syms, count)?;
    last_fits(alloc, bank, syms, &a, &b, count)
}

fn double_to_the_limit(rt: &impl Abort, alloc: Global, syms: &Symbols) -> Result<(), Fail> {
    for count in FITTING {
        assert!(rt; fits_after(alloc, &mut Bank::new(alloc), syms, count)?);
    }
    assert!(rt; !fits_after(alloc, &mut Bank::new(alloc), syms, 16)?);
    Ok(())
}

#[test]
fn doubles_to_the_limit(rt: HostRuntime) -> Result<(), Fail> {
    let syms = make_table(rt.alloc())?;
    double_to_the_limit(&rt, rt.alloc(), &syms)
}

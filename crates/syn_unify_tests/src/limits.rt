// What comes of a formula by a substitution, up to the limits of nodes and of depth.
ghost use Rattle.std.specs.Prelude.{All, IfOk};
ghost use Rattle.syn_term.specs.Bank.{Belongs, Extends};
ghost use Rattle.syn_form.specs.Plain.{IsFormed, IsSorted};
ghost use Rattle.syn_form.specs.Trees.{form_terms};

use crate::forms::formed;
use crate::samples::{SUCC, applied, make_table, sorted, term_of, variable};
use crate::unifying::{lists, sorted_variable};
use std::alloc::Global;
use std::process::Abort;
use std::test::Fail;
use syn_form::Form;
use syn_term::{Bank, Symbols, Term};
use syn_unify::{apply, unify_terms};

/// So many doublings leave `x = x` of the last variable within the limit: after n it has 1 + 2 * (2^(n + 1) - 1)
/// nodes, so 65,535 after 14 and 131,071 after 15.
const FITTING: [u32; 3] = [1, 10, 14];

/// `t = t`.
fn reflexive(bank: &Bank, t: &Term) -> Result<Form, Fail>
    requires { Belongs bank.now t.now }
    ensures { IfOk result (λ f. All (Belongs bank.now) (form_terms f)) }
{
    Ok(Form::Equal(t.again()?, t.again()?))
}

/// Whether the formula isn't too large by the unifier of `a` and `b`.
#[tactic(auto, using(crate::proofs::Growth::growth))]
fn form_fits(
    alloc: Global,
    bank: &mut Bank,
    syms: &Symbols,
    a: &Term,
    b: &Term,
    f: &Form,
) -> Result<bool, Fail>
    requires left { IsSorted syms.now a.now }
    requires right { IsSorted syms.now b.now }
    requires formed { IsFormed syms.now f.now }
    requires left_own { Belongs bank.old a.now }
    requires right_own { Belongs bank.old b.now }
    requires own { All (Belongs bank.old) (form_terms f.now) }
{
    match unify_terms(alloc, bank, syms, a, b)? {
        None => Err(Fail::new("no unifier")),
        Some(s) => Ok(apply(alloc, bank, syms, &s, f)?.is_some()),
    }
}

/// `t = t`, where it is formed.
fn formed_equality(bank: &Bank, syms: &Symbols, t: &Term) -> Result<Form, Fail>
    requires { Belongs bank.now t.now }
    ensures formed { IfOk result (IsFormed syms.now) }
    ensures belongs { IfOk result (λ f. All (Belongs bank.now) (form_terms f)) }
{
    let f = reflexive(bank, t)?;
    formed(syms, f)
}

/// Whether `t = t` isn't too large by the unifier of `a` and `b`.
#[tactic(auto, using(crate::proofs::Growth::growth))]
fn fits_by(
    alloc: Global,
    bank: &mut Bank,
    syms: &Symbols,
    a: &Term,
    b: &Term,
    t: &Term,
) -> Result<bool, Fail>
    requires left { IsSorted syms.now a.now }
    requires right { IsSorted syms.now b.now }
    requires left_own { Belongs bank.old a.now }
    requires right_own { Belongs bank.old b.now }
    requires own { Belongs bank.old t.now }
{
    let f = formed_equality(bank, syms, t)?;
    form_fits(alloc, bank, syms, a, b, &f)
}

/// The same of the last variable and the two lists.
#[tactic(auto, using(crate::proofs::Growth::growth))]
fn last_fits(
    alloc: Global,
    bank: &mut Bank,
    syms: &Symbols,
    a: &Term,
    b: &Term,
    count: u32,
) -> Result<bool, Fail>
    requires left { IsSorted syms.now a.now }
    requires right { IsSorted syms.now b.now }
    requires left_own { Belongs bank.old a.now }
    requires right_own { Belongs bank.old b.now }
{
    let last = variable(alloc, bank, count)?;
    fits_by(alloc, bank, syms, a, b, &last)
}

/// The same after `x1 = f(x0, x0)`, `x2 = f(x1, x1)` and so on.
#[tactic(auto, using(crate::proofs::Growth::growth))]
fn fits_after(alloc: Global, bank: &mut Bank, syms: &Symbols, count: u32) -> Result<bool, Fail> {
    let (a, b) = lists(alloc, bank, syms, count)?;
    last_fits(alloc, bank, syms, &a, &b, count)
}

fn double_to_the_limit(rt: &impl Abort, alloc: Global, syms: &Symbols) -> Result<(), Fail> {
    for count in FITTING {
        assert!(rt; fits_after(alloc, &mut Bank::new(alloc), syms, count)?);
    }
    assert!(rt; !fits_after(alloc, &mut Bank::new(alloc), syms, 15)?);
    Ok(())
}

#[test]
fn doubles_formulas_to_the_limit(rt: HostRuntime) -> Result<(), Fail> {
    let syms = make_table(rt.alloc())?;
    double_to_the_limit(&rt, rt.alloc(), &syms)
}

/// So many successors of 0.
#[tactic(auto, using(crate::proofs::Growth::growth))]
fn tower(alloc: Global, bank: &mut Bank, syms: &Symbols, count: u32) -> Result<Term, Fail>
    ensures extends { Extends bank.old bank.new }
    ensures belongs { IfOk result (Belongs bank.new) }
{
    let mut t = term_of(alloc, bank, syms, "0")?;
    for _ in 0..count {
        t = applied(alloc, bank, syms, SUCC, &[t])?;
    }
    Ok(t)
}

/// The same as a sorted term.
fn sorted_tower(alloc: Global, bank: &mut Bank, syms: &Symbols, count: u32) -> Result<Term, Fail>
    ensures extends { Extends bank.old bank.new }
    ensures sorted { IfOk result (IsSorted syms.now) }
    ensures belongs { IfOk result (Belongs bank.new) }
{
    let t = tower(alloc, bank, syms, count)?;
    sorted(syms, t)
}

/// Whether `x = x` isn't too deep where the variable becomes so many successors of 0.
#[tactic(auto, using(crate::proofs::Growth::growth))]
fn variable_fits(
    alloc: Global,
    bank: &mut Bank,
    syms: &Symbols,
    x: &Term,
    count: u32,
) -> Result<bool, Fail>
    requires sorted { IsSorted syms.now x.now }
    requires own { Belongs bank.old x.now }
{
    let t = sorted_tower(alloc, bank, syms, count)?;
    fits_by(alloc, bank, syms, x, &t, x)
}

#[tactic(auto, using(crate::proofs::Growth::growth))]
fn fits_above(alloc: Global, bank: &mut Bank, syms: &Symbols, count: u32) -> Result<bool, Fail> {
    let x = sorted_variable(alloc, bank, syms, 1)?;
    variable_fits(alloc, bank, syms, &x, count)
}

/// So many successors of 0 have one level more, and the formula two.
fn nest_to_the_limit(rt: &impl Abort, alloc: Global, syms: &Symbols) -> Result<(), Fail> {
    assert!(rt; fits_above(alloc, &mut Bank::new(alloc), syms, 0)?);
    assert!(rt; fits_above(alloc, &mut Bank::new(alloc), syms, 2398)?);
    assert!(rt; !fits_above(alloc, &mut Bank::new(alloc), syms, 2399)?);
    Ok(())
}

#[test]
fn nests_formulas_to_the_limit(rt: HostRuntime) -> Result<(), Fail> {
    let syms = make_table(rt.alloc())?;
    nest_to_the_limit(&rt, rt.alloc(), &syms)
}

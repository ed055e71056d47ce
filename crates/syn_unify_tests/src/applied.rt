// Substitutions applied to formulas and outputs, which are texts.
ghost use Rattle.std.specs.Prelude.{All, IfOk};
ghost use Rattle.syn_term.specs.Bank.{Belongs, Extends};
ghost use Rattle.syn_form.specs.Plain.{IsFormed, IsFormedOut};
ghost use Rattle.syn_form.specs.Substitutions.{KeepsSorts};
ghost use Rattle.syn_form.specs.Trees.{form_terms, out_terms};
ghost use Rattle.syn_unify.specs.Bindings.{BindsOwn};

use crate::forms::formed;
use std::alloc::Global;
use std::process::Abort;
use std::test::Fail;
use syn_cases::{added, cut};
use syn_expr::{ExprError, Scope, print_form, print_out, read_form, read_out};
use syn_form::{Form, Out, is_formed_out};
use syn_term::{Bank, Kind, Sort, Symbols};
use syn_unify::{Subst, apply, apply_out, unify_forms};

const NAT: Sort = Sort::Nat;

/// Two formulas, and what both become.
const ROWS: &str = "\
le(?1, s(?2)) & le(1, ?1) => le(1, 1)
?1 = dbl(?2) & 1 = dbl(?1) => 1 = dbl(1)
not le(?1, 0) & not le(dbl(0), ?2) => not le(dbl(0), 0)
le(?1, 0) and ?1 = ?2 & le(1, ?2) and ?1 = 0 => le(1, 0) and 1 = 0
le(?1, ?1) or ?1 = 0 & le(?2, 0) or 0 = ?1 => le(0, 0) or 0 = 0
le(?1, ?2) -> le(?2, ?1) & le(0, 1) -> le(?3, 0) => le(0, 1) -> le(1, 0)
true & true => true
false & false => false";

/// A table with a relation, a function and two inputs.
fn make_table(alloc: Global) -> Result<Symbols, Fail> {
    let mut syms = Symbols::new(alloc)?;
    added(alloc, &mut syms, "le", Kind::Rel, &[NAT, NAT], None)?;
    added(alloc, &mut syms, "dbl", Kind::Fun, &[NAT], Some(NAT))?;
    added(alloc, &mut syms, "a", Kind::Input, &[], Some(NAT))?;
    added(alloc, &mut syms, "b", Kind::Input, &[], Some(NAT))?;
    Ok(syms)
}

/// In rows.
fn scope_of(syms: &Symbols) -> Scope<'_> {
    Scope {
        syms,
        names: &[],
        rows: true,
    }
}

fn refused(error: ExprError) -> Fail {
    match error {
        ExprError::Refused => Fail::new("no expression"),
        ExprError::NoMemory => Fail::new("no memory"),
    }
}

/// The formula of the text.
fn form_read(alloc: Global, bank: &mut Bank, syms: &Symbols, text: &str) -> Result<Form, Fail>
    ensures extends { Extends bank.old bank.new }
    ensures belongs { IfOk result (λ f. All (Belongs bank.new) (form_terms f)) }
{
    match read_form(alloc, bank, &scope_of(syms), text) {
        Ok(f) => Ok(f),
        Err(error) => Err(refused(error)),
    }
}

/// The output of the text.
fn out_read(alloc: Global, bank: &mut Bank, syms: &Symbols, text: &str) -> Result<Out, Fail>
    ensures extends { Extends bank.old bank.new }
    ensures belongs { IfOk result (λ o. All (Belongs bank.new) (out_terms o)) }
{
    match read_out(alloc, bank, &scope_of(syms), text) {
        Ok(o) => Ok(o),
        Err(error) => Err(refused(error)),
    }
}

/// The formula of the text, which is formed.
fn form_of(alloc: Global, bank: &mut Bank, syms: &Symbols, text: &str) -> Result<Form, Fail>
    ensures extends { Extends bank.old bank.new }
    ensures formed { IfOk result (IsFormed syms.now) }
    ensures belongs { IfOk result (λ f. All (Belongs bank.new) (form_terms f)) }
{
    formed(syms, form_read(alloc, bank, syms, text)?)
}

/// The output of the text, which is formed.
fn out_of(alloc: Global, bank: &mut Bank, syms: &Symbols, text: &str) -> Result<Out, Fail>
    ensures extends { Extends bank.old bank.new }
    ensures formed { IfOk result (IsFormedOut syms.now) }
    ensures belongs { IfOk result (λ o. All (Belongs bank.new) (out_terms o)) }
{
    let o = out_read(alloc, bank, syms, text)?;
    if is_formed_out(syms, &o) {
        Ok(o)
    } else {
        drop(o);
        Err(Fail::new("not formed"))
    }
}

/// The unifier of two formulas.
#[tactic(auto, using(crate::proofs::Growth::growth))]
fn unifier_of(
    alloc: Global,
    bank: &mut Bank,
    syms: &Symbols,
    f: &Form,
    g: &Form,
) -> Result<Subst, Fail>
    requires first { IsFormed syms.now f.now }
    requires second { IsFormed syms.now g.now }
    requires first_own { All (Belongs bank.old) (form_terms f.now) }
    requires second_own { All (Belongs bank.old) (form_terms g.now) }
    ensures extends { Extends bank.old bank.new }
    ensures keeps { IfOk result (KeepsSorts syms.now) }
    ensures own { IfOk result (BindsOwn bank.new) }
{
    match unify_forms(alloc, bank, syms, &[f.again()?, g.again()?])? {
        None => Err(Fail::new("no unifier")),
        Some(s) => Ok(s),
    }
}

/// What the formula becomes; `large` where that has too many nodes or levels.
fn form_becomes(
    alloc: Global,
    bank: &mut Bank,
    syms: &Symbols,
    s: &Subst,
    f: &Form,
) -> Result<String, Fail>
    requires keeps { KeepsSorts syms.now s.now }
    requires formed { IsFormed syms.now f.now }
    requires own { BindsOwn bank.old s.now }
    requires belongs { All (Belongs bank.old) (form_terms f.now) }
    ensures { Extends bank.old bank.new }
{
    match apply(alloc, bank, syms, s, f)? {
        None => Ok(String::from_str(alloc, "large")?),
        Some(g) => Ok(print_form(alloc, &scope_of(syms), &g)?),
    }
}

/// What both become, where it is one.
#[tactic(auto, using(crate::proofs::Growth::growth))]
fn both_become(
    alloc: Global,
    bank: &mut Bank,
    syms: &Symbols,
    s: &Subst,
    f: &Form,
    g: &Form,
) -> Result<String, Fail>
    requires keeps { KeepsSorts syms.now s.now }
    requires first { IsFormed syms.now f.now }
    requires second { IsFormed syms.now g.now }
    requires own { BindsOwn bank.old s.now }
    requires first_own { All (Belongs bank.old) (form_terms f.now) }
    requires second_own { All (Belongs bank.old) (form_terms g.now) }
{
    let text = form_becomes(alloc, bank, syms, s, f)?;
    let other = form_becomes(alloc, bank, syms, s, g)?;
    if text == other {
        Ok(text)
    } else {
        Err(Fail::new("two formulas"))
    }
}

/// What both become by the unifier of both, where it is one.
#[tactic(auto, using(crate::proofs::Growth::growth))]
fn unified(
    alloc: Global,
    bank: &mut Bank,
    syms: &Symbols,
    f: &Form,
    g: &Form,
) -> Result<String, Fail>
    requires first { IsFormed syms.now f.now }
    requires second { IsFormed syms.now g.now }
    requires first_own { All (Belongs bank.old) (form_terms f.now) }
    requires second_own { All (Belongs bank.old) (form_terms g.now) }
{
    let s = unifier_of(alloc, bank, syms, f, g)?;
    both_become(alloc, bank, syms, &s, f, g)
}

/// The same of a formula and that of the text.
#[tactic(auto, using(crate::proofs::Growth::growth))]
fn unified_with(
    alloc: Global,
    bank: &mut Bank,
    syms: &Symbols,
    f: &Form,
    right: &str,
) -> Result<String, Fail>
    requires formed { IsFormed syms.now f.now }
    requires own { All (Belongs bank.old) (form_terms f.now) }
{
    let g = form_of(alloc, bank, syms, right)?;
    unified(alloc, bank, syms, f, &g)
}

/// The same of the formulas of two texts.
#[tactic(auto, using(crate::proofs::Growth::growth))]
fn made_one(
    alloc: Global,
    bank: &mut Bank,
    syms: &Symbols,
    left: &str,
    right: &str,
) -> Result<String, Fail> {
    let f = form_of(alloc, bank, syms, left)?;
    unified_with(alloc, bank, syms, &f, right)
}

fn make_formulas_one(rt: &impl Abort, alloc: Global, syms: &Symbols) -> Result<(), Fail> {
    for line in ROWS.lines() {
        let (both, wanted) = cut(line, " => ");
        let (left, right) = cut(both, " & ");
        let found = made_one(alloc, &mut Bank::new(alloc), syms, left, right)?;
        assert_eq!(rt; found.as_str(), wanted);
    }
    Ok(())
}

#[test]
fn makes_formulas_one(rt: HostRuntime) -> Result<(), Fail> {
    let syms = make_table(rt.alloc())?;
    make_formulas_one(&rt, rt.alloc(), &syms)
}

/// How many variables are bound, how many nodes the formula's making takes, and what it becomes.
fn told(alloc: Global, bank: &mut Bank, syms: &Symbols, s: &Subst, f: &Form) -> Result<String, Fail>
    requires keeps { KeepsSorts syms.now s.now }
    requires formed { IsFormed syms.now f.now }
    requires own { BindsOwn bank.old s.now }
    requires belongs { All (Belongs bank.old) (form_terms f.now) }
{
    let before = bank.made();
    let found = form_becomes(alloc, bank, syms, s, f)?;
    let made = bank.made().saturating_sub(before);
    Ok(format!(in alloc; "{} {made} {found}", s.len())?)
}

/// The same by the unifier of the formula and itself, which binds nothing.
#[tactic(auto, using(crate::proofs::Growth::growth))]
fn told_of_itself(alloc: Global, bank: &mut Bank, syms: &Symbols, f: &Form) -> Result<String, Fail>
    requires formed { IsFormed syms.now f.now }
    requires own { All (Belongs bank.old) (form_terms f.now) }
{
    let s = unifier_of(alloc, bank, syms, f, f)?;
    told(alloc, bank, syms, &s, f)
}

#[tactic(auto, using(crate::proofs::Growth::growth))]
fn kept(alloc: Global, bank: &mut Bank, syms: &Symbols, text: &str) -> Result<String, Fail> {
    let f = form_of(alloc, bank, syms, text)?;
    told_of_itself(alloc, bank, syms, &f)
}

#[test]
fn keeps_what_is_not_bound(rt: HostRuntime) -> Result<(), Fail> {
    let syms = make_table(rt.alloc())?;
    let bank = &mut Bank::new(rt.alloc());
    let found = kept(rt.alloc(), bank, &syms, "le(?1, dbl(?2)) and ?1 = a")?;
    assert_eq!(rt; found.as_str(), "0 0 le(?1, dbl(?2)) and ?1 = a");
    Ok(())
}

/// What the output becomes; `large` where that has too many nodes or levels.
fn out_becomes(
    alloc: Global,
    bank: &mut Bank,
    syms: &Symbols,
    s: &Subst,
    o: &Out,
) -> Result<String, Fail>
    requires keeps { KeepsSorts syms.now s.now }
    requires formed { IsFormedOut syms.now o.now }
    requires own { BindsOwn bank.old s.now }
    requires belongs { All (Belongs bank.old) (out_terms o.now) }
{
    match apply_out(alloc, bank, syms, s, o)? {
        None => Ok(String::from_str(alloc, "large")?),
        Some(o) => Ok(print_out(alloc, &scope_of(syms), &o)?),
    }
}

/// What the output of the text becomes.
#[tactic(auto, using(crate::proofs::Growth::growth))]
fn text_becomes(
    alloc: Global,
    bank: &mut Bank,
    syms: &Symbols,
    s: &Subst,
    text: &str,
) -> Result<String, Fail>
    requires keeps { KeepsSorts syms.now s.now }
    requires own { BindsOwn bank.old s.now }
{
    let o = out_of(alloc, bank, syms, text)?;
    out_becomes(alloc, bank, syms, s, &o)
}

/// The unifier of the formula and that of the text.
#[tactic(auto, using(crate::proofs::Growth::growth))]
fn unifier_with(
    alloc: Global,
    bank: &mut Bank,
    syms: &Symbols,
    f: &Form,
    right: &str,
) -> Result<Subst, Fail>
    requires formed { IsFormed syms.now f.now }
    requires belongs { All (Belongs bank.old) (form_terms f.now) }
    ensures extends { Extends bank.old bank.new }
    ensures keeps { IfOk result (KeepsSorts syms.now) }
    ensures own { IfOk result (BindsOwn bank.new) }
{
    let g = form_of(alloc, bank, syms, right)?;
    unifier_of(alloc, bank, syms, f, &g)
}

/// The unifier of the formulas of two texts.
#[tactic(auto, using(crate::proofs::Growth::growth))]
fn unifier_of_texts(
    alloc: Global,
    bank: &mut Bank,
    syms: &Symbols,
    left: &str,
    right: &str,
) -> Result<Subst, Fail>
    ensures extends { Extends bank.old bank.new }
    ensures keeps { IfOk result (KeepsSorts syms.now) }
    ensures own { IfOk result (BindsOwn bank.new) }
{
    let f = form_of(alloc, bank, syms, left)?;
    unifier_with(alloc, bank, syms, &f, right)
}

#[tactic(auto, using(crate::proofs::Growth::growth))]
fn applied_to_output(alloc: Global, bank: &mut Bank, syms: &Symbols) -> Result<String, Fail> {
    let s = unifier_of_texts(alloc, bank, syms, "?1 = 0", "a = 0")?;
    text_becomes(alloc, bank, syms, &s, "if le(?1, b) then ?1 else s(?1)")
}

#[test]
fn applies_to_outputs(rt: HostRuntime) -> Result<(), Fail> {
    let syms = make_table(rt.alloc())?;
    let found = applied_to_output(rt.alloc(), &mut Bank::new(rt.alloc()), &syms)?;
    assert_eq!(rt; found.as_str(), "if le(a, b) then a else s(a)");
    Ok(())
}

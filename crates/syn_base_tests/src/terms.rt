// The table of symbols, the bank and terms, each call once on its ordinary path.
use std::alloc::Global;
use std::process::Abort;
use std::test::Fail;
use syn_term::{Bank, Head, Sort, SymId, Symbols, Term, Text, Var};

const ZERO: SymId = SymId(0);

const SUCC: SymId = SymId(1);

/// The variable of sort `nat` with this number.
fn nat(number: u32) -> Var {
    Var {
        number,
        sort: Sort::Nat,
    }
}

fn assert_variable<R: Abort>(rt: &R, syms: &Symbols, term: &Term) {
    assert!(rt; term.head() == Head::Var(nat(7)));
    assert!(rt; term.sort(syms) == Sort::Nat);
    assert_eq!(rt; (term.size(10), term.size(0)), (1, 1));
    assert_eq!(rt; (term.depth(10), term.depth(0)), (1, 1));
    assert!(rt; term.arg(1).is_none());
}

fn assert_one<R: Abort>(rt: &R, syms: &Symbols, one: &Term) {
    assert!(rt; one.head() == Head::Sym(SUCC));
    assert!(rt; one.sort_in(syms) == Some(Sort::Nat));
    assert_eq!(rt; (one.size(10), one.size(1), one.size(0)), (2, 2, 1));
    assert_eq!(rt; (one.depth(10), one.depth(1), one.depth(0)), (2, 2, 1));
    assert!(rt; one.arg(0).is_none());
    assert!(rt; one.arg(2).is_none());
    assert!(rt; matches!(one.arg(1), Some(arg) if arg.head() == Head::Sym(ZERO)));
}

/// The successor of 0.
fn one(alloc: Global, syms: &Symbols, bank: &mut Bank) -> Result<Term, Fail> {
    let Some(zero) = bank.app(alloc, syms, ZERO, &[])? else {
        return Err(Fail::new("zero"));
    };
    match bank.app(alloc, syms, SUCC, &[zero])? {
        Some(one) => Ok(one),
        None => Err(Fail::new("one")),
    }
}

fn makes_no_terms(
    rt: &impl Abort,
    alloc: Global,
    bank: &mut Bank,
    syms: &Symbols,
) -> Result<(), Fail> {
    assert!(rt; bank.app(alloc, syms, SUCC, &[])?.is_none());
    assert!(rt; bank.app(alloc, syms, SymId(2), &[])?.is_none());
    Ok(())
}

fn makes_terms_of(
    rt: &impl Abort,
    alloc: Global,
    bank: &mut Bank,
    syms: &Symbols,
) -> Result<(), Fail> {
    assert_variable(rt, syms, &bank.var(alloc, nat(7))?);
    assert!(rt; bank.made() == 1);
    assert_one(rt, syms, &one(alloc, syms, bank)?);
    assert!(rt; bank.made() == 3);
    makes_no_terms(rt, alloc, bank, syms)?;
    assert!(rt; bank.made() == 3);
    Ok(())
}

#[test]
fn makes_terms(rt: HostRuntime) -> Result<(), Fail> {
    let syms = Symbols::new(rt.alloc())?;
    makes_terms_of(&rt, rt.alloc(), &mut Bank::new(rt.alloc()), &syms)
}

/// Whether two new variables with these numbers are the same.
fn are_same(alloc: Global, first: u32, second: u32) -> Result<bool, Fail> {
    let mut bank = Bank::new(alloc);
    let first = bank.var(alloc, nat(first))?;
    let second = bank.var(alloc, nat(second))?;
    Ok(first.same(&second))
}

#[test]
fn compares_terms(rt: HostRuntime) -> Result<(), Fail> {
    assert!(rt; are_same(rt.alloc(), 1, 1)?);
    assert!(rt; !are_same(rt.alloc(), 1, 2)?);
    Ok(())
}

/// Whether the texts are one, as `Text` sees it.
fn is_text(alloc: Global, first: &str, second: &str) -> Result<bool, Fail> {
    let first = Text::from_str(alloc, first)?;
    let second = Text::from_str(alloc, second)?;
    Ok(first.same(&second))
}

#[test]
fn keeps_texts(rt: HostRuntime) -> Result<(), Fail> {
    assert!(rt; Text::from_str(rt.alloc(), "λ")?.as_str() == "λ");
    assert!(rt; is_text(rt.alloc(), "λ", "λ")?);
    assert!(rt; !is_text(rt.alloc(), "λ", "μ")?);
    Ok(())
}

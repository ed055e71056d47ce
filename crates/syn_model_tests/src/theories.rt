// Declarations, each a line of a table: those of a theory of numbers are taken, and others are
// refused behind them.
use sqlite_items::Items;
use std::alloc::Global;
use std::process::Abort;
use std::test::Fail;
use syn_cases::cut;
use syn_expr::{ExprError, Scope, read_form, read_out, read_qform, read_term};
use syn_form::{Binder, Form, Mono, Out, QForm};
use syn_model::{Decl, DeclError, Theory};
use syn_term::{Bank, NoMemory, Shared, Sort, SymId, Term, Text, Var, decimal_number};

const NAT: Sort = Sort::Nat;

pub(crate) fn failed(error: ExprError) -> Fail {
    match error {
        ExprError::Refused => Fail::new("no text"),
        ExprError::NoMemory => Fail::new("no memory"),
    }
}

/// The variables `x` and `y`.
fn names(alloc: Global) -> Result<Items<(String, Var)>, NoMemory> {
    let mut names = Items::new(alloc);
    let x = Var {
        number: 1,
        sort: NAT,
    };
    names.push((String::from_str(alloc, "x")?, x))?;
    let y = Var {
        number: 2,
        sort: NAT,
    };
    names.push((String::from_str(alloc, "y")?, y))?;
    Ok(names)
}

fn scope<'a>(theory: &'a Theory, names: &'a [(String, Var)]) -> Scope<'a> {
    Scope {
        syms: theory.symbols(),
        names,
        rows: false,
    }
}

fn term(alloc: Global, theory: &Theory, text: &str) -> Result<Term, Fail> {
    let names = names(alloc)?;
    match read_term(
        alloc,
        &mut Bank::new(alloc),
        &scope(theory, names.as_slice()),
        text,
    ) {
        Ok(t) => Ok(t),
        Err(error) => Err(failed(error)),
    }
}

fn form(alloc: Global, theory: &Theory, text: &str) -> Result<Form, Fail> {
    let names = names(alloc)?;
    match read_form(
        alloc,
        &mut Bank::new(alloc),
        &scope(theory, names.as_slice()),
        text,
    ) {
        Ok(f) => Ok(f),
        Err(error) => Err(failed(error)),
    }
}

fn output(alloc: Global, theory: &Theory, text: &str) -> Result<Out, Fail> {
    let names = names(alloc)?;
    match read_out(
        alloc,
        &mut Bank::new(alloc),
        &scope(theory, names.as_slice()),
        text,
    ) {
        Ok(o) => Ok(o),
        Err(error) => Err(failed(error)),
    }
}

fn closed(alloc: Global, theory: &Theory, text: &str) -> Result<QForm, Fail> {
    let scope = Scope {
        syms: theory.symbols(),
        names: &[],
        rows: false,
    };
    match read_qform(alloc, &mut Bank::new(alloc), &scope, text) {
        Ok(f) => Ok(f),
        Err(error) => Err(failed(error)),
    }
}

/// The terms of a text, with `;` between.
fn terms(alloc: Global, theory: &Theory, texts: &str) -> Result<Items<Term>, Fail> {
    let mut terms = Items::new(alloc);
    for text in texts.split(';') {
        terms.push(term(alloc, theory, text)?)?;
    }
    Ok(terms)
}

fn nats(alloc: Global, count: u32) -> Result<Items<Sort>, NoMemory> {
    let mut sorts = Items::new(alloc);
    for _ in 0..count {
        sorts.push(NAT)?;
    }
    Ok(sorts)
}

fn found(theory: &Theory, name: &str) -> Result<SymId, Fail> {
    match theory.symbols().find(name) {
        None => Err(Fail::new("no symbol")),
        Some(f) => Ok(f),
    }
}

fn mono(theory: &Theory, rel: &str, up: bool, sym: &str, place: u32) -> Result<Mono, Fail> {
    Ok(Mono {
        rel: found(theory, rel)?,
        up,
        sym: found(theory, sym)?,
        place,
        gives: None,
    })
}

fn fun(alloc: Global, name: &str, count: u32) -> Result<Decl, NoMemory> {
    Ok(Decl::Fun {
        name: Text::from_str(alloc, name)?,
        args: nats(alloc, count)?,
        result: NAT,
    })
}

fn rel(alloc: Global, name: &str, count: u32) -> Result<Decl, NoMemory> {
    Ok(Decl::Rel {
        name: Text::from_str(alloc, name)?,
        args: nats(alloc, count)?,
    })
}

fn list(alloc: Global, name: &str, nil: &str) -> Result<Decl, NoMemory> {
    Ok(Decl::ListSort {
        name: Text::from_str(alloc, name)?,
        nil: Text::from_str(alloc, nil)?,
        cons: Text::from_str(alloc, "put")?,
        item: NAT,
    })
}

fn fun_clause(alloc: Global, theory: &Theory, args: &str, body: &str) -> Result<Decl, Fail> {
    let args = terms(alloc, theory, args)?;
    match output(alloc, theory, body) {
        Ok(body) => Ok(Decl::FunClause { args, body }),
        Err(fail) => Err(fail),
    }
}

fn rel_clause(alloc: Global, theory: &Theory, args: &str, body: &str) -> Result<Decl, Fail> {
    let args = terms(alloc, theory, args)?;
    match form(alloc, theory, body) {
        Ok(body) => Ok(Decl::RelClause { args, body }),
        Err(fail) => Err(fail),
    }
}

fn order(
    alloc: Global,
    theory: &Theory,
    name: &str,
    count: u32,
    measure: &str,
) -> Result<Decl, Fail> {
    let name = Text::from_str(alloc, name)?;
    let args = nats(alloc, count)?;
    let measure = term(alloc, theory, measure)?;
    Ok(Decl::Order {
        name,
        args,
        measure,
    })
}

fn axiom(alloc: Global, theory: &Theory, name: &str, text: &str) -> Result<Decl, Fail> {
    let name = Text::from_str(alloc, name)?;
    let form = closed(alloc, theory, text)?;
    Ok(Decl::Axiom { name, form })
}

/// The axiom `all x: S. true`, where S is the declared sort with this number, there or not.
fn over(alloc: Global, name: &str, number: u32) -> Result<Decl, NoMemory> {
    let var = Var {
        number: 1,
        sort: Sort::Named(number),
    };
    let binder = Binder {
        var,
        name: Text::from_str(alloc, "x")?,
    };
    Ok(Decl::Axiom {
        name: Text::from_str(alloc, name)?,
        form: QForm::All(binder, Shared::new(alloc, QForm::True)?),
    })
}

/// A row by the words for its relation, its symbol and its place.
fn row(alloc: Global, theory: &Theory, name: &str, up: bool, words: &str) -> Result<Decl, Fail> {
    let (rel, others) = cut(words, " ");
    let (sym, place) = cut(others, " ");
    let mono = mono(theory, rel, up, sym, number(place))?;
    let name = Text::from_str(alloc, name)?;
    Ok(Decl::Monotone { name, mono })
}

fn number(word: &str) -> u32 {
    decimal_number(word).unwrap_or(0)
}

/// A declaration over numbers alone, by the words of a line and what stands behind the colon. The
/// variables of clauses and measures are `x` and `y`, in this order.
fn decl(alloc: Global, theory: &Theory, line: &str) -> Result<Decl, Fail> {
    let (head, text) = cut(line, ": ");
    let (kind, words) = cut(head, " ");
    let (name, more) = cut(words, " ");
    match kind {
        "fun" => Ok(fun(alloc, name, number(more))?),
        "rel" => Ok(rel(alloc, name, number(more))?),
        "list" => Ok(list(alloc, name, more)?),
        "over" => Ok(over(alloc, name, number(more))?),
        "clause" => fun_clause(alloc, theory, words, text),
        "case" => rel_clause(alloc, theory, words, text),
        "order" => order(alloc, theory, name, number(more), text),
        "axiom" => axiom(alloc, theory, name, text),
        "up" => row(alloc, theory, name, true, more),
        "down" => row(alloc, theory, name, false, more),
        _ => Err(Fail::new("no kind")),
    }
}

/// Whether the theory took the declaration.
fn is_taken(alloc: Global, theory: &mut Theory, line: &str) -> Result<bool, Fail> {
    let decl = decl(alloc, theory, line)?;
    match theory.declare(decl) {
        Ok(()) => Ok(true),
        Err(DeclError::Refused) => Ok(false),
        Err(DeclError::NoMemory) => Err(Fail::new("no memory")),
    }
}

fn begun(alloc: Global) -> Result<Theory, Fail> {
    match Theory::new(alloc, "basics") {
        Ok(theory) => Ok(theory),
        Err(_) => Err(Fail::new("no theory")),
    }
}

/// Declares the lines of a table in order. Each answer is the one behind the arrow.
fn declares<R: Abort>(rt: &R, alloc: Global, theory: &mut Theory, table: &str) -> Result<(), Fail> {
    for line in table.lines() {
        let (decl, want) = cut(line, " => ");
        let got = is_taken(alloc, theory, decl)?;
        assert!(rt; got == (want == "yes"), "at {line}");
    }
    Ok(())
}

/// Numbers with predecessor, doubling and their order.
const BASICS: &str = "\
fun p 1 => yes
clause 0: 0 => yes
clause s(x): x => yes
fun dbl 1 => yes
clause 0: 0 => yes
clause s(x): s(s(dbl(x))) => yes
rel le 2 => yes
case x; 0: x = 0 => yes
case x; s(y): x = s(y) or le(x, y) => yes
order below 1: x => yes
axiom refl: all x: nat. le(x, x) => yes
axiom gap: not (all x: nat. le(x, 0)) => yes
up trans le le 2 => yes";

/// What may not follow, and then what may.
const OTHERS: &str = "\
fun p 1 => no
fun none 0 => no
clause x: x => no
axiom refl: true => no
axiom le: true => no
axiom bind: all gap: nat. le(gap, gap) => no
axiom own: all own: nat. le(own, own) => no
down again le le 2 => no
up third le le 3 => no
up none p le 1 => no
order wide 5: x => no
order over 1: y => no
list L gap => no
list L L => no
over early 0 => no
list L empty => yes
over late 0 => yes
over other 1 => no
down first le le 1 => yes
order both 2: s(y) => yes
rel much 65 => no
rel wide 64 => yes";

/// Clauses in order, and out of it.
const CLAUSES: &str = "\
fun g 2 => yes
rel r 1 => no
clause x: x => no
clause x; s(y): x => no
clause x; 0: g(x, 0) => no
clause x; 0: y => no
clause x; 0: x => yes
axiom early: true => no
clause s(x); y: x => no
clause x; s(y): g(x, s(y)) => no
clause x; s(y): g(s(x), y) => yes
clause x; y: x => no";

fn declare_numbers(rt: &impl Abort, alloc: Global, theory: &mut Theory) -> Result<(), Fail> {
    declares(rt, alloc, theory, BASICS)?;
    assert!(rt; theory.is_whole());
    declares(rt, alloc, theory, OTHERS)
}

#[test]
fn declares_numbers(rt: HostRuntime) -> Result<(), Fail> {
    let mut theory = begun(rt.alloc())?;
    declare_numbers(&rt, rt.alloc(), &mut theory)
}

/// The theory of numbers.
pub(crate) fn numbers(rt: &impl Abort, alloc: Global) -> Result<Theory, Fail> {
    let mut theory = begun(alloc)?;
    declares(rt, alloc, &mut theory, BASICS)?;
    Ok(theory)
}

/// A copy of it, once it is gone.
fn numbers_again(rt: &impl Abort, alloc: Global) -> Result<Theory, Fail> {
    let theory = numbers(rt, alloc)?;
    Ok(theory.copy()?)
}

fn go_on(rt: &impl Abort, alloc: Global, theory: &mut Theory) -> Result<(), Fail> {
    assert!(rt; theory.name() == "basics" && theory.is_whole());
    declares(rt, alloc, theory, OTHERS)
}

#[test]
fn goes_on_in_a_copy(rt: HostRuntime) -> Result<(), Fail> {
    let mut copy = numbers_again(&rt, rt.alloc())?;
    go_on(&rt, rt.alloc(), &mut copy)
}

fn take_clauses(rt: &impl Abort, alloc: Global, theory: &mut Theory) -> Result<(), Fail> {
    declares(rt, alloc, theory, CLAUSES)?;
    assert!(rt; theory.is_whole());
    Ok(())
}

#[test]
fn takes_clauses_in_order(rt: HostRuntime) -> Result<(), Fail> {
    let mut theory = begun(rt.alloc())?;
    take_clauses(&rt, rt.alloc(), &mut theory)
}

// One text for each form of expression, written by hand. What a sample needs is made in small
// steps, and a bank of its own makes each term.
ghost use Rattle.std.specs.Prelude.{IfOk};
ghost use Rattle.syn_term.specs.Bank.{Belongs};

use sqlite_items::Items;
use std::alloc::Global;
use std::process::Abort;
use std::test::Fail;
use syn_cases::added;
use syn_expr::{Scope, print_form, print_out, print_qform, print_term};
use syn_form::{Binder, Form, Out, QForm};
use syn_term::{Bank, Kind, NoMemory, Shared, Sort, SymId, Symbols, Term, Text, Var};

const NAT: Sort = Sort::Nat;

const ZERO: SymId = SymId(0);

const SUCC: SymId = SymId(1);

/// A table with a sort of lists, two inputs, a relation and a Skolem symbol.
#[derive(Drop)]
struct Table {
    syms: Symbols,
    list: Sort,
    a: SymId,
    b: SymId,
    le: SymId,
    gap: SymId,
}

fn make_table(alloc: Global) -> Result<Table, Fail> {
    let mut syms = Symbols::new(alloc)?;
    let Some(list) = syms.add_list("L", "empty", "put", NAT)? else {
        return Err(Fail::new("no sort"));
    };
    let a = added(alloc, &mut syms, "a", Kind::Input, &[], Some(NAT))?;
    let b = added(alloc, &mut syms, "b", Kind::Input, &[], Some(NAT))?;
    let le = added(alloc, &mut syms, "le", Kind::Rel, &[NAT, NAT], None)?;
    let gap = added(alloc, &mut syms, "!gap.1", Kind::Skolem, &[NAT], Some(NAT))?;
    Ok(Table {
        syms,
        list,
        a,
        b,
        le,
        gap,
    })
}

/// The scope of rows.
fn in_rows(table: &Table) -> Scope<'_> {
    Scope {
        syms: &table.syms,
        names: &[],
        rows: true,
    }
}

/// A symbol without arguments.
fn constant(alloc: Global, table: &Table, f: SymId) -> Result<Term, Fail> {
    let mut bank = Bank::new(alloc);
    match bank.app(alloc, &table.syms, f, &[])? {
        None => Err(Fail::new("no constant")),
        Some(t) => Ok(t),
    }
}

fn variable(alloc: Global, number: u32, sort: Sort) -> Result<Term, NoMemory> {
    let mut bank = Bank::new(alloc);
    bank.var(alloc, Var { number, sort })
}

/// The symbol over the variable with this number.
fn applied(alloc: Global, table: &Table, f: SymId, number: u32) -> Result<Term, Fail> {
    let mut bank = Bank::new(alloc);
    let v = bank.var(alloc, Var { number, sort: NAT })?;
    match bank.app(alloc, &table.syms, f, &[v])? {
        None => Err(Fail::new("no term")),
        Some(t) => Ok(t),
    }
}

fn successor(alloc: Global, bank: &mut Bank, table: &Table, t: Term) -> Result<Term, Fail>
    requires { Belongs bank.old t }
    ensures { IfOk result (Belongs bank.new) }
{
    match bank.app(alloc, &table.syms, SUCC, &[t])? {
        None => Err(Fail::new("no successor")),
        Some(t) => Ok(t),
    }
}

/// So many successors of 0.
fn number(alloc: Global, table: &Table, count: u32) -> Result<Term, Fail> {
    let mut bank = Bank::new(alloc);
    let Some(mut t) = bank.app(alloc, &table.syms, ZERO, &[])? else {
        return Err(Fail::new("no zero"));
    };
    for _ in 0..count {
        t = successor(alloc, &mut bank, table, t)?;
    }
    Ok(t)
}

fn two<T: Drop>(alloc: Global, x: T, y: T) -> Result<Shared<Items<T>>, NoMemory> {
    let mut items = Items::new(alloc);
    items.push(x)?;
    items.push(y)?;
    Ok(Shared::new(alloc, items)?)
}

/// An equality of two symbols without arguments.
fn equal(alloc: Global, table: &Table, f: SymId, g: SymId) -> Result<Form, Fail> {
    let s = constant(alloc, table, f)?;
    let t = constant(alloc, table, g)?;
    Ok(Form::Equal(s, t))
}

/// `le(a, b) or a = b`
fn either(alloc: Global, table: &Table) -> Result<Form, Fail> {
    let a = constant(alloc, table, table.a)?;
    let b = constant(alloc, table, table.b)?;
    let le = Form::Atom(table.le, two(alloc, a, b)?);
    let same = equal(alloc, table, table.a, table.b)?;
    Ok(Form::Or(two(alloc, le, same)?))
}

/// `(le(a, b) or a = b) and true`
fn both(alloc: Global, table: &Table) -> Result<Form, Fail> {
    let left = either(alloc, table)?;
    Ok(Form::And(two(alloc, left, Form::True)?))
}

fn implies(alloc: Global, f: Form, g: Form) -> Result<Form, NoMemory> {
    let f = Shared::new(alloc, f)?;
    let g = Shared::new(alloc, g)?;
    Ok(Form::Implies(f, g))
}

fn not(alloc: Global, f: Form) -> Result<Form, NoMemory> {
    Ok(Form::Not(Shared::new(alloc, f)?))
}

/// `a = b -> (b = a -> false)`
fn steps(alloc: Global, table: &Table) -> Result<Form, Fail> {
    let first = equal(alloc, table, table.a, table.b)?;
    let second = equal(alloc, table, table.b, table.a)?;
    let rest = implies(alloc, second, Form::False)?;
    Ok(implies(alloc, first, rest)?)
}

fn binder(alloc: Global, number: u32, sort: Sort, name: &str) -> Result<Binder, NoMemory> {
    Ok(Binder {
        var: Var { number, sort },
        name: Text::from_str(alloc, name)?,
    })
}

fn all(alloc: Global, b: Binder, f: QForm) -> Result<QForm, NoMemory> {
    Ok(QForm::All(b, Shared::new(alloc, f)?))
}

/// `some y: L. le(x, y)`, where x is variable 1
fn above(alloc: Global, table: &Table) -> Result<QForm, Fail> {
    let x = variable(alloc, 1, NAT)?;
    let y = variable(alloc, 2, table.list)?;
    let le = QForm::Atom(table.le, two(alloc, x, y)?);
    let b = binder(alloc, 2, table.list, "y")?;
    Ok(QForm::Exists(b, Shared::new(alloc, le)?))
}

/// `all x: nat. (some y: L. le(x, y))`
fn bounded(alloc: Global, table: &Table) -> Result<QForm, Fail> {
    let inner = above(alloc, table)?;
    let b = binder(alloc, 1, NAT, "x")?;
    Ok(all(alloc, b, inner)?)
}

/// `all x: nat. x = n`, where n is variable 0
fn equal_all(alloc: Global) -> Result<QForm, NoMemory> {
    let x = variable(alloc, 1, NAT)?;
    let n = variable(alloc, 0, NAT)?;
    let b = binder(alloc, 1, NAT, "x")?;
    all(alloc, b, QForm::Equal(x, n))
}

/// `if f = 0 then g else ..`
fn choice(alloc: Global, table: &Table, f: SymId, g: SymId, rest: Out) -> Result<Out, Fail> {
    let test = Shared::new(alloc, equal(alloc, table, f, ZERO)?)?;
    let then = Shared::new(alloc, Out::Give(constant(alloc, table, g)?))?;
    Ok(Out::If(test, then, Shared::new(alloc, rest)?))
}

/// `if a = 0 then b else if b = 0 then a else 0`
fn choices(alloc: Global, table: &Table) -> Result<Out, Fail> {
    let zero = Out::Give(constant(alloc, table, ZERO)?);
    let inner = choice(alloc, table, table.b, table.a, zero)?;
    choice(alloc, table, table.a, table.b, inner)
}

fn term_text(alloc: Global, table: &Table, t: Term) -> Result<String, Fail> {
    Ok(print_term(alloc, &in_rows(table), &t)?)
}

fn form_text(alloc: Global, table: &Table, f: Form) -> Result<String, Fail> {
    Ok(print_form(alloc, &in_rows(table), &f)?)
}

/// The text of a formula in a file, where `n` is variable 0.
fn qform_text(alloc: Global, table: &Table, f: QForm) -> Result<String, Fail> {
    let var = Var {
        number: 0,
        sort: NAT,
    };
    let names = [(String::from_str(alloc, "n")?, var)];
    let scope = Scope {
        syms: &table.syms,
        names: &names,
        rows: false,
    };
    Ok(print_qform(alloc, &scope, &f)?)
}

fn out_text(alloc: Global, table: &Table, o: Out) -> Result<String, Fail> {
    Ok(print_out(alloc, &in_rows(table), &o)?)
}

#[derive(Clone, Copy)]
enum Sample {
    Number(u32),
    Row(u32),
    ListRow(u32),
    Successor,
    Skolem,
    Chain,
    NotEqual,
    NotChain,
    Steps,
    Bounded,
    Named,
    Choices,
}

fn text_of_term(alloc: Global, table: &Table, sample: Sample) -> Result<String, Fail> {
    let t = match sample {
        Sample::Number(count) => number(alloc, table, count)?,
        Sample::Row(number) => variable(alloc, number, NAT)?,
        Sample::ListRow(number) => variable(alloc, number, table.list)?,
        Sample::Successor => applied(alloc, table, SUCC, 3)?,
        _ => applied(alloc, table, table.gap, 1)?,
    };
    term_text(alloc, table, t)
}

fn text_of(alloc: Global, table: &Table, sample: Sample) -> Result<String, Fail> {
    match sample {
        Sample::Chain => form_text(alloc, table, both(alloc, table)?),
        Sample::NotEqual => {
            let same = equal(alloc, table, table.a, table.b)?;
            form_text(alloc, table, not(alloc, same)?)
        }
        Sample::NotChain => {
            let chain = both(alloc, table)?;
            form_text(alloc, table, not(alloc, chain)?)
        }
        Sample::Steps => form_text(alloc, table, steps(alloc, table)?),
        Sample::Bounded => qform_text(alloc, table, bounded(alloc, table)?),
        Sample::Named => qform_text(alloc, table, equal_all(alloc)?),
        Sample::Choices => out_text(alloc, table, choices(alloc, table)?),
        _ => text_of_term(alloc, table, sample),
    }
}

/// The text of the sample.
fn prints(
    rt: &impl Abort,
    alloc: Global,
    table: &Table,
    sample: Sample,
    want: &str,
) -> Result<(), Fail> {
    let text = text_of(alloc, table, sample)?;
    assert_eq!(rt; text.as_str(), want);
    Ok(())
}

fn print_terms(rt: &impl Abort, alloc: Global, table: &Table) -> Result<(), Fail> {
    prints(rt, alloc, table, Sample::Number(0), "0")?;
    prints(rt, alloc, table, Sample::Number(1000), "1000")?;
    prints(rt, alloc, table, Sample::Number(1001), "s(1000)")?;
    prints(rt, alloc, table, Sample::Number(1003), "s(s(s(1000)))")?;
    prints(rt, alloc, table, Sample::Row(1), "?1")?;
    prints(rt, alloc, table, Sample::ListRow(2), "?2:L")?;
    prints(rt, alloc, table, Sample::Successor, "s(?3)")?;
    prints(rt, alloc, table, Sample::Skolem, "!gap.1(?1)")
}

fn print_formulas(rt: &impl Abort, alloc: Global, table: &Table) -> Result<(), Fail> {
    prints(
        rt,
        alloc,
        table,
        Sample::Chain,
        "(le(a, b) or a = b) and true",
    )?;
    prints(rt, alloc, table, Sample::NotEqual, "not a = b")?;
    prints(
        rt,
        alloc,
        table,
        Sample::NotChain,
        "not ((le(a, b) or a = b) and true)",
    )?;
    prints(rt, alloc, table, Sample::Steps, "a = b -> (b = a -> false)")?;
    prints(
        rt,
        alloc,
        table,
        Sample::Bounded,
        "all x: nat. (some y: L. le(x, y))",
    )?;
    prints(rt, alloc, table, Sample::Named, "all x: nat. x = n")?;
    prints(
        rt,
        alloc,
        table,
        Sample::Choices,
        "if a = 0 then b else if b = 0 then a else 0",
    )
}

#[test]
fn prints_samples(rt: HostRuntime) -> Result<(), Fail> {
    let table = make_table(rt.alloc())?;
    print_terms(&rt, rt.alloc(), &table)?;
    print_formulas(&rt, rt.alloc(), &table)
}

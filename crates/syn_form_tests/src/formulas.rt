// Parts and signs of formulas, the numbers of formulas and outputs at the edges of their limits, and when
// two are one tree.
ghost use Rattle.std.specs.Prelude.{◌≡◌, [], IfOk};
ghost use Rattle.syn_form.specs.Trees.{form_terms};
ghost use Rattle.syn_term.specs.Bank.{Belongs};

use sqlite_items::Items;
use std::alloc::Global;
use std::process::Abort;
use std::test::Fail;
use syn_form::{Binder, Form, Out, Part, QForm, polarity};
use syn_term::{Bank, NoMemory, Pos, Shared, Sort, SymId, Term, Text, Var};

/// Positions of `le(a, b) -> a = b`. Behind each stands what is there, a formula, a term or nothing, and the
/// sign: `+`, `-`, or `.` for none.
const POSITIONS: &str = "f+ 0n. 1f- 10n. 11t. 111n. 13n. 2f+ 22t. 3n.";

const X: Var = Var {
    number: 1,
    sort: Sort::Nat,
};

fn variable(alloc: Global, bank: &mut Bank, number: u32) -> Result<Term, NoMemory>
    ensures { IfOk result (Belongs bank.new) }
{
    let sort = Sort::Nat;
    bank.var(alloc, Var { number, sort })
}

/// `le(a, b)`.
fn less(alloc: Global, a: &Term, b: &Term) -> Result<Shared<Form>, NoMemory> {
    let mut args = Items::new(alloc);
    args.push(a.again()?)?;
    args.push(b.again()?)?;
    let args = Shared::new(alloc, args)?;
    Ok(Shared::new(alloc, Form::Atom(SymId(2), args))?)
}

/// `a = b`.
fn equal(alloc: Global, a: &Term, b: &Term) -> Result<Shared<Form>, NoMemory> {
    let a = a.again()?;
    Ok(Shared::new(alloc, Form::Equal(a, b.again()?))?)
}

/// `le(a, b) -> a = b`.
fn less_implies_equal(alloc: Global) -> Result<Shared<Form>, NoMemory> {
    let mut bank = Bank::new(alloc);
    let a = variable(alloc, &mut bank, 1)?;
    let b = variable(alloc, &mut bank, 2)?;
    let left = less(alloc, &a, &b)?;
    let right = equal(alloc, &a, &b)?;
    Ok(Shared::new(alloc, Form::Implies(left, right))?)
}

/// Whether such a thing stands at the position.
fn stands(f: &Form, pos: &Pos, kind: u8) -> bool {
    match f.at(pos) {
        Some(Part::F(_)) => kind == b'f',
        Some(Part::T(_)) => kind == b't',
        None => kind == b'n',
    }
}

/// Whether the position has the sign.
fn has_sign(f: &Form, pos: &Pos, sign: u8) -> bool {
    match polarity(f, pos) {
        Some(true) => sign == b'+',
        Some(false) => sign == b'-',
        None => sign == b'.',
    }
}

/// The number of the first row that is wrong, 0 where none is.
fn wrong_position(alloc: Global, f: &Form, table: &str) -> Result<u32, NoMemory> {
    let mut pos = Pos::root(alloc);
    let mut row: u32 = 0;
    let mut right = true;
    for letter in table.as_bytes() {
        match *letter {
            b' ' => pos = Pos::root(alloc),
            b'0'..=b'9' => pos.push(u32::from(*letter - b'0'))?,
            b'f' | b't' | b'n' => right = stands(f, &pos, *letter),
            sign => {
                row = row.saturating_add(1);
                if !right || !has_sign(f, &pos, sign) {
                    return Ok(row);
                }
            }
        }
    }
    Ok(0)
}

#[test]
fn finds_parts_and_signs(rt: HostRuntime) -> Result<(), Fail> {
    let f = less_implies_equal(rt.alloc())?;
    assert_eq!(rt; wrong_position(rt.alloc(), f.get(), POSITIONS)?, 0);
    Ok(())
}

/// The number of the first row that is wrong, 0 where none is: a limit, and the size and depth within it.
fn wrong_measure(f: &Form, rows: &[(u32, u64, u64)]) -> usize {
    for i in 0..rows.len() {
        let (cap, size, depth) = rows[i];
        if f.size(cap) != size || f.depth(cap) != depth {
            return i.saturating_add(1);
        }
    }
    0
}

/// A formula one of whose parts stands in it twice.
fn doubled(alloc: Global) -> Result<Form, NoMemory> {
    let part = less_implies_equal(alloc)?;
    Ok(Form::Implies(part.again()?, part))
}

#[test]
fn counts_shared_parts_as_often_as_they_stand(rt: HostRuntime) -> Result<(), Fail> {
    let f = doubled(rt.alloc())?;
    let rows = [
        (0, 1, 1),
        (1, 2, 2),
        (3, 4, 4),
        (13, 14, 4),
        (14, 15, 4),
        (15, 15, 4),
    ];
    assert_eq!(rt; wrong_measure(&f, &rows), 0);
    Ok(())
}

/// So many nodes one below the other: `not not .. not true`.
pub fn tall(alloc: Global, nodes: u32) -> Result<Shared<Form>, NoMemory>
    ensures { IfOk result (λ f. form_terms f ≡ []) }
{
    let mut f = Shared::new(alloc, Form::True)?;
    for _ in 1..nodes {
        f = Shared::new(alloc, Form::Not(f))?;
    }
    Ok(f)
}

/// A chain of so many nodes.
pub fn wide(alloc: Global, nodes: u32) -> Result<Shared<Form>, NoMemory>
    ensures { IfOk result (λ f. form_terms f ≡ []) }
{
    let mut all = Items::new(alloc);
    for _ in 1..nodes {
        all.push(Form::True)?;
    }
    let all = Shared::new(alloc, all)?;
    Ok(Shared::new(alloc, Form::And(all))?)
}

/// The size and the depth of the first formula, and whether the two are one tree.
fn compared(f: &Form, g: &Form) -> (u64, u64, bool)
    requires first { form_terms f.now ≡ [] }
    requires second { form_terms g.now ≡ [] }
{
    (f.size(65_536), f.depth(65_536), f.same(g))
}

fn compared_tall(alloc: Global, nodes: u32, others: u32) -> Result<(u64, u64, bool), NoMemory> {
    let f = tall(alloc, nodes)?;
    Ok(compared(f.get(), tall(alloc, others)?.get()))
}

fn compared_wide(alloc: Global, nodes: u32, others: u32) -> Result<(u64, u64, bool), NoMemory> {
    let f = wide(alloc, nodes)?;
    Ok(compared(f.get(), wide(alloc, others)?.get()))
}

#[test]
fn measures_and_compares_large_formulas(rt: HostRuntime) -> Result<(), Fail> {
    let alloc = rt.alloc();
    assert!(rt; compared_tall(alloc, 2400, 2400)? == (2400, 2400, true));
    assert!(rt; compared_tall(alloc, 2400, 2399)? == (2400, 2400, false));
    assert!(rt; compared_wide(alloc, 65_536, 65_536)? == (65_536, 2, true));
    assert!(rt; compared_wide(alloc, 65_536, 65_535)? == (65_536, 2, false));
    Ok(())
}

/// Whether an output that gives this term and the same output once more are one tree.
fn given_again(bank: &Bank, t: &Term) -> Result<bool, NoMemory>
    requires { Belongs bank.now t.now }
{
    let o = Out::Give(t.again()?);
    match o.again() {
        Ok(p) => {
            let same = o.same(&p);
            drop(o);
            drop(p);
            Ok(same)
        }
        Err(error) => {
            drop(o);
            Err(error)
        }
    }
}

/// A choice between a term and the same term.
fn choice(alloc: Global, t: &Term) -> Result<Out, NoMemory> {
    let test = Shared::new(alloc, Form::True)?;
    let arm = Shared::new(alloc, Out::Give(t.again()?))?;
    Ok(Out::If(test, arm.again()?, arm))
}

/// The size and the depth of the output within a limit.
fn out_measure(o: &Out, cap: u32) -> (u64, u64) {
    (o.size(cap), o.depth(cap))
}

/// A choice between a variable and the same variable.
fn choice_of_variable(alloc: Global, bank: &mut Bank) -> Result<Out, NoMemory> {
    let t = variable(alloc, bank, 1)?;
    choice(alloc, &t)
}

fn measures_output(rt: &impl Abort, o: &Out) {
    assert!(rt; out_measure(o, 0) == (1, 1));
    assert!(rt; out_measure(o, 1) == (2, 2));
    assert!(rt; out_measure(o, 2) == (3, 2));
    assert!(rt; out_measure(o, 3) == (4, 2));
    assert!(rt; out_measure(o, 4) == (4, 2));
}

#[test]
fn measures_outputs(rt: HostRuntime) -> Result<(), Fail> {
    let o = choice_of_variable(rt.alloc(), &mut Bank::new(rt.alloc()))?;
    measures_output(&rt, &o);
    Ok(())
}

#[test]
fn compares_outputs(rt: HostRuntime) -> Result<(), Fail> {
    let mut bank = Bank::new(rt.alloc());
    let t = variable(rt.alloc(), &mut bank, 1)?;
    assert!(rt; given_again(&bank, &t)?);
    Ok(())
}

/// `all x: nat. true`.
fn all_true(alloc: Global) -> Result<QForm, NoMemory> {
    let a = Shared::new(alloc, QForm::True)?;
    match Text::from_str(alloc, "x") {
        Ok(name) => Ok(QForm::All(Binder { var: X, name }, a)),
        Err(_) => {
            drop(a);
            Err(NoMemory)
        }
    }
}

fn is_all_true(f: &QForm) -> bool {
    match f {
        QForm::All(b, a) => {
            b.var == X && b.name.as_str() == "x" && matches!(a.get(), QForm::True)
        }
        _ => false,
    }
}

#[test]
fn keeps_quantified_formulas(rt: HostRuntime) -> Result<(), Fail> {
    let f = all_true(rt.alloc())?;
    let again = f.again()?;
    assert!(rt; is_all_true(&f) && is_all_true(&again));
    Ok(())
}

// Formulas with parts replaced: subformulas by a truth value, a term at a position, and inputs by terms.
ghost use Rattle.std.specs.Prelude.{◌≡◌, [], All, IfOk};
ghost use Rattle.syn_form.specs.Inputs.{InputsBelong};
ghost use Rattle.syn_form.specs.Trees.{form_terms};
ghost use Rattle.syn_term.specs.Bank.{Belongs, Extends};

use crate::formulas::{tall, wide};
use std::alloc::Global;
use std::process::Abort;
use std::test::Fail;
use syn_cases::{added, cut};
use syn_form::{Form, Part, are_inputs, is_formed_form, put_inputs, replace_all, replace_term};
use syn_term::{
    Bank, Head, Kind, NoMemory, Pos, Shared, Sort, SymId, Symbols, Term, Var, decimal_number,
};

const SUCC: SymId = SymId(1);

const X: SymId = SymId(2);

/// A position in `P -> P`, where `P` is `x = s(x)` and stands once in memory, the sort of the variable
/// that is put there, and how many nodes are made for it.
const REPLACED: &str = "\
1 1 : nat => 0
1 2 : nat => 0
2 1 : nat => 0
2 2 1 : nat => 1
1 2 1 : nat => 1
1 1 : 0 => no
2 2 1 : 0 => no
: nat => no
1 : nat => no
3 1 : nat => no
1 0 : nat => no
1 3 : nat => no
1 1 1 : nat => no
2 2 1 1 : nat => no";

const PROBES: &str = "1 1:1 2:1 2 1:2 1:2 2:2 2 1";

fn variable(sort: &str) -> Var {
    Var {
        number: 7,
        sort: syn_cases::sort_of(sort),
    }
}

/// The position with so many times 1, and then the numbers of the text.
fn position(alloc: Global, ones: u32, text: &str) -> Result<Pos, NoMemory> {
    let mut pos = Pos::root(alloc);
    for _ in 0..ones {
        pos.push(1)?;
    }
    for word in text.split(' ') {
        if let Some(k) = decimal_number(word) {
            pos.push(k)?;
        }
    }
    Ok(pos)
}

/// A table with an input `x`.
fn make_table(alloc: Global) -> Result<Symbols, Fail> {
    let mut syms = Symbols::new(alloc)?;
    added(alloc, &mut syms, "x", Kind::Input, &[], Some(Sort::Nat))?;
    Ok(syms)
}

/// `x = s(x)`
fn equation(alloc: Global, syms: &Symbols) -> Result<Form, Fail> {
    let mut bank = Bank::new(alloc);
    let Some(x) = bank.app(alloc, syms, X, &[])? else {
        return Err(Fail::new("no input"));
    };
    match bank.app(alloc, syms, SUCC, &[x.again()?])? {
        None => Err(Fail::new("no successor")),
        Some(after) => Ok(Form::Equal(x, after)),
    }
}

/// `not .. not f`, with so many times `not`.
fn under(alloc: Global, f: Form, count: u32) -> Result<Form, NoMemory> {
    let mut f = f;
    for _ in 0..count {
        f = Form::Not(Shared::new(alloc, f)?);
    }
    Ok(f)
}

/// The formula with terms put in, made by the bank.
fn put(
    bank: &mut Bank,
    alloc: Global,
    syms: &Symbols,
    f: &Form,
    inputs: &[(SymId, Term)],
) -> Result<Form, Fail>
    requires { InputsBelong bank.old inputs.now }
    ensures extends { Extends bank.old bank.new }
    ensures belongs { IfOk result (λ g. All (Belongs bank.new) (form_terms g)) }
{
    if !is_formed_form(syms, f) {
        return Err(Fail::new("not formed"));
    }
    if !are_inputs(syms, inputs) {
        return Err(Fail::new("no inputs"));
    }
    Ok(put_inputs(alloc, bank, syms, f, inputs)?)
}

/// `P -> P`
fn doubled(alloc: Global, bank: &Bank, part: Form) -> Result<Form, NoMemory>
    requires { All (Belongs bank.now) (form_terms part) }
    ensures { IfOk result (λ f. All (Belongs bank.now) (form_terms f)) }
{
    let part = Shared::new(alloc, part)?;
    Ok(Form::Implies(part.again()?, part))
}

/// What stands at the top of the term at a position.
fn head_at(f: &Form, pos: &Pos) -> Option<Head> {
    match f.at(pos) {
        Some(Part::T(t)) => Some(t.head()),
        _ => None,
    }
}

/// At how many of the positions the variable stands.
fn count_variables(alloc: Global, f: &Form, v: Var) -> Result<usize, NoMemory> {
    let mut count = 0usize;
    for probe in PROBES.split(':') {
        let pos = position(alloc, 0, probe)?;
        if head_at(f, &pos) == Some(Head::Var(v)) {
            count = count.saturating_add(1);
        }
    }
    Ok(count)
}

/// At how many positions the variable stands, of which this is one.
fn places(alloc: Global, g: &Form, pos: &Pos, v: Var) -> Result<usize, Fail> {
    if head_at(g, pos) == Some(Head::Var(v)) {
        Ok(count_variables(alloc, g, v)?)
    } else {
        Err(Fail::new("another place"))
    }
}

/// The nodes made to put the term at the position, and at how many positions it stands then. None: it
/// may not be put there.
fn made_by(
    alloc: Global,
    bank: &mut Bank,
    syms: &Symbols,
    f: &Form,
    pos: &Pos,
    new: &Term,
    v: Var,
) -> Result<Option<(u64, usize)>, Fail>
    requires form { All (Belongs bank.old) (form_terms f.now) }
    requires new { Belongs bank.old new.now }
{
    let before = bank.made();
    match replace_term(alloc, bank, syms, f, pos, new)? {
        None => Ok(None),
        Some(g) => {
            let count = places(alloc, &g, pos, v)?;
            Ok(Some((bank.made().saturating_sub(before), count)))
        }
    }
}

/// The same of the variable.
fn made_by_variable(
    alloc: Global,
    bank: &mut Bank,
    syms: &Symbols,
    f: &Form,
    pos: &Pos,
    v: Var,
) -> Result<Option<(u64, usize)>, Fail>
    requires { All (Belongs bank.old) (form_terms f.now) }
{
    let new = bank.var(alloc, v)?;
    made_by(alloc, bank, syms, f, pos, &new, v)
}

/// `P -> P`, whose terms the bank makes.
fn doubled_again(alloc: Global, bank: &mut Bank, syms: &Symbols, f: &Form) -> Result<Form, Fail>
    ensures { IfOk result (λ g. All (Belongs bank.new) (form_terms g)) }
{
    let part = put(bank, alloc, syms, f, &[])?;
    Ok(doubled(alloc, bank, part)?)
}

/// The same in `P -> P`.
fn made_for(
    alloc: Global,
    bank: &mut Bank,
    syms: &Symbols,
    f: &Form,
    pos: &Pos,
    v: Var,
) -> Result<Option<(u64, usize)>, Fail> {
    let f = doubled_again(alloc, bank, syms, f)?;
    made_by_variable(alloc, bank, syms, &f, pos, v)
}

/// The same at the position of the text, behind so many times 1.
fn made_at(
    alloc: Global,
    syms: &Symbols,
    f: &Form,
    ones: u32,
    path: &str,
    v: Var,
) -> Result<Option<(u64, usize)>, Fail> {
    let pos = position(alloc, ones, path)?;
    made_for(alloc, &mut Bank::new(alloc), syms, f, &pos, v)
}

fn replace_terms(rt: &impl Abort, alloc: Global, syms: &Symbols, f: &Form) -> Result<(), Fail> {
    for line in REPLACED.lines() {
        let (row, made) = cut(line, " => ");
        let (path, sort) = cut(row, ": ");
        let got = made_at(alloc, syms, f, 0, path, variable(sort))?;
        assert!(rt;
            got == decimal_number(made).map(|n| (u64::from(n), 1)),
            "at {row}"
        );
    }
    Ok(())
}

#[test]
fn replaces_one_term(rt: HostRuntime) -> Result<(), Fail> {
    let syms = make_table(rt.alloc())?;
    let f = equation(rt.alloc(), &syms)?;
    replace_terms(&rt, rt.alloc(), &syms, &f)
}

/// `x = s(x)` under so many times `not`.
fn deep_equation(alloc: Global, syms: &Symbols, depth: u32) -> Result<Form, Fail> {
    let f = equation(alloc, syms)?;
    Ok(under(alloc, f, depth)?)
}

/// One node is made at a depth of 2,400.
#[test]
fn replaces_a_deep_term(rt: HostRuntime) -> Result<(), Fail> {
    let syms = make_table(rt.alloc())?;
    let f = deep_equation(rt.alloc(), &syms, 2_396)?;
    let got = made_at(rt.alloc(), &syms, &f, 2_397, "2 1", variable("nat"))?;
    assert!(rt; got == Some((1, 0)));
    Ok(())
}

/// The formula with a variable for `x`.
fn with_variable(alloc: Global, bank: &mut Bank, syms: &Symbols, f: &Form) -> Result<Form, Fail> {
    let new = bank.var(alloc, variable("nat"))?;
    put(bank, alloc, syms, f, &[(X, new)])
}

/// The same of `x = s(x)` under so many times `not`.
fn deep_with_variable(
    alloc: Global,
    bank: &mut Bank,
    syms: &Symbols,
    depth: u32,
) -> Result<Form, Fail> {
    let f = deep_equation(alloc, syms, depth)?;
    with_variable(alloc, bank, syms, &f)
}

/// The head of the term at the position of the text, behind so many times 1.
fn side(alloc: Global, f: &Form, depth: u32, path: &str) -> Result<Option<Head>, Fail> {
    let pos = position(alloc, depth, path)?;
    Ok(head_at(f, &pos))
}

/// Whether the variable stands on both sides of that equality.
fn on_both_sides(alloc: Global, syms: &Symbols, depth: u32) -> Result<bool, Fail> {
    let v = Some(Head::Var(variable("nat")));
    let f = deep_with_variable(alloc, &mut Bank::new(alloc), syms, depth)?;
    Ok(side(alloc, &f, depth, "1")? == v && side(alloc, &f, depth, "2 1")? == v)
}

#[test]
fn puts_inputs_on_both_sides(rt: HostRuntime) -> Result<(), Fail> {
    let syms = make_table(rt.alloc())?;
    assert!(rt; on_both_sides(rt.alloc(), &syms, 0)?);
    assert!(rt; on_both_sides(rt.alloc(), &syms, 2_397)?);
    Ok(())
}

/// The formula with each that is the part replaced.
fn replaced(alloc: Global, f: &Form, part: &Form, by: bool) -> Result<Form, NoMemory>
    requires first { form_terms f.now ≡ [] }
    requires second { form_terms part.now ≡ [] }
{
    replace_all(alloc, f, part, by)
}

/// The number of nodes where the part is replaced by `true`.
fn left_in(alloc: Global, f: &Form, part: &Form) -> Result<u64, NoMemory>
    requires first { form_terms f.now ≡ [] }
    requires second { form_terms part.now ≡ [] }
{
    let g = replaced(alloc, f, part, true)?;
    Ok(g.size(65_536))
}

/// The nodes of `not .. not true` with so many nodes, where what has so many nodes is replaced.
fn left_of(alloc: Global, nodes: u32, part: u32) -> Result<u64, NoMemory> {
    let f = tall(alloc, nodes)?;
    let part = tall(alloc, part)?;
    left_in(alloc, f.get(), part.get())
}

/// How many members of an `and` are `false`.
fn count_false(f: &Form) -> usize {
    let mut count = 0usize;
    if let Form::And(all) = f {
        for member in all.get().as_slice() {
            if matches!(member, Form::False) {
                count = count.saturating_add(1);
            }
        }
    }
    count
}

/// How many of so many members `true` become `false` where each is replaced.
fn false_members(alloc: Global, members: u32) -> Result<usize, NoMemory> {
    let f = wide(alloc, members.saturating_add(1))?;
    let g = replaced(alloc, f.get(), &Form::True, false)?;
    Ok(count_false(&g))
}

#[test]
fn replaces_all_parts(rt: HostRuntime) -> Result<(), Fail> {
    assert!(rt; left_of(rt.alloc(), 5, 1)? == 5);
    assert!(rt; left_of(rt.alloc(), 5, 2)? == 4);
    assert!(rt; left_of(rt.alloc(), 5, 5)? == 1);
    assert!(rt; left_of(rt.alloc(), 5, 6)? == 5);
    assert!(rt; left_of(rt.alloc(), 2_400, 2_399)? == 2);
    assert!(rt; left_of(rt.alloc(), 2_400, 1)? == 2_400);
    assert!(rt; false_members(rt.alloc(), 4_000)? == 4_000);
    assert!(rt; false_members(rt.alloc(), 65_535)? == 65_535);
    Ok(())
}

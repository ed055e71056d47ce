// Terms written as short codes, each symbol behind its arguments: `x`, `y`, `z` and `w` are variables of
// the natural numbers, `X` and `Y` of a list sort, `0` is zero, `s` the successor and `f` a function of two
// numbers.
ghost use Rattle.std.specs.Prelude.{◌≡◌, All, IfOk, OnOk};
ghost use Rattle.syn_term.specs.Bank.{Belongs, Extends};
ghost use Rattle.syn_form.specs.Plain.{IsSorted};

use sqlite_items::Items;
use std::alloc::Global;
use std::test::Fail;
use syn_cases::added;
use syn_form::is_sorted;
use syn_term::{Bank, Kind, Node, Sort, SymId, Symbols, Term, Var};

const ZERO: SymId = SymId(0);

pub(crate) const SUCC: SymId = SymId(1);

pub(crate) const PAIR: SymId = SymId(2);

/// The relation `le` of two numbers.
pub(crate) const LESS: SymId = SymId(3);

const NIL: SymId = SymId(4);

const CONS: SymId = SymId(5);

/// The lists of numbers.
const LISTS: Sort = Sort::Named(0);

/// A table with `f`, `le`, and lists of numbers.
pub(crate) fn make_table(alloc: Global) -> Result<Symbols, Fail> {
    let mut syms = Symbols::new(alloc)?;
    let both = [Sort::Nat, Sort::Nat];
    let f = added(alloc, &mut syms, "f", Kind::Fun, &both, Some(Sort::Nat))?;
    let le = added(alloc, &mut syms, "le", Kind::Rel, &both, None)?;
    if f != PAIR || le != LESS {
        return Err(Fail::new("another number"));
    }
    match syms.add_list("nats", "nil", "cons", Sort::Nat)? {
        None => Err(Fail::new("no sort")),
        Some(_) => Ok(syms),
    }
}

/// The variable of a letter.
fn variable_of(code: char) -> Option<Var> {
    let (number, sort) = match code {
        'x' => (1, Sort::Nat),
        'y' => (2, Sort::Nat),
        'z' => (3, Sort::Nat),
        'w' => (4, Sort::Nat),
        'X' => (5, LISTS),
        'Y' => (6, LISTS),
        _ => return None,
    };
    Some(Var { number, sort })
}

/// The symbol applied to the terms.
pub(crate) fn applied(
    alloc: Global,
    bank: &mut Bank,
    syms: &Symbols,
    f: SymId,
    args: &[Term],
) -> Result<Term, Fail>
    requires args { All (Belongs bank.old) args.now }
    ensures extends { Extends bank.old bank.new }
    ensures belongs { IfOk result (Belongs bank.new) }
{
    match bank.app(alloc, syms, f, args)? {
        None => Err(Fail::new("no application")),
        Some(t) => Ok(t),
    }
}

/// The variable of the natural numbers with this number, as a term.
pub(crate) fn variable(alloc: Global, bank: &mut Bank, number: u32) -> Result<Term, Fail>
    ensures extends { Extends bank.old bank.new }
    ensures belongs { IfOk result (Belongs bank.new) }
{
    let v = Var {
        number,
        sort: Sort::Nat,
    };
    Ok(bank.var(alloc, v)?)
}

/// The list without items.
pub(crate) fn empty(alloc: Global, bank: &mut Bank, syms: &Symbols) -> Result<Term, Fail>
    ensures extends { Extends bank.old bank.new }
    ensures belongs { IfOk result (Belongs bank.new) }
{
    applied(alloc, bank, syms, NIL, &[])
}

/// The item before the list.
pub(crate) fn cons(
    alloc: Global,
    bank: &mut Bank,
    syms: &Symbols,
    item: Term,
    list: Term,
) -> Result<Term, Fail>
    requires item { Belongs bank.old item }
    requires list { Belongs bank.old list }
    ensures extends { Extends bank.old bank.new }
    ensures belongs { IfOk result (Belongs bank.new) }
{
    applied(alloc, bank, syms, CONS, &[item, list])
}

/// The last term.
fn taken(bank: &Bank, terms: &mut Items<Term>) -> Result<Term, Fail>
    requires { All (Belongs bank.now) terms.old }
    ensures term { IfOk result (Belongs bank.now) }
    ensures terms { OnOk result (All (Belongs bank.now) terms.new) }
{
    match terms.pop() {
        None => Err(Fail::new("no term")),
        Some(t) => Ok(t),
    }
}

/// Takes the last term, and puts its successor.
#[tactic(auto, using(crate::proofs::Growth::growth))]
fn put_successor(
    alloc: Global,
    bank: &mut Bank,
    syms: &Symbols,
    terms: &mut Items<Term>,
) -> Result<(), Fail>
    requires { All (Belongs bank.old) terms.old }
    ensures extends { Extends bank.old bank.new }
    ensures terms { OnOk result (All (Belongs bank.new) terms.new) }
{
    let a = taken(bank, terms)?;
    let t = applied(alloc, bank, syms, SUCC, &[a])?;
    terms.push(t)?;
    Ok(())
}

/// Takes the last two terms, and puts the pair of them.
#[tactic(auto, using(crate::proofs::Growth::growth))]
fn put_pair(
    alloc: Global,
    bank: &mut Bank,
    syms: &Symbols,
    terms: &mut Items<Term>,
) -> Result<(), Fail>
    requires { All (Belongs bank.old) terms.old }
    ensures extends { Extends bank.old bank.new }
    ensures terms { OnOk result (All (Belongs bank.new) terms.new) }
{
    let b = taken(bank, terms)?;
    let a = taken(bank, terms)?;
    let t = applied(alloc, bank, syms, PAIR, &[a, b])?;
    terms.push(t)?;
    Ok(())
}

/// Puts the variable of the letter.
#[tactic(auto, using(crate::proofs::Growth::growth))]
fn put_variable(
    alloc: Global,
    bank: &mut Bank,
    terms: &mut Items<Term>,
    code: char,
) -> Result<(), Fail>
    requires { All (Belongs bank.old) terms.old }
    ensures extends { Extends bank.old bank.new }
    ensures terms { OnOk result (All (Belongs bank.new) terms.new) }
{
    let Some(v) = variable_of(code) else {
        return Err(Fail::new("no such letter"));
    };
    terms.push(bank.var(alloc, v)?)?;
    Ok(())
}

/// One letter of a code: a term without arguments, or a symbol over the last terms.
#[tactic(auto, using(crate::proofs::Growth::growth))]
fn put(
    alloc: Global,
    bank: &mut Bank,
    syms: &Symbols,
    terms: &mut Items<Term>,
    code: char,
) -> Result<(), Fail>
    requires { All (Belongs bank.old) terms.old }
    ensures extends { Extends bank.old bank.new }
    ensures terms { OnOk result (All (Belongs bank.new) terms.new) }
{
    match code {
        '0' => {
            let t = applied(alloc, bank, syms, ZERO, &[])?;
            terms.push(t)?;
            Ok(())
        }
        's' => put_successor(alloc, bank, syms, terms),
        'f' => put_pair(alloc, bank, syms, terms),
        _ => put_variable(alloc, bank, terms, code),
    }
}

/// The term of a code, which is sorted.
#[tactic(auto, using(crate::proofs::Growth::growth))]
pub(crate) fn term_of(
    alloc: Global,
    bank: &mut Bank,
    syms: &Symbols,
    code: &str,
) -> Result<Term, Fail>
    ensures extends { Extends bank.old bank.new }
    ensures sorted { IfOk result (IsSorted syms.now) }
    ensures belongs { IfOk result (Belongs bank.new) }
{
    let mut terms = Items::new(alloc);
    for c in code.chars() {
        put(alloc, bank, syms, &mut terms, c)?;
    }
    let t = taken(bank, &mut terms)?;
    drop(terms);
    sorted(syms, t)
}

/// The term, where it is sorted.
pub(crate) fn sorted(syms: &Symbols, t: Term) -> Result<Term, Fail>
    ensures same { IfOk result (λ u. u ≡ t) }
    ensures sorted { IfOk result (IsSorted syms.now) }
{
    if is_sorted(syms, &t) {
        Ok(t)
    } else {
        drop(t);
        Err(Fail::new("not sorted"))
    }
}

/// The place of the variable among those seen so far, where it is put if it wasn't there.
fn place_of(seen: &mut Items<Var>, v: Var) -> Result<usize, Fail> {
    for (i, w) in seen.as_slice().iter().enumerate() {
        if *w == v {
            return Ok(i);
        }
    }
    let place = seen.len();
    seen.push(v)?;
    Ok(place)
}

/// The letter of a symbol.
fn letter_of(f: SymId) -> &'static str {
    match f {
        ZERO => "0",
        SUCC => "s",
        _ => "f",
    }
}

/// Writes the term as a code, in which variables are `a`, `b`, `c` .. in the order in which they come.
pub(crate) fn write(out: &mut String, seen: &mut Items<Var>, t: &Term) -> Result<(), Fail> {
    match t.get() {
        Node::Var(_, v) => {
            let place = place_of(seen, *v)?;
            out.push_str(
                "abcdefgh"
                    .get(place..place.saturating_add(1))
                    .unwrap_or("?"),
            )?;
        }
        Node::App(_, f, args) => {
            for child in args.as_slice() {
                write(out, seen, child)?;
            }
            out.push_str(letter_of(*f))?;
        }
    }
    Ok(())
}

// Pairs of terms that are to become one, and single steps on them.
ghost use Rattle.std.specs.Prelude.{◌≡◌, ◌↔◌, ◌++◌, ◌∷◌, [], All, Contains, IfOk, IsTrue, OnOk, Some, length, map};
ghost use Rattle.syn_term.specs.Bank.{Belongs, Extends};
ghost use Rattle.syn_term.specs.Terms.{bare, sort_of, variable_tree};
ghost use Rattle.syn_form.specs.Plain.{IsSorted};
ghost use Rattle.syn_form.specs.Substitutions.{KeepsSorts};
ghost use Rattle.syn_form.specs.Trees.{term_vars};
ghost use Rattle.syn_unify.specs.Bindings.{BindsOwn, bound_to};
ghost use Rattle.syn_unify.specs.inner.Changes.{seen};
ghost use Rattle.syn_unify.specs.inner.Solutions.{IsBound, Meets, Met, PairBelongs, Parted, SortedPair, Stepped, bare_binding, paired, replaced, top_of};

use crate::bindings::{Bound, bound_term};
use crate::changing::{Change, whole_term};
use sqlite_items::Items;
use std::alloc::Global;
use syn_term::{Bank, NoMemory, Node, SymId, Symbols, Term, Var};

/// Two terms that are to become one.
#[derive(Drop)]
pub(crate) struct Pair {
    pub(crate) left: Term,
    pub(crate) right: Term,
}

/// The term, or what it is bound to where it is a variable.
fn top<'a>(bound: &'a [Bound], t: &'a Term) -> &'a Term
    ensures { result.now ≡ top_of (seen bound.now) t.now }
{
    match t.get() {
        Node::Var(_, v) => match bound_term(bound, *v) {
            Some(s) => s,
            None => t,
        },
        Node::App(_, _, _) => t,
    }
}

/// Whether the variable stands in the term.
fn has_var(t: &Term, x: Var) -> bool
    ensures { IsTrue result ↔ Contains (term_vars t.now) x }
{
    match t.get() {
        Node::Var(_, v) => *v == x,
        Node::App(_, _, args) => {
            for child in args.as_slice() {
                if has_var(child, x) {
                    return true;
                }
            }
            false
        }
    }
}

/// Whether the term is the variable.
fn is_var(t: &Term, x: Var) -> bool
    ensures { IsTrue result ↔ (bare t.now ≡ variable_tree x) }
{
    match t.get() {
        Node::Var(_, v) => *v == x,
        Node::App(_, _, _) => false,
    }
}

/// Puts a pair behind the others.
pub(crate) fn put_pair(left: &mut Items<Pair>, s: &Term, t: &Term) -> Result<(), NoMemory>
    ensures { OnOk result (left.new ≡ left.old ++ record { left = s.now; right = t.now } ∷ []) }
{
    let s = s.again()?;
    left.push(Pair {
        left: s,
        right: t.again()?,
    })?;
    Ok(())
}

/// Puts the terms behind the others in pairs.
fn put_pairs(left: &mut Items<Pair>, xs: &[Term], ys: &[Term]) -> Result<(), NoMemory>
    requires { length xs.now ≡ length ys.now }
    ensures { OnOk result (left.new ≡ left.old ++ paired xs.now ys.now) }
{
    for i in 0..xs.len() {
        put_pair(left, &xs[i], &ys[i])?;
    }
    Ok(())
}

/// Puts the arguments in pairs behind the others; false where the symbols or the numbers of arguments
/// differ.
pub(crate) fn split(
    left: &mut Items<Pair>,
    f: SymId,
    xs: &[Term],
    g: SymId,
    ys: &[Term],
) -> Result<bool, NoMemory>
    ensures { IfOk result (Parted f xs.now g ys.now left.old left.new) }
{
    if f != g {
        return Ok(false);
    }
    if xs.len() != ys.len() {
        return Ok(false);
    }
    put_pairs(left, xs, ys)?;
    Ok(true)
}

/// The bindings with one more, and its variable replaced in the terms of the others.
#[tactic(auto, using(crate::proofs::Growth::growth))]
fn bind(
    alloc: Global,
    bank: &mut Bank,
    syms: &Symbols,
    bound: &[Bound],
    x: Var,
    u: Term,
) -> Result<Items<Bound>, NoMemory>
    requires sorted { IsSorted syms.now u }
    requires sort { sort_of syms.now u ≡ Some x.sort }
    requires keeps { KeepsSorts syms.now (seen bound.now) }
    requires own { BindsOwn bank.old (seen bound.now) }
    requires belongs { Belongs bank.old u }
    ensures bound { IfOk result (λ more. IsBound x u (seen bound.now) (seen more)) }
    ensures extends { Extends bank.old bank.new }
    ensures own { IfOk result (λ more. BindsOwn bank.new (seen more)) }
{
    let mut more = Items::new(alloc);
    more.push(Bound { var: x, term: u })?;
    let mut rest = Items::new(alloc);
    put_bound(alloc, bank, syms, more.as_slice(), bound, &mut rest)?;
    more.append(rest)?;
    Ok(more)
}

/// Puts the bindings behind the others, the variables of their terms changed.
#[tactic(auto, using(crate::proofs::Growth::growth))]
fn put_bound(
    alloc: Global,
    bank: &mut Bank,
    syms: &Symbols,
    one: &[Bound],
    bound: &[Bound],
    rest: &mut Items<Bound>,
) -> Result<(), NoMemory>
    requires one { KeepsSorts syms.now (seen one.now) }
    requires keeps { KeepsSorts syms.now (seen bound.now) }
    requires one_own { BindsOwn bank.old (seen one.now) }
    requires own { BindsOwn bank.old (seen bound.now) }
    requires none { rest.old ≡ [] }
    ensures bound { OnOk result (map bare_binding (seen rest.new) ≡ map (replaced (seen one.now)) (seen bound.now)) }
    ensures extends { Extends bank.old bank.new }
    ensures own { OnOk result (BindsOwn bank.new (seen rest.new)) }
{
    let change = Change::Bind(one);
    for b in bound {
        let term = whole_term(alloc, bank, syms, &change, &b.term)?;
        rest.push(Bound { var: b.var, term })?;
    }
    Ok(())
}

/// Binds the variable to the term, in which no variable is bound; false where this has another sort, or
/// has the variable below its top.
#[tactic(auto, using(crate::proofs::Growth::growth))]
fn bind_term(
    alloc: Global,
    bank: &mut Bank,
    syms: &Symbols,
    bound: &mut Items<Bound>,
    x: Var,
    u: Term,
) -> Result<bool, NoMemory>
    requires sorted { IsSorted syms.now u }
    requires keeps { KeepsSorts syms.now (seen bound.old) }
    requires own { BindsOwn bank.old (seen bound.old) }
    requires belongs { Belongs bank.old u }
    ensures met { IfOk result (Met syms.now x u (seen bound.old) (seen bound.new)) }
    ensures extends { Extends bank.old bank.new }
    ensures own { IfOk result (λ _. BindsOwn bank.new (seen bound.new)) }
{
    if is_var(&u, x) {
        drop(u);
        return Ok(true);
    }
    if u.sort_in(syms) != Some(x.sort) {
        drop(u);
        return Ok(false);
    }
    if has_var(&u, x) {
        drop(u);
        return Ok(false);
    }
    let more = bind(alloc, bank, syms, bound.as_slice(), x, u)?;
    drop(std::mem::replace(bound, more));
    Ok(true)
}

/// Makes the variable, which isn't bound, and the term one, or what this is bound to.
#[tactic(auto, using(crate::proofs::Growth::growth))]
fn meet(
    alloc: Global,
    bank: &mut Bank,
    syms: &Symbols,
    bound: &mut Items<Bound>,
    x: Var,
    t: &Term,
) -> Result<bool, NoMemory>
    requires sorted { IsSorted syms.now t.now }
    requires keeps { KeepsSorts syms.now (seen bound.old) }
    requires own { BindsOwn bank.old (seen bound.old) }
    requires belongs { Belongs bank.old t.now }
    ensures met { IfOk result (Meets syms.now x (top_of (seen bound.old) t.now) (seen bound.old) (seen bound.new)) }
    ensures extends { Extends bank.old bank.new }
    ensures own { IfOk result (λ _. BindsOwn bank.new (seen bound.new)) }
{
    let s = top(bound.as_slice(), t);
    match whole_term(alloc, bank, syms, &Change::Bind(bound.as_slice()), s) {
        Ok(u) => bind_term(alloc, bank, syms, bound, x, u),
        Err(error) => Err(error),
    }
}

/// Takes one pair apart, or binds its variable; false where nothing makes its terms one.
#[tactic(auto, using(crate::proofs::Growth::growth))]
pub(crate) fn step(
    alloc: Global,
    bank: &mut Bank,
    syms: &Symbols,
    bound: &mut Items<Bound>,
    left: &mut Items<Pair>,
    pair: &Pair,
) -> Result<bool, NoMemory>
    requires sorted { SortedPair syms.now pair.now }
    requires keeps { KeepsSorts syms.now (seen bound.old) }
    requires own { BindsOwn bank.old (seen bound.old) }
    requires belongs { PairBelongs bank.old pair.now }
    requires left { All (PairBelongs bank.old) left.old }
    ensures stepped { IfOk result (Stepped syms.now (seen bound.old) left.old pair.now (seen bound.new) left.new) }
    ensures extends { Extends bank.old bank.new }
    ensures own { IfOk result (λ _. BindsOwn bank.new (seen bound.new)) }
    ensures left { IfOk result (λ on. IsTrue on → All (PairBelongs bank.new) left.new) }
{
    match top(bound.as_slice(), &pair.left).get() {
        Node::Var(_, x) => {
            let x = *x;
            meet(alloc, bank, syms, bound, x, &pair.right)
        }
        Node::App(_, f, xs) => match top(bound.as_slice(), &pair.right).get() {
            Node::Var(_, y) => {
                let y = *y;
                meet(alloc, bank, syms, bound, y, &pair.left)
            }
            Node::App(_, g, ys) => split(left, *f, xs.as_slice(), *g, ys.as_slice()),
        },
    }
}

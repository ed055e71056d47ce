// Terms whose variables become terms. What has no variable that changes is handed on, and not made again.
ghost use Rattle.std.specs.Prelude.{◌≡◌, ◌≤◌, ◌+◌, ◌++◌, ◌∷◌, [], map, sum, All, IfOk, IfSome, IsSome, OnOk};
ghost use Rattle.std.specs.Option.{unwrap_or};
ghost use Rattle.syn_term.specs.Bank.{Belongs, Extends};
ghost use Rattle.syn_term.specs.Terms.{IsApplication, application, bare, variable_tree};
ghost use Rattle.syn_form.specs.Plain.{IsSorted};
ghost use Rattle.syn_unify.specs.Bindings.{bound_to, remade, remade_nodes, sum_there};
ghost use Rattle.syn_unify.specs.inner.Changes.{HoldsSorts, IsOwn, becomes, cost, seen, under};

use crate::bindings::{Bound, bound_term};
use sqlite_items::Items;
use std::alloc::Global;
use syn_term::{Bank, NoMemory, Node, SymId, Symbols, Term, Var};

/// What variables become: the terms that they are bound to, or variables with numbers so much higher.
#[derive(Clone, Copy)]
pub(crate) enum Change<'a> {
    Bind(&'a [Bound]),
    Raise(u32),
}

/// The term once more.
fn term_again(t: &Term) -> Result<Term, NoMemory>
    ensures { IfOk result (λ u. u ≡ t.now) }
{
    match t.again() {
        Ok(t) => Ok(t),
        Err(_) => Err(NoMemory),
    }
}

/// The term that the variable is bound to, once more.
fn bound_again(bound: &[Bound], v: Var) -> Result<Option<Term>, NoMemory>
    ensures { IfOk result (λ o. o ≡ bound_to (seen bound.now) v) }
{
    match bound_term(bound, v) {
        None => Ok(None),
        Some(t) => match t.again() {
            Ok(t) => Ok(Some(t)),
            Err(_) => Err(NoMemory),
        },
    }
}

/// What the variable becomes; None where it stays.
#[tactic(auto, using(crate::proofs::Growth::growth))]
fn changed_var(
    alloc: Global,
    bank: &mut Bank,
    change: &Change<'_>,
    v: Var,
) -> Result<Option<Term>, NoMemory>
    requires own { IsOwn bank.old change.now }
    ensures tree { IfOk result (λ o. bare (unwrap_or o (variable_tree v)) ≡ bare (becomes change.now v)) }
    ensures changed { IfOk result (λ o. IfSome o (λ _. IsSome (cost change.now v))) }
    ensures made { bank.new.made ≤ bank.old.made + unwrap_or (cost change.now v) 0 }
    ensures extends { Extends bank.old bank.new }
    ensures belongs { IfOk result (λ o. IfSome o (Belongs bank.new)) }
{
    match change {
        Change::Bind(bound) => bound_again(bound, v),
        Change::Raise(by) => {
            let var = Var {
                number: v.number.saturating_add(*by),
                sort: v.sort,
            };
            match bank.var(alloc, var) {
                Ok(t) => Ok(Some(t)),
                Err(error) => Err(error),
            }
        }
    }
}

/// The symbol applied to the terms.
#[tactic(auto, using(crate::proofs::Growth::growth))]
fn applied(
    alloc: Global,
    bank: &mut Bank,
    syms: &Symbols,
    f: SymId,
    parts: Items<Term>,
) -> Result<Term, NoMemory>
    requires applies { IsApplication syms.now f parts }
    requires belongs { All (Belongs bank.old) parts }
    ensures tree { IfOk result (λ t. bare t ≡ application f (map bare parts)) }
    ensures made { bank.new.made ≤ bank.old.made + 1 }
    ensures extends { Extends bank.old bank.new }
    ensures belongs { IfOk result (Belongs bank.new) }
{
    match bank.app_owned(alloc, syms, f, parts) {
        Ok(Some(made)) => Ok(made),
        Ok(None) => unreachable!(),
        Err(error) => Err(error),
    }
}

/// The term with its variables changed; None where none of them changes.
#[cycle(terms)]
#[tactic(auto, using(crate::proofs::Growth::growth))]
pub(crate) fn changed_term(
    alloc: Global,
    bank: &mut Bank,
    syms: &Symbols,
    change: &Change<'_>,
    t: &Term,
) -> Result<Option<Term>, NoMemory>
    requires sorts { HoldsSorts syms.now (becomes change.now) }
    requires sorted { IsSorted syms.now t.now }
    requires own { IsOwn bank.old change.now }
    requires belongs { Belongs bank.old t.now }
    ensures tree { IfOk result (λ o. bare (unwrap_or o t.now) ≡ under (becomes change.now) t.now) }
    ensures changed { IfOk result (λ o. IfSome o (λ _. IsSome (remade (cost change.now) t.now))) }
    ensures made { bank.new.made ≤ bank.old.made + remade_nodes (cost change.now) t.now }
    ensures extends { Extends bank.old bank.new }
    ensures belongs { IfOk result (λ o. IfSome o (Belongs bank.new)) }
{
    match t.get() {
        Node::Var(_, v) => changed_var(alloc, bank, change, *v),
        Node::App(_, f, args) => {
            match changed_terms(alloc, bank, syms, change, args.as_slice()) {
                Ok(Some(parts)) => match applied(alloc, bank, syms, *f, parts) {
                    Ok(made) => Ok(Some(made)),
                    Err(error) => Err(error),
                },
                Ok(None) => Ok(None),
                Err(error) => Err(error),
            }
        }
    }
}

/// The terms with their variables changed; None where none of them changes.
#[cycle(terms)]
#[tactic(auto, using(crate::proofs::Growth::growth))]
pub(crate) fn changed_terms(
    alloc: Global,
    bank: &mut Bank,
    syms: &Symbols,
    change: &Change<'_>,
    ts: &[Term],
) -> Result<Option<Items<Term>>, NoMemory>
    requires sorts { HoldsSorts syms.now (becomes change.now) }
    requires sorted { All (IsSorted syms.now) ts.now }
    requires own { IsOwn bank.old change.now }
    requires belongs { All (Belongs bank.old) ts.now }
    ensures tree { IfOk result (λ o. map bare (unwrap_or o ts.now) ≡ map (under (becomes change.now)) ts.now) }
    ensures changed { IfOk result (λ o. IfSome o (λ _. IsSome (sum_there (map (remade (cost change.now)) ts.now)))) }
    ensures made { bank.new.made ≤ bank.old.made + sum (map (remade_nodes (cost change.now)) ts.now) }
    ensures extends { Extends bank.old bank.new }
    ensures belongs { IfOk result (λ o. IfSome o (All (Belongs bank.new))) }
{
    for i in 0..ts.len() {
        if let Some(first) = changed_term(alloc, bank, syms, change, &ts[i])? {
            let mut done = begun(alloc, &ts[..i], first, ts.len())?;
            return match put_changed(alloc, bank, syms, change, &ts[i + 1..], &mut done) {
                Ok(()) => Ok(Some(done)),
                Err(error) => {
                    drop(done);
                    Err(error)
                }
            };
        }
    }
    Ok(None)
}

/// An empty list with room for so many terms, so that these take one request for memory.
fn with_room(alloc: Global, room: usize) -> Result<Items<Term>, NoMemory>
    ensures { IfOk result (λ list. list ≡ []) }
{
    match Vec::with_capacity(alloc, room) {
        Ok(list) => Ok(Items::from_vec(list)),
        Err(_) => Err(NoMemory),
    }
}

/// The terms once more, and one behind them, in a list with room for so many.
fn begun(alloc: Global, ts: &[Term], last: Term, room: usize) -> Result<Items<Term>, NoMemory>
    ensures { IfOk result (λ done. done ≡ ts.now ++ last ∷ []) }
{
    match with_room(alloc, room) {
        Ok(mut done) => match put_again(ts, &mut done) {
            Ok(()) => {
                done.push(last)?;
                Ok(done)
            }
            Err(error) => {
                drop(last);
                drop(done);
                Err(error)
            }
        },
        Err(error) => {
            drop(last);
            Err(error)
        }
    }
}

/// Puts the terms behind the others.
fn put_again(ts: &[Term], done: &mut Items<Term>) -> Result<(), NoMemory>
    ensures { OnOk result (done.new ≡ done.old ++ ts.now) }
{
    for t in ts {
        done.push(t.again()?)?;
    }
    Ok(())
}

/// Puts the terms with their variables changed behind the others.
#[cycle(terms)]
#[tactic(auto, using(crate::proofs::Growth::growth))]
fn put_changed(
    alloc: Global,
    bank: &mut Bank,
    syms: &Symbols,
    change: &Change<'_>,
    ts: &[Term],
    done: &mut Items<Term>,
) -> Result<(), NoMemory>
    requires sorts { HoldsSorts syms.now (becomes change.now) }
    requires sorted { All (IsSorted syms.now) ts.now }
    requires own { IsOwn bank.old change.now }
    requires belongs { All (Belongs bank.old) ts.now }
    requires done { All (Belongs bank.old) done.old }
    ensures tree { OnOk result (map bare done.new ≡ map bare done.old ++ map (under (becomes change.now)) ts.now) }
    ensures made { bank.new.made ≤ bank.old.made + sum (map (remade_nodes (cost change.now)) ts.now) }
    ensures extends { Extends bank.old bank.new }
    ensures belongs { OnOk result (All (Belongs bank.new) done.new) }
{
    for t in ts {
        done.push(whole_term(alloc, bank, syms, change, t)?)?;
    }
    Ok(())
}

/// The term with its variables changed.
#[cycle(terms)]
#[tactic(auto, using(crate::proofs::Growth::growth))]
pub(crate) fn whole_term(
    alloc: Global,
    bank: &mut Bank,
    syms: &Symbols,
    change: &Change<'_>,
    t: &Term,
) -> Result<Term, NoMemory>
    requires sorts { HoldsSorts syms.now (becomes change.now) }
    requires sorted { IsSorted syms.now t.now }
    requires own { IsOwn bank.old change.now }
    requires belongs { Belongs bank.old t.now }
    ensures tree { IfOk result (λ u. bare u ≡ under (becomes change.now) t.now) }
    ensures made { bank.new.made ≤ bank.old.made + remade_nodes (cost change.now) t.now }
    ensures extends { Extends bank.old bank.new }
    ensures belongs { IfOk result (Belongs bank.new) }
{
    match changed_term(alloc, bank, syms, change, t) {
        Ok(Some(u)) => Ok(u),
        Ok(None) => term_again(t),
        Err(error) => Err(error),
    }
}

/// The terms with their variables changed.
#[tactic(auto, using(crate::proofs::Growth::growth))]
pub(crate) fn whole_terms(
    alloc: Global,
    bank: &mut Bank,
    syms: &Symbols,
    change: &Change<'_>,
    ts: &[Term],
) -> Result<Items<Term>, NoMemory>
    requires sorts { HoldsSorts syms.now (becomes change.now) }
    requires held { IsOwn bank.old change.now }
    requires sorted { All (IsSorted syms.now) ts.now }
    requires own { All (Belongs bank.old) ts.now }
    ensures tree { IfOk result (λ us. map bare us ≡ map (under (becomes change.now)) ts.now) }
    ensures made { bank.new.made ≤ bank.old.made + sum (map (remade_nodes (cost change.now)) ts.now) }
    ensures extends { Extends bank.old bank.new }
    ensures belongs { IfOk result (All (Belongs bank.new)) }
{
    let mut done = with_room(alloc, ts.len())?;
    match put_changed(alloc, bank, syms, change, ts, &mut done) {
        Ok(()) => Ok(done),
        Err(error) => {
            drop(done);
            Err(error)
        }
    }
}

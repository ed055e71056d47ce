// The loop over the pairs that are left.
ghost use Rattle.std.specs.Prelude.{◌≡◌, [], All, IfOk, IfSome};
ghost use Rattle.syn_term.specs.Bank.{Extends};
ghost use Rattle.syn_unify.specs.Bindings.{BindsOwn};
ghost use Rattle.syn_unify.specs.inner.Changes.{seen};
ghost use Rattle.syn_unify.specs.inner.Solutions.{Ended, PairBelongs, Solved, SortedPair, vars_of};

use crate::bindings::Bound;
use crate::pairs::{Pair, step};
use sqlite_items::Items;
use std::alloc::Global;
use syn_term::{Bank, NoMemory, Symbols};

/// Takes the pairs apart until none is left, or one has no solution: then false.
#[tactic(auto, using(crate::proofs::Growth::growth))]
fn take_apart(
    alloc: Global,
    bank: &mut Bank,
    syms: &Symbols,
    bound: &mut Items<Bound>,
    left: &mut Items<Pair>,
) -> Result<bool, NoMemory>
    requires none { bound.old ≡ [] }
    requires sorted { All (SortedPair syms.now) left.old }
    requires belongs { All (PairBelongs bank.old) left.old }
    ensures solved { IfOk result (Ended syms.now left.old (vars_of left.old) bound.new) }
    ensures extends { Extends bank.old bank.new }
    ensures own { IfOk result (λ _. BindsOwn bank.new (seen bound.new)) }
{
    while let Some(pair) = left.pop() {
        if !step(alloc, bank, syms, bound, left, &pair)? {
            return Ok(false);
        }
    }
    Ok(true)
}

/// The bindings that make the two terms of each pair one, None where nothing does.
#[tactic(auto, using(crate::proofs::Growth::growth))]
pub(crate) fn solve(
    alloc: Global,
    bank: &mut Bank,
    syms: &Symbols,
    pairs: Items<Pair>,
) -> Result<Option<Items<Bound>>, NoMemory>
    requires sorted { All (SortedPair syms.now) pairs }
    requires belongs { All (PairBelongs bank.old) pairs }
    ensures solved { IfOk result (Solved syms.now pairs (vars_of pairs)) }
    ensures extends { Extends bank.old bank.new }
    ensures own { IfOk result (λ o. IfSome o (λ bound. BindsOwn bank.new (seen bound))) }
{
    let mut left = pairs;
    let mut bound = Items::new(alloc);
    let outcome = take_apart(alloc, bank, syms, &mut bound, &mut left);
    drop(left);
    match outcome {
        Ok(true) => Ok(Some(bound)),
        Ok(false) => {
            drop(bound);
            Ok(None)
        }
        Err(error) => {
            drop(bound);
            Err(error)
        }
    }
}

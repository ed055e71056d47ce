// Most general unifiers, found as Martelli and Montanari do: by transformations of a list of equations.
ghost use Rattle.std.specs.Prelude.{◌≡◌, ◌∷◌, [], All, IfOk, IfSome, MatchOption};
ghost use Rattle.std.specs.List.{flat_map};
ghost use Rattle.syn_term.specs.Bank.{Belongs, Extends};
ghost use Rattle.syn_form.specs.Plain.{IsFormed, IsSorted};
ghost use Rattle.syn_form.specs.Substitutions.{IsUnifierOfForms, IsUnifierOfTerms, UnifiesForms, UnifiesTerms};
ghost use Rattle.syn_form.specs.Trees.{form_terms};
ghost use Rattle.syn_unify.specs.Bindings.{BindsOnce, BindsOwn, HasNoUnifier};
ghost use Rattle.syn_unify.specs.inner.Solutions.{NoneSolves, PairBelongs, Reached, SortedPair, vars_of};

use crate::bindings::Subst;
use crate::forms::put_all_pairs;
use crate::pairs::{Pair, put_pair};
use crate::solving::solve;
use sqlite_items::Items;
use std::alloc::Global;
use syn_form::Form;
use syn_term::{Bank, NoMemory, Symbols, Term};

/// A most general unifier of the pairs.
#[tactic(auto, using(crate::proofs::Growth::growth))]
fn solved(
    alloc: Global,
    bank: &mut Bank,
    syms: &Symbols,
    pairs: Items<Pair>,
) -> Result<Option<Subst>, NoMemory>
    requires sorted { All (SortedPair syms.now) pairs }
    requires belongs { All (PairBelongs bank.old) pairs }
    ensures solved { IfOk result (λ o. MatchOption o (NoneSolves syms.now pairs) (λ s. Reached syms.now pairs (vars_of pairs) s [])) }
    ensures extends { Extends bank.old bank.new }
    ensures own { IfOk result (λ o. IfSome o (BindsOwn bank.new)) }
{
    match solve(alloc, bank, syms, pairs) {
        Ok(Some(bound)) => Ok(Some(Subst { bound })),
        Ok(None) => Ok(None),
        Err(error) => Err(error),
    }
}

/// A most general unifier of the two terms, which binds variables of theirs alone, to terms over their
/// variables; None exactly where no substitution that keeps sorts makes them one. Its terms belong to the
/// bank. The one error is `NoMemory`.
///
/// The pairs that are left are taken from a list, and what a variable becomes is put into the terms of
/// the others at once, so no variable of these is bound: two trees without bound variables take the time
/// of their nodes. Of terms whose unifier has more nodes than fit the memory it takes that memory, and
/// the error comes.
#[tactic(auto, using(crate::proofs::Growth::growth))]
pub fn unify_terms(
    alloc: Global,
    bank: &mut Bank,
    syms: &Symbols,
    a: &Term,
    b: &Term,
) -> Result<Option<Subst>, NoMemory>
    requires left { IsSorted syms.now a.now }
    requires right { IsSorted syms.now b.now }
    requires left_own { Belongs bank.old a.now }
    requires right_own { Belongs bank.old b.now }
    ensures unifier { IfOk result (λ o. MatchOption o (HasNoUnifier syms.now (UnifiesTerms (a.now ∷ b.now ∷ []))) (IsUnifierOfTerms syms.now (a.now ∷ b.now ∷ []))) }
    ensures once { IfOk result (λ o. IfSome o BindsOnce) }
    ensures extends { Extends bank.old bank.new }
    ensures own { IfOk result (λ o. IfSome o (BindsOwn bank.new)) }
{
    let mut pairs = Items::new(alloc);
    put_pair(&mut pairs, a, b)?;
    solved(alloc, bank, syms, pairs)
}

/// A most general unifier of all the formulas, which binds variables of theirs alone, to terms over their
/// variables; None exactly where no substitution that keeps sorts makes them one. Of one formula, and of
/// none, it binds nothing. Its terms belong to the bank. The one error is `NoMemory`.
///
/// Formulas that aren't alike in their connectives and symbols of relations have none, and the bank makes
/// nothing. Of others the terms that stand at the same places are made one, as of two terms.
#[tactic(auto, using(crate::proofs::Growth::growth))]
pub fn unify_forms(
    alloc: Global,
    bank: &mut Bank,
    syms: &Symbols,
    forms: &[Form],
) -> Result<Option<Subst>, NoMemory>
    requires formed { All (IsFormed syms.now) forms.now }
    requires own { All (Belongs bank.old) (flat_map form_terms forms.now) }
    ensures unifier { IfOk result (λ o. MatchOption o (HasNoUnifier syms.now (UnifiesForms forms.now)) (IsUnifierOfForms syms.now forms.now)) }
    ensures once { IfOk result (λ o. IfSome o BindsOnce) }
    ensures extends { Extends bank.old bank.new }
    ensures own { IfOk result (λ o. IfSome o (BindsOwn bank.new)) }
{
    let mut pairs = Items::new(alloc);
    if !put_all_pairs(&mut pairs, forms)? {
        drop(pairs);
        return Ok(None);
    }
    solved(alloc, bank, syms, pairs)
}

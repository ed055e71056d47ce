// Substitutions applied to trees, where what comes of it isn't too large.
ghost use Rattle.std.specs.Prelude.{◌≡◌, ◌+◌, ◌≤◌, IfNone, IfOk, IfSome, IsTrue, MatchOption, ◌↔◌};
ghost use Rattle.syn_term.specs.Bank.{Belongs, Extends};
ghost use Rattle.syn_term.specs.Terms.{bare, depth_of, nodes, sort_of};
ghost use Rattle.syn_form.specs.Plain.{IsSorted};
ghost use Rattle.syn_form.specs.Substitutions.{KeepsSorts, substituted};
ghost use Rattle.syn_unify.specs.Bindings.{BindsOnce, BindsOwn, IsWithin, over_bound};

use crate::bindings::Subst;
use crate::changing::{Change, whole_term};
use crate::room::room_beside;
use std::alloc::Global;
use syn_term::{Bank, NoMemory, Symbols, Term};

/// A tree that comes of a substitution has at most so many nodes.
pub(crate) const MOST_NODES: u32 = 65_536;

/// And at most this depth.
pub(crate) const MOST_DEPTH: u32 = 2_400;

/// Whether what comes of the term isn't too large.
fn fits(s: &Subst, t: &Term) -> bool
    ensures { IsTrue result ↔ IsWithin (nodes (substituted s.now t.now)) (depth_of (substituted s.now t.now)) }
{
    room_beside(s.bound.as_slice(), t, MOST_NODES, MOST_DEPTH).is_some()
}

/// The term with its variables replaced.
#[tactic(auto, using(crate::proofs::Growth::growth))]
fn put_in(
    alloc: Global,
    bank: &mut Bank,
    syms: &Symbols,
    s: &Subst,
    t: &Term,
) -> Result<Term, NoMemory>
    requires keeps { KeepsSorts syms.now s.now }
    requires sorted { IsSorted syms.now t.now }
    requires own { BindsOwn bank.old s.now }
    requires belongs { Belongs bank.old t.now }
    ensures tree { IfOk result (λ u. bare u ≡ bare (substituted s.now t.now)) }
    ensures sorted { IfOk result (IsSorted syms.now) }
    ensures sort { IfOk result (λ u. sort_of syms.now u ≡ sort_of syms.now t.now) }
    ensures made { bank.new.made ≤ bank.old.made + over_bound s.now t.now }
    ensures extends { Extends bank.old bank.new }
    ensures belongs { IfOk result (Belongs bank.new) }
{
    whole_term(alloc, bank, syms, &Change::Bind(s.bound.as_slice()), t)
}

/// The term with each variable that the substitution binds replaced, all at once; None exactly where what
/// comes of it has more than 65,536 nodes or is deeper than 2,400, which is found before anything is made.
///
/// It has the sort of the term. A part without bound variables is handed on, so the bank makes no more
/// nodes than symbols stand over a bound variable. The one error is `NoMemory`.
#[tactic(auto, using(crate::proofs::Growth::growth))]
pub fn apply_term(
    alloc: Global,
    bank: &mut Bank,
    syms: &Symbols,
    s: &Subst,
    t: &Term,
) -> Result<Option<Term>, NoMemory>
    requires keeps { KeepsSorts syms.now s.now }
    requires sorted { IsSorted syms.now t.now }
    requires own { BindsOwn bank.old s.now }
    requires belongs { Belongs bank.old t.now }
    ensures tree { IfOk result (λ o. MatchOption o (¬ (IsWithin (nodes (substituted s.now t.now)) (depth_of (substituted s.now t.now)))) (λ u. IsWithin (nodes (substituted s.now t.now)) (depth_of (substituted s.now t.now)) × (bare u ≡ bare (substituted s.now t.now)))) }
    ensures sorted { IfOk result (λ o. IfSome o (IsSorted syms.now)) }
    ensures sort { IfOk result (λ o. IfSome o (λ u. sort_of syms.now u ≡ sort_of syms.now t.now)) }
    ensures none { IfOk result (λ o. IfNone o (bank.new ≡ bank.old)) }
    ensures made { bank.new.made ≤ bank.old.made + over_bound s.now t.now }
    ensures extends { Extends bank.old bank.new }
    ensures belongs { IfOk result (λ o. IfSome o (Belongs bank.new)) }
    ensures once { BindsOnce s.now }
{
    let _count = s.len();
    if !fits(s, t) {
        return Ok(None);
    }
    let made = put_in(alloc, bank, syms, s, t)?;
    Ok(Some(made))
}

// Substitutions applied to formulas and outputs, where what comes of it isn't too large.
ghost use Rattle.std.specs.Prelude.{◌≡◌, ◌+◌, ◌++◌, ◌≤◌, All, Contains, IfNone, IfOk, IfSome, IsTrue, MatchOption, ◌↔◌};
ghost use Rattle.syn_term.specs.Bank.{Belongs, Extends};
ghost use Rattle.syn_term.specs.declared.sorts.Var.{Var};
ghost use Rattle.syn_form.specs.Plain.{HasOneSortEach, IsFormed, IsFormedOut, IsPlainForm, IsPlainOut};
ghost use Rattle.syn_form.specs.Substitutions.{KeepsSorts, substituted_form, substituted_out};
ghost use Rattle.syn_form.specs.Trees.{bare_form, bare_out, form_depth, form_nodes, form_terms, form_vars, out_depth, out_nodes, out_terms, out_vars};
ghost use Rattle.syn_unify.specs.Bindings.{BindsOnce, BindsOwn, IsWithin, bound_vars, form_over_bound, out_over_bound};

use crate::applying::{MOST_DEPTH, MOST_NODES};
use crate::bindings::Subst;
use crate::changing::Change;
use crate::changing_forms::changed_form;
use crate::changing_outs::changed_out;
use crate::room_forms::{room_beside_form, room_beside_out};
use std::alloc::Global;
use syn_form::{Form, Out};
use syn_term::{Bank, NoMemory, Symbols};

/// Whether what comes of the formula isn't too large.
fn form_fits(s: &Subst, f: &Form) -> bool
    ensures { IsTrue result ↔ IsWithin (form_nodes (substituted_form s.now f.now)) (form_depth (substituted_form s.now f.now)) }
{
    room_beside_form(s.bound.as_slice(), f, MOST_NODES, MOST_DEPTH).is_some()
}

/// The formula with its variables replaced.
#[tactic(auto, using(crate::proofs::Growth::growth))]
fn put_in_form(
    alloc: Global,
    bank: &mut Bank,
    syms: &Symbols,
    s: &Subst,
    f: &Form,
) -> Result<Form, NoMemory>
    requires keeps { KeepsSorts syms.now s.now }
    requires formed { IsFormed syms.now f.now }
    requires own { BindsOwn bank.old s.now }
    requires belongs { All (Belongs bank.old) (form_terms f.now) }
    ensures tree { IfOk result (λ g. bare_form g ≡ bare_form (substituted_form s.now f.now)) }
    ensures formed { IfOk result (IsFormed syms.now) }
    ensures vars { IfOk result (λ g. (w : Var) → Contains (form_vars g) w → Contains (form_vars f.now ++ bound_vars s.now) w) }
    ensures made { bank.new.made ≤ bank.old.made + form_over_bound s.now f.now }
    ensures extends { Extends bank.old bank.new }
    ensures belongs { IfOk result (λ g. All (Belongs bank.new) (form_terms g)) }
{
    changed_form(alloc, bank, syms, &Change::Bind(s.bound.as_slice()), f)
}

/// The formula with each variable that the substitution binds replaced, all at once; None exactly where what
/// comes of it has more than 65,536 nodes or is deeper than 2,400, which is found before anything is made.
///
/// It is formed as the formula is, and has variables of the formula and of the terms put in alone; so it is plain where no
/// number has two sorts among these. A part of a
/// term without bound variables is handed on, so the bank makes no more nodes than symbols of terms stand over a
/// bound variable. The one error is `NoMemory`.
#[tactic(auto, using(crate::proofs::Growth::growth))]
pub fn apply(
    alloc: Global,
    bank: &mut Bank,
    syms: &Symbols,
    s: &Subst,
    f: &Form,
) -> Result<Option<Form>, NoMemory>
    requires keeps { KeepsSorts syms.now s.now }
    requires formed { IsFormed syms.now f.now }
    requires own { BindsOwn bank.old s.now }
    requires belongs { All (Belongs bank.old) (form_terms f.now) }
    ensures tree { IfOk result (λ o. MatchOption o (¬ (IsWithin (form_nodes (substituted_form s.now f.now)) (form_depth (substituted_form s.now f.now)))) (λ g. IsWithin (form_nodes (substituted_form s.now f.now)) (form_depth (substituted_form s.now f.now)) × (bare_form g ≡ bare_form (substituted_form s.now f.now)))) }
    ensures formed { IfOk result (λ o. IfSome o (IsFormed syms.now)) }
    ensures vars { IfOk result (λ o. IfSome o (λ g. (w : Var) → Contains (form_vars g) w → Contains (form_vars f.now ++ bound_vars s.now) w)) }
    ensures plain { HasOneSortEach (form_vars f.now ++ bound_vars s.now) → IfOk result (λ o. IfSome o (IsPlainForm syms.now)) }
    ensures none { IfOk result (λ o. IfNone o (bank.new ≡ bank.old)) }
    ensures made { bank.new.made ≤ bank.old.made + form_over_bound s.now f.now }
    ensures extends { Extends bank.old bank.new }
    ensures belongs { IfOk result (λ o. IfSome o (λ g. All (Belongs bank.new) (form_terms g))) }
    ensures once { BindsOnce s.now }
{
    let _count = s.len();
    if !form_fits(s, f) {
        return Ok(None);
    }
    let made = put_in_form(alloc, bank, syms, s, f)?;
    Ok(Some(made))
}

/// Whether what comes of the output isn't too large.
fn out_fits(s: &Subst, o: &Out) -> bool
    ensures { IsTrue result ↔ IsWithin (out_nodes (substituted_out s.now o.now)) (out_depth (substituted_out s.now o.now)) }
{
    room_beside_out(s.bound.as_slice(), o, MOST_NODES, MOST_DEPTH).is_some()
}

/// The output with its variables replaced.
#[tactic(auto, using(crate::proofs::Growth::growth))]
fn put_in_out(
    alloc: Global,
    bank: &mut Bank,
    syms: &Symbols,
    s: &Subst,
    o: &Out,
) -> Result<Out, NoMemory>
    requires keeps { KeepsSorts syms.now s.now }
    requires formed { IsFormedOut syms.now o.now }
    requires own { BindsOwn bank.old s.now }
    requires belongs { All (Belongs bank.old) (out_terms o.now) }
    ensures tree { IfOk result (λ p. bare_out p ≡ bare_out (substituted_out s.now o.now)) }
    ensures formed { IfOk result (IsFormedOut syms.now) }
    ensures vars { IfOk result (λ p. (w : Var) → Contains (out_vars p) w → Contains (out_vars o.now ++ bound_vars s.now) w) }
    ensures made { bank.new.made ≤ bank.old.made + out_over_bound s.now o.now }
    ensures extends { Extends bank.old bank.new }
    ensures belongs { IfOk result (λ p. All (Belongs bank.new) (out_terms p)) }
{
    changed_out(alloc, bank, syms, &Change::Bind(s.bound.as_slice()), o)
}

/// The output with each variable that the substitution binds replaced, as `apply` does it in a formula.
#[tactic(auto, using(crate::proofs::Growth::growth))]
pub fn apply_out(
    alloc: Global,
    bank: &mut Bank,
    syms: &Symbols,
    s: &Subst,
    o: &Out,
) -> Result<Option<Out>, NoMemory>
    requires keeps { KeepsSorts syms.now s.now }
    requires formed { IsFormedOut syms.now o.now }
    requires own { BindsOwn bank.old s.now }
    requires belongs { All (Belongs bank.old) (out_terms o.now) }
    ensures tree { IfOk result (λ r. MatchOption r (¬ (IsWithin (out_nodes (substituted_out s.now o.now)) (out_depth (substituted_out s.now o.now)))) (λ p. IsWithin (out_nodes (substituted_out s.now o.now)) (out_depth (substituted_out s.now o.now)) × (bare_out p ≡ bare_out (substituted_out s.now o.now)))) }
    ensures formed { IfOk result (λ r. IfSome r (IsFormedOut syms.now)) }
    ensures vars { IfOk result (λ r. IfSome r (λ p. (w : Var) → Contains (out_vars p) w → Contains (out_vars o.now ++ bound_vars s.now) w)) }
    ensures plain { HasOneSortEach (out_vars o.now ++ bound_vars s.now) → IfOk result (λ r. IfSome r (IsPlainOut syms.now)) }
    ensures none { IfOk result (λ r. IfNone r (bank.new ≡ bank.old)) }
    ensures made { bank.new.made ≤ bank.old.made + out_over_bound s.now o.now }
    ensures extends { Extends bank.old bank.new }
    ensures belongs { IfOk result (λ r. IfSome r (λ p. All (Belongs bank.new) (out_terms p))) }
    ensures once { BindsOnce s.now }
{
    let _count = s.len();
    if !out_fits(s, o) {
        return Ok(None);
    }
    let made = put_in_out(alloc, bank, syms, s, o)?;
    Ok(Some(made))
}

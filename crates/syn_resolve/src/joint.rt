// The guards of a step of two parents.
ghost use Rattle.std.specs.Prelude.{◌≡◌, ◌++◌, map, Some, All, Contains, IfOk, IfSome, OnOk};
ghost use Rattle.std.specs.List.{flat_map};
ghost use Rattle.std.specs.Option.{option_copied};
ghost use Rattle.syn_term.specs.Bank.{Belongs, Extends};
ghost use Rattle.syn_term.specs.declared.sorts.Var.{Var};
ghost use Rattle.syn_form.specs.Plain.{IsFormed};
ghost use Rattle.syn_form.specs.Substitutions.{KeepsSorts};
ghost use Rattle.syn_form.specs.Trees.{bare_form, form_terms, form_vars};
ghost use Rattle.syn_row.specs.Calls.{forms_terms};
ghost use Rattle.syn_row.specs.Guards.{IsGuardRule, RuleBelongs, joined_guards};
ghost use Rattle.syn_unify.specs.Bindings.{BindsOwn, bound_vars};
ghost use Rattle.syn_resolve.specs.inner.Resolving.{calls_of_both, test_standing};

use crate::brought::brought_calls;
use crate::joining::both_outputs;
use sqlite_items::Items;
use std::alloc::Global;
use syn_form::{Form, Out};
use syn_row::{GuardRule, Row, call_guards, put_form_calls};
use syn_term::{Bank, NoMemory, SymId, Symbols, Term};
use syn_unify::Subst;

/// Appends the applications of the symbol that stand in the test that chooses between the outputs, where both are there.
fn put_test_calls(
    f: SymId,
    p: &Form,
    u: &Option<Out>,
    v: &Option<Out>,
    calls: &mut Items<Term>,
) -> Result<(), NoMemory>
    ensures { OnOk result (calls.new ≡ calls.old ++ test_standing u.now v.now p.now f) }
{
    match u {
        None => Ok(()),
        Some(_) => match v {
            None => Ok(()),
            Some(_) => put_form_calls(f, p, calls),
        },
    }
}

/// The applications of the symbol that the substitution brings into the outputs of both, and those in the test.
fn joint_calls(
    alloc: Global,
    f: SymId,
    s: &Subst,
    p: &Form,
    first: &Row,
    second: &Row,
) -> Result<Items<Term>, NoMemory>
    ensures { IfOk result (λ calls. calls ≡ calls_of_both f s.now p.now (first.now).out (second.now).out) }
{
    let outs = both_outputs(alloc, first, second)?;
    let brought = brought_calls(alloc, f, s, outs.as_slice());
    drop(outs);
    let mut calls = brought?;
    put_test_calls(f, p, &first.out, &second.out, &mut calls)?;
    Ok(calls)
}

/// The guards by this rule.
#[tactic(auto, using(crate::proofs::Growth::growth))]
fn guards_by_rule(
    alloc: Global,
    bank: &mut Bank,
    syms: &Symbols,
    rule: &GuardRule,
    s: &Subst,
    p: &Form,
    first: &Row,
    second: &Row,
) -> Result<Items<Form>, NoMemory>
    requires rule { IsGuardRule syms.now rule.now }
    requires rule_own { RuleBelongs bank.old rule.now }
    requires keeps { KeepsSorts syms.now s.now }
    requires own { BindsOwn bank.old s.now }
    requires formed { IsFormed syms.now p.now }
    requires part_own { All (Belongs bank.old) (form_terms p.now) }
    ensures guards { IfOk result (λ gs. map bare_form gs ≡ map bare_form (joined_guards (Some rule.now) s.now p.now (first.now).out (second.now).out)) }
    ensures formed { IfOk result (All (IsFormed syms.now)) }
    ensures vars { IfOk result (λ gs. (w : Var) → Contains (flat_map form_vars gs) w → Contains (bound_vars s.now ++ form_vars p.now) w) }
    ensures extends { Extends bank.old bank.new }
    ensures belongs { IfOk result (λ gs. All (Belongs bank.new) (forms_terms gs)) }
{
    let calls = joint_calls(alloc, rule.program, s, p, first, second)?;
    let guards = call_guards(alloc, bank, syms, Some(rule), calls.as_slice());
    drop(calls);
    guards
}

/// The guards of a step of two parents, where the substitution makes their parts this formula: of the calls that the
/// substitution brings into the outputs, and of those in the test where both have an output; none where there is no rule.
/// Their variables are among those of the terms that the substitution puts in, and of the formula. The one error is
/// `NoMemory`.
#[tactic(auto, using(crate::proofs::Growth::growth))]
pub(crate) fn joint_guards(
    alloc: Global,
    bank: &mut Bank,
    syms: &Symbols,
    rule: Option<&GuardRule>,
    s: &Subst,
    p: &Form,
    first: &Row,
    second: &Row,
) -> Result<Items<Form>, NoMemory>
    requires rule { IfSome (option_copied rule) (IsGuardRule syms.now) }
    requires rule_own { IfSome (option_copied rule) (RuleBelongs bank.old) }
    requires keeps { KeepsSorts syms.now s.now }
    requires own { BindsOwn bank.old s.now }
    requires formed { IsFormed syms.now p.now }
    requires part_own { All (Belongs bank.old) (form_terms p.now) }
    ensures guards { IfOk result (λ gs. map bare_form gs ≡ map bare_form (joined_guards (option_copied rule.entry) s.now p.now (first.now).out (second.now).out)) }
    ensures formed { IfOk result (All (IsFormed syms.now)) }
    ensures vars { IfOk result (λ gs. (w : Var) → Contains (flat_map form_vars gs) w → Contains (bound_vars s.now ++ form_vars p.now) w) }
    ensures extends { Extends bank.old bank.new }
    ensures belongs { IfOk result (λ gs. All (Belongs bank.new) (forms_terms gs)) }
{
    match rule {
        None => Ok(Items::new(alloc)),
        Some(rule) => guards_by_rule(alloc, bank, syms, rule, s, p, first, second),
    }
}

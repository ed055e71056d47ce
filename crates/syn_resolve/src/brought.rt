// The guards of the calls that a substitution brings into outputs.
ghost use Rattle.std.specs.Prelude.{◌≡◌, ◌++◌, map, All, Contains, IfOk, IfSome, OnOk};
ghost use Rattle.std.specs.List.{flat_map};
ghost use Rattle.std.specs.Option.{option_copied};
ghost use Rattle.syn_term.specs.Bank.{Belongs, Extends};
ghost use Rattle.syn_term.specs.declared.sorts.Var.{Var};
ghost use Rattle.syn_form.specs.Plain.{IsFormed};
ghost use Rattle.syn_form.specs.Substitutions.{KeepsSorts};
ghost use Rattle.syn_form.specs.Trees.{bare_form, form_vars};
ghost use Rattle.syn_row.specs.Calls.{forms_terms};
ghost use Rattle.syn_row.specs.Guards.{IsGuardRule, RuleBelongs, brought, guard_of, guards_of};
ghost use Rattle.syn_unify.specs.Bindings.{BindsOwn, bound_vars};
ghost use Rattle.syn_resolve.specs.inner.Reflexing.{image_calls, output_calls, outputs_calls};

use sqlite_items::Items;
use std::alloc::Global;
use syn_form::{Form, Out};
use syn_row::{GuardRule, call_guards, output_occurrences, put_calls};
use syn_term::{Bank, NoMemory, SymId, Symbols, Term, Var};
use syn_unify::Subst;

/// Appends the applications of the symbol that stand in the term that the variable becomes; none where it isn't bound.
fn put_image_calls(f: SymId, s: &Subst, v: Var, calls: &mut Items<Term>) -> Result<(), NoMemory>
    ensures { OnOk result (calls.new ≡ calls.old ++ image_calls f s.now v) }
{
    match s.get(v) {
        None => Ok(()),
        Some(t) => put_calls(f, t, calls),
    }
}

/// The same for each of the variables.
fn put_images_calls(
    f: SymId,
    s: &Subst,
    vars: &[Var],
    calls: &mut Items<Term>,
) -> Result<(), NoMemory>
    ensures { OnOk result (calls.new ≡ calls.old ++ flat_map (image_calls f s.now) vars.now) }
{
    for v in vars {
        put_image_calls(f, s, *v, calls)?;
    }
    Ok(())
}

/// The same for the variables of the output, in the order in which they first occur.
fn put_output_calls(
    alloc: Global,
    f: SymId,
    s: &Subst,
    out: &Out,
    calls: &mut Items<Term>,
) -> Result<(), NoMemory>
    ensures { OnOk result (calls.new ≡ calls.old ++ output_calls f s.now out.now) }
{
    let vars = output_occurrences(alloc, out)?;
    let put = put_images_calls(f, s, vars.as_slice(), calls);
    drop(vars);
    put
}

/// The same for each of the outputs.
fn put_outputs_calls(
    alloc: Global,
    f: SymId,
    s: &Subst,
    outs: &[Out],
    calls: &mut Items<Term>,
) -> Result<(), NoMemory>
    ensures { OnOk result (calls.new ≡ calls.old ++ outputs_calls f s.now outs.now) }
{
    for out in outs {
        put_output_calls(alloc, f, s, out, calls)?;
    }
    Ok(())
}

/// The applications of the symbol that the substitution brings into the outputs.
pub(crate) fn brought_calls(
    alloc: Global,
    f: SymId,
    s: &Subst,
    outs: &[Out],
) -> Result<Items<Term>, NoMemory>
    ensures { IfOk result (λ calls. calls ≡ outputs_calls f s.now outs.now) }
{
    let mut calls = Items::new(alloc);
    put_outputs_calls(alloc, f, s, outs, &mut calls)?;
    Ok(calls)
}

/// The guards of the program calls that the substitution brings into the outputs.
#[tactic(auto, using(crate::proofs::Growth::growth))]
fn guards_brought(
    alloc: Global,
    bank: &mut Bank,
    syms: &Symbols,
    rule: &GuardRule,
    s: &Subst,
    outs: &[Out],
) -> Result<Items<Form>, NoMemory>
    requires rule { IsGuardRule syms.now rule.now }
    requires rule_own { RuleBelongs bank.old rule.now }
    requires keeps { KeepsSorts syms.now s.now }
    requires own { BindsOwn bank.old s.now }
    ensures guards { IfOk result (λ gs. map bare_form gs ≡ map bare_form (map (guard_of rule.now) (brought s.now outs.now (rule.now).program))) }
    ensures formed { IfOk result (All (IsFormed syms.now)) }
    ensures vars { IfOk result (λ gs. (w : Var) → Contains (flat_map form_vars gs) w → Contains (bound_vars s.now) w) }
    ensures extends { Extends bank.old bank.new }
    ensures belongs { IfOk result (λ gs. All (Belongs bank.new) (forms_terms gs)) }
{
    let calls = brought_calls(alloc, rule.program, s, outs)?;
    let guards = call_guards(alloc, bank, syms, Some(rule), calls.as_slice());
    drop(calls);
    guards
}

/// The guards of the program calls that the substitution brings into the outputs, output after output; none where there is
/// no rule. Their variables are among those of the terms that the substitution puts in. The one error is `NoMemory`.
#[tactic(auto, using(crate::proofs::Growth::growth))]
pub(crate) fn brought_guards(
    alloc: Global,
    bank: &mut Bank,
    syms: &Symbols,
    rule: Option<&GuardRule>,
    s: &Subst,
    outs: &[Out],
) -> Result<Items<Form>, NoMemory>
    requires rule { IfSome (option_copied rule) (IsGuardRule syms.now) }
    requires rule_own { IfSome (option_copied rule) (RuleBelongs bank.old) }
    requires keeps { KeepsSorts syms.now s.now }
    requires own { BindsOwn bank.old s.now }
    ensures guards { IfOk result (λ gs. map bare_form gs ≡ map bare_form (guards_of (option_copied rule.entry) (brought s.now outs.now))) }
    ensures formed { IfOk result (All (IsFormed syms.now)) }
    ensures vars { IfOk result (λ gs. (w : Var) → Contains (flat_map form_vars gs) w → Contains (bound_vars s.now) w) }
    ensures extends { Extends bank.old bank.new }
    ensures belongs { IfOk result (λ gs. All (Belongs bank.new) (forms_terms gs)) }
{
    match rule {
        None => Ok(Items::new(alloc)),
        Some(rule) => guards_brought(alloc, bank, syms, rule, s, outs),
    }
}

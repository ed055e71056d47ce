// The guards of recursive calls.
ghost use Rattle.std.specs.Prelude.{◌≡◌, ◌++◌, ◌∷◌, [], map, All, Contains, IfNone, IfOk, IfSome, MatchOption, OnOk};
ghost use Rattle.std.specs.List.{flat_map};
ghost use Rattle.std.specs.Option.{option_copied};
ghost use Rattle.syn_term.specs.Bank.{Belongs, Extends};
ghost use Rattle.syn_term.specs.declared.sorts.Var.{Var};
ghost use Rattle.syn_term.specs.Terms.{bare, sort_of};
ghost use Rattle.syn_form.specs.declared.trees.Form.TheVariants as form;
ghost use Rattle.syn_form.specs.declared.trees.Form.TheViews as views;
ghost use Rattle.syn_form.specs.Inputs.{form_with_inputs};
ghost use Rattle.syn_form.specs.Plain.{IsFormed, IsSorted};
ghost use Rattle.syn_form.specs.Trees.{bare_form, form_terms, form_vars, term_vars};
ghost use Rattle.syn_row.specs.Guards.{IsCallOf, IsGuardRule, RuleBelongs, guard_of, guards_of, with_terms};
ghost use Rattle.syn_row.specs.Calls.{forms_terms};
ghost use Rattle.syn_row.specs.inner.Guarding.{guard_over};

use crate::guards::GuardRule;
use crate::renumbering::conjunction_of;
use sqlite_items::Items;
use std::alloc::Global;
use syn_form::{Form, put_inputs};
use syn_term::{Bank, NoMemory, Node, Shared, SymId, Symbols, Term};

/// Appends the terms.
fn put_terms(terms: &[Term], items: &mut Items<Term>) -> Result<(), NoMemory>
    ensures { OnOk result (items.new ≡ items.old ++ terms.now) }
{
    match terms {
        [] => Ok(()),
        [first, rest @ ..] => {
            items.push(first.again()?)?;
            put_terms(rest, items)
        }
    }
}

/// Appends the inputs' own terms.
fn put_input_terms(inputs: &[(SymId, Term)], items: &mut Items<Term>) -> Result<(), NoMemory>
    ensures { OnOk result (items.new ≡ items.old ++ map (λ b. b.1) inputs.now) }
{
    match inputs {
        [] => Ok(()),
        [first, rest @ ..] => {
            items.push(first.1.again()?)?;
            put_input_terms(rest, items)
        }
    }
}

/// The order's atom of the terms and the inputs.
fn order_atom(
    alloc: Global,
    order: SymId,
    terms: &[Term],
    inputs: &[(SymId, Term)],
) -> Result<Form, NoMemory>
    ensures { IfOk result (λ g. g ≡ form.Atom order (terms.now ++ map (λ b. b.1) inputs.now)) }
{
    let mut items = Items::new(alloc);
    put_terms(terms, &mut items)?;
    put_input_terms(inputs, &mut items)?;
    Ok(Form::Atom(order, Shared::new(alloc, items)?))
}

/// Appends the inputs' symbols, each with the term at its place.
fn put_pairs(
    inputs: &[(SymId, Term)],
    terms: &[Term],
    pairs: &mut Items<(SymId, Term)>,
) -> Result<(), NoMemory>
    ensures { OnOk result (pairs.new ≡ pairs.old ++ with_terms inputs.now terms.now) }
{
    match inputs {
        [] => Ok(()),
        [input, inputs @ ..] => match terms {
            [] => Ok(()),
            [term, terms @ ..] => {
                pairs.push((input.0, term.again()?))?;
                put_pairs(inputs, terms, pairs)
            }
        },
    }
}

/// The inputs' symbols, each with the term at its place.
fn paired(
    alloc: Global,
    inputs: &[(SymId, Term)],
    terms: &[Term],
) -> Result<Items<(SymId, Term)>, NoMemory>
    ensures { IfOk result (λ bs. bs ≡ with_terms inputs.now terms.now) }
{
    let mut pairs = Items::new(alloc);
    put_pairs(inputs, terms, &mut pairs)?;
    Ok(pairs)
}

/// The input condition of the terms in place of the inputs.
#[tactic(auto, using(crate::proofs::Growth::growth))]
fn put_condition(
    alloc: Global,
    bank: &mut Bank,
    syms: &Symbols,
    rule: &GuardRule,
    terms: &[Term],
) -> Result<Form, NoMemory>
    requires rule { IsGuardRule syms.now rule.now }
    requires belongs { All (Belongs bank.old) terms.now }
    requires sorted { All (IsSorted syms.now) terms.now }
    requires sorts { map (sort_of syms.now) terms.now ≡ map (λ b. sort_of syms.now b.1) (rule.now).inputs }
    ensures tree { IfOk result (λ g. bare_form g ≡ bare_form (form_with_inputs (with_terms (rule.now).inputs terms.now) (rule.now).condition)) }
    ensures formed { IfOk result (IsFormed syms.now) }
    ensures vars { IfOk result (λ g. (w : Var) → Contains (form_vars g) w → Contains (flat_map term_vars terms.now) w) }
    ensures extends { Extends bank.old bank.new }
    ensures belongs { IfOk result (λ g. All (Belongs bank.new) (form_terms g)) }
{
    let pairs = paired(alloc, rule.inputs.as_slice(), terms)?;
    let made = put_inputs(alloc, bank, syms, &rule.condition, pairs.as_slice());
    drop(pairs);
    made
}

/// Appends both formulas.
fn put_both(members: &mut Items<Form>, f: Form, g: Form) -> Result<(), NoMemory>
    ensures { OnOk result (members.new ≡ members.old ++ (f ∷ g ∷ [])) }
{
    match members.push(f) {
        Ok(()) => Ok(members.push(g)?),
        Err(_) => {
            drop(g);
            Err(NoMemory)
        }
    }
}

/// The `and` of both.
fn both_of(alloc: Global, f: Form, g: Form) -> Result<Form, NoMemory>
    ensures { IfOk result (λ h. h ≡ views.And (f ∷ g ∷ [])) }
{
    let mut members = Items::new(alloc);
    match put_both(&mut members, f, g) {
        Ok(()) => conjunction_of(alloc, members),
        Err(error) => {
            drop(members);
            Err(error)
        }
    }
}

/// The guard of a call with these arguments.
#[tactic(auto, using(crate::proofs::Growth::growth))]
fn guard_with(
    alloc: Global,
    bank: &mut Bank,
    syms: &Symbols,
    rule: &GuardRule,
    terms: &[Term],
) -> Result<Form, NoMemory>
    requires rule { IsGuardRule syms.now rule.now }
    requires own { RuleBelongs bank.old rule.now }
    requires belongs { All (Belongs bank.old) terms.now }
    requires sorted { All (IsSorted syms.now) terms.now }
    requires sorts { map (sort_of syms.now) terms.now ≡ map (λ b. sort_of syms.now b.1) (rule.now).inputs }
    ensures tree { IfOk result (λ g. bare_form g ≡ bare_form (guard_over rule.now terms.now)) }
    ensures formed { IfOk result (IsFormed syms.now) }
    ensures vars { IfOk result (λ g. (w : Var) → Contains (form_vars g) w → Contains (flat_map term_vars terms.now) w) }
    ensures extends { Extends bank.old bank.new }
    ensures belongs { IfOk result (λ g. All (Belongs bank.new) (form_terms g)) }
{
    let atom = order_atom(alloc, rule.order, terms, rule.inputs.as_slice())?;
    match put_condition(alloc, bank, syms, rule, terms) {
        Ok(condition) => both_of(alloc, atom, condition),
        Err(error) => {
            drop(atom);
            Err(error)
        }
    }
}

/// The guard of a call of the program: its arguments are below the inputs in the order, and they meet the input
/// condition. None exactly where the term is no application of the program's symbol; then nothing is made.
///
/// The guard is formed, and its variables are the call's. The one error is `NoMemory`.
#[tactic(auto, using(crate::proofs::Growth::growth))]
pub fn guard(
    alloc: Global,
    bank: &mut Bank,
    syms: &Symbols,
    rule: &GuardRule,
    call: &Term,
) -> Result<Option<Form>, NoMemory>
    requires rule { IsGuardRule syms.now rule.now }
    requires own { RuleBelongs bank.old rule.now }
    requires sorted { IsSorted syms.now call.now }
    requires belongs { Belongs bank.old call.now }
    ensures guard { IfOk result (λ o. MatchOption o (¬ (IsCallOf (rule.now).program call.now)) (λ g. IsCallOf (rule.now).program call.now × (bare_form g ≡ bare_form (guard_of rule.now call.now)))) }
    ensures formed { IfOk result (λ o. IfSome o (IsFormed syms.now)) }
    ensures vars { IfOk result (λ o. IfSome o (λ g. (w : Var) → Contains (form_vars g) w → Contains (term_vars call.now) w)) }
    ensures none { IfOk result (λ o. IfNone o (bank.new ≡ bank.old)) }
    ensures extends { Extends bank.old bank.new }
    ensures belongs { IfOk result (λ o. IfSome o (λ g. All (Belongs bank.new) (form_terms g))) }
{
    match call.get() {
        Node::Var(_, _) => Ok(None),
        Node::App(_, f, terms) => {
            if *f != rule.program {
                return Ok(None);
            }
            match guard_with(alloc, bank, syms, rule, terms.as_slice()) {
                Ok(guard) => Ok(Some(guard)),
                Err(error) => Err(error),
            }
        }
    }
}

/// The guards of the calls, one after another.
#[tactic(auto, using(crate::proofs::Growth::growth))]
fn guards_by(
    alloc: Global,
    bank: &mut Bank,
    syms: &Symbols,
    rule: &GuardRule,
    calls: &[Term],
) -> Result<Items<Form>, NoMemory>
    requires rule { IsGuardRule syms.now rule.now }
    requires own { RuleBelongs bank.old rule.now }
    requires calls { All (IsCallOf (rule.now).program) calls.now }
    requires sorted { All (IsSorted syms.now) calls.now }
    requires belongs { All (Belongs bank.old) calls.now }
    ensures guards { IfOk result (λ gs. map bare_form gs ≡ map bare_form (map (guard_of rule.now) calls.now)) }
    ensures formed { IfOk result (All (IsFormed syms.now)) }
    ensures vars { IfOk result (λ gs. (w : Var) → Contains (flat_map form_vars gs) w → Contains (flat_map term_vars calls.now) w) }
    ensures extends { Extends bank.old bank.new }
    ensures belongs { IfOk result (λ gs. All (Belongs bank.new) (forms_terms gs)) }
{
    let mut done = Items::new(alloc);
    for call in calls {
        match guard(alloc, bank, syms, rule, call)? {
            Some(guard) => done.push(guard)?,
            None => unreachable!(),
        }
    }
    Ok(done)
}

/// The guards of calls of the program's symbol, in order; none where there is no rule. Each is formed, and their
/// variables are the calls'. The one error is `NoMemory`.
#[tactic(auto, using(crate::proofs::Growth::growth))]
pub fn call_guards(
    alloc: Global,
    bank: &mut Bank,
    syms: &Symbols,
    rule: Option<&GuardRule>,
    calls: &[Term],
) -> Result<Items<Form>, NoMemory>
    requires rule { IfSome (option_copied rule) (IsGuardRule syms.now) }
    requires own { IfSome (option_copied rule) (RuleBelongs bank.old) }
    requires calls { IfSome (option_copied rule) (λ r. All (IsCallOf r.program) calls.now) }
    requires sorted { All (IsSorted syms.now) calls.now }
    requires belongs { All (Belongs bank.old) calls.now }
    ensures guards { IfOk result (λ gs. map bare_form gs ≡ map bare_form (guards_of (option_copied rule.entry) (λ f. calls.now))) }
    ensures formed { IfOk result (All (IsFormed syms.now)) }
    ensures vars { IfOk result (λ gs. (w : Var) → Contains (flat_map form_vars gs) w → Contains (flat_map term_vars calls.now) w) }
    ensures extends { Extends bank.old bank.new }
    ensures belongs { IfOk result (λ gs. All (Belongs bank.new) (forms_terms gs)) }
{
    match rule {
        None => Ok(Items::new(alloc)),
        Some(rule) => guards_by(alloc, bank, syms, rule, calls),
    }
}

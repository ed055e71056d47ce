// Formulas with each variable replaced by the default term of its sort.
ghost use Rattle.std.specs.Prelude.{◌≡◌, All, IfOk, map};
ghost use Rattle.syn_term.specs.Bank.{Extends};
ghost use Rattle.syn_form.specs.declared.trees.Form.TheVariants as form;
ghost use Rattle.syn_form.specs.declared.trees.Form.TheViews as views;
ghost use Rattle.syn_form.specs.Plain.{IsFormed, IsSorted};
ghost use Rattle.syn_form.specs.Trees.{bare_form};
ghost use Rattle.syn_extract.specs.inner.ClosedForms.{closed_form};

use crate::closing::{close_term, close_terms};
use crate::making::{conjunction_of, disjunction_of, implication_of, negation_of};
use sqlite_items::Items;
use std::alloc::Global;
use syn_form::Form;
use syn_term::{Bank, NoMemory, Shared, SymId, Symbols, Term};

/// The atom with its variables replaced.
#[tactic(auto, using(crate::proofs::ClosedTerms::growth))]
fn close_atom(
    alloc: Global,
    bank: &mut Bank,
    syms: &Symbols,
    r: SymId,
    args: &[Term],
) -> Result<Form, NoMemory>
    requires { All (IsSorted syms.now) args.now }
    ensures tree { IfOk result (λ g. bare_form g ≡ closed_form syms.now (form.Atom r args.now)) }
    ensures extends { Extends bank.old bank.new }
{
    let args = close_terms(alloc, bank, syms, args)?;
    Ok(Form::Atom(r, Shared::new(alloc, args)?))
}

/// The equality with its variables replaced.
#[tactic(auto, using(crate::proofs::ClosedTerms::growth))]
fn close_equality(
    alloc: Global,
    bank: &mut Bank,
    syms: &Symbols,
    s: &Term,
    t: &Term,
) -> Result<Form, NoMemory>
    requires left { IsSorted syms.now s.now }
    requires right { IsSorted syms.now t.now }
    ensures tree { IfOk result (λ g. bare_form g ≡ closed_form syms.now (form.Equal s.now t.now)) }
    ensures extends { Extends bank.old bank.new }
{
    let s = close_term(alloc, bank, syms, s)?;
    let t = close_term(alloc, bank, syms, t)?;
    Ok(Form::Equal(s, t))
}

/// The formula with each variable replaced by the default term of its sort.
#[cycle(forms)]
#[tactic(auto, using(crate::proofs::ClosedTerms::growth))]
pub(crate) fn close_form(
    alloc: Global,
    bank: &mut Bank,
    syms: &Symbols,
    f: &Form,
) -> Result<Form, NoMemory>
    requires formed { IsFormed syms.now f.now }
    ensures tree { IfOk result (λ g. bare_form g ≡ closed_form syms.now f.now) }
    ensures extends { Extends bank.old bank.new }
{
    match f {
        Form::True => Ok(Form::True),
        Form::False => Ok(Form::False),
        Form::Atom(r, args) => close_atom(alloc, bank, syms, *r, args.get().as_slice()),
        Form::Equal(s, t) => close_equality(alloc, bank, syms, s, t),
        Form::Not(a) => close_negation(alloc, bank, syms, a.get()),
        Form::And(all) => close_conjunction(alloc, bank, syms, all.get().as_slice()),
        Form::Or(all) => close_disjunction(alloc, bank, syms, all.get().as_slice()),
        Form::Implies(a, b) => close_implication(alloc, bank, syms, a.get(), b.get()),
    }
}

/// The negation of the formula with its variables replaced.
#[cycle(forms)]
#[tactic(auto, using(crate::proofs::ClosedTerms::growth))]
fn close_negation(
    alloc: Global,
    bank: &mut Bank,
    syms: &Symbols,
    a: &Form,
) -> Result<Form, NoMemory>
    requires formed { IsFormed syms.now a.now }
    ensures tree { IfOk result (λ g. bare_form g ≡ views.Not (closed_form syms.now a.now)) }
    ensures extends { Extends bank.old bank.new }
{
    match close_form(alloc, bank, syms, a) {
        Ok(a) => negation_of(alloc, a),
        other => other,
    }
}

/// The `and` of the formulas with their variables replaced.
#[cycle(forms)]
#[tactic(auto, using(crate::proofs::ClosedTerms::growth))]
fn close_conjunction(
    alloc: Global,
    bank: &mut Bank,
    syms: &Symbols,
    all: &[Form],
) -> Result<Form, NoMemory>
    requires formed { All (IsFormed syms.now) all.now }
    ensures tree { IfOk result (λ g. bare_form g ≡ views.And (map (closed_form syms.now) all.now)) }
    ensures extends { Extends bank.old bank.new }
{
    match close_forms(alloc, bank, syms, all) {
        Ok(all) => conjunction_of(alloc, all),
        Err(error) => Err(error),
    }
}

/// The `or` of the formulas with their variables replaced.
#[cycle(forms)]
#[tactic(auto, using(crate::proofs::ClosedTerms::growth))]
fn close_disjunction(
    alloc: Global,
    bank: &mut Bank,
    syms: &Symbols,
    all: &[Form],
) -> Result<Form, NoMemory>
    requires formed { All (IsFormed syms.now) all.now }
    ensures tree { IfOk result (λ g. bare_form g ≡ views.Or (map (closed_form syms.now) all.now)) }
    ensures extends { Extends bank.old bank.new }
{
    match close_forms(alloc, bank, syms, all) {
        Ok(all) => disjunction_of(alloc, all),
        Err(error) => Err(error),
    }
}

/// The implication with its variables replaced.
#[cycle(forms)]
#[tactic(auto, using(crate::proofs::ClosedTerms::growth))]
fn close_implication(
    alloc: Global,
    bank: &mut Bank,
    syms: &Symbols,
    a: &Form,
    b: &Form,
) -> Result<Form, NoMemory>
    requires left { IsFormed syms.now a.now }
    requires right { IsFormed syms.now b.now }
    ensures tree { IfOk result (λ g. bare_form g ≡ views.Implies (closed_form syms.now a.now) (closed_form syms.now b.now)) }
    ensures extends { Extends bank.old bank.new }
{
    let a = close_form(alloc, bank, syms, a)?;
    match close_form(alloc, bank, syms, b) {
        Ok(b) => implication_of(alloc, a, b),
        other => {
            drop(a);
            other
        }
    }
}

/// Each of the formulas with its variables replaced.
#[cycle(forms)]
#[tactic(auto, using(crate::proofs::ClosedTerms::growth))]
fn close_forms(
    alloc: Global,
    bank: &mut Bank,
    syms: &Symbols,
    all: &[Form],
) -> Result<Items<Form>, NoMemory>
    requires formed { All (IsFormed syms.now) all.now }
    ensures tree { IfOk result (λ gs. map bare_form gs ≡ map (closed_form syms.now) all.now) }
    ensures extends { Extends bank.old bank.new }
{
    let mut done = Items::new(alloc);
    for f in all {
        done.push(close_form(alloc, bank, syms, f)?)?;
    }
    Ok(done)
}

// What the guard rule of a specification is made of.
ghost use Rattle.std.specs.Prelude.{◌≡◌, ◌∷◌, [], All, IfOk, List, MatchOption, Some, map};
ghost use Rattle.std.specs.Option.{option_copied};
ghost use Rattle.syn_term.specs.Bank.{Belongs, Extends};
ghost use Rattle.syn_term.specs.Symbols.{symbol_at};
ghost use Rattle.syn_term.specs.Terms.{IsApplication, application, bare};
ghost use Rattle.syn_form.specs.Plain.{IsFormed};
ghost use Rattle.syn_form.specs.Trees.{bare_form, form_terms};
ghost use Rattle.syn_model.specs.declared.spec_part.SpecPart.{SpecPart};
ghost use Rattle.syn_model.specs.Heads.{input_symbol};
ghost use Rattle.syn_start.specs.Initial.{input_condition};
ghost use Rattle.syn_start.specs.Rules.{IsOwnTerm, order_name};

use crate::conditions::required;
use sqlite_items::Items;
use std::alloc::Global;
use syn_form::{Form, put_inputs};
use syn_model::{Spec, SpecPart};
use syn_term::{Bank, NoMemory, SymId, Symbols, Term, Text};

/// The name of the order, where the part names it.
fn stated(part: &SpecPart) -> Option<&Text>
    ensures { MatchOption result ((rest : List SpecPart) → order_name (part.now ∷ rest) ≡ order_name rest) (λ name. (rest : List SpecPart) → order_name (part.now ∷ rest) ≡ Some name.now) }
{
    match part {
        SpecPart::Order(name) => Some(name),
        _ => None,
    }
}

/// The name of the order; None where none is named.
pub(crate) fn named_order(parts: &[SpecPart]) -> Option<&Text>
    ensures { option_copied result ≡ order_name parts.now }
{
    for part in parts {
        match stated(part) {
            Some(name) => return Some(name),
            None => {}
        }
    }
    None
}

/// The input's own term.
#[tactic(auto, using(crate::proofs::MadeAgain::growth))]
fn input_term(alloc: Global, bank: &mut Bank, syms: &Symbols, id: SymId) -> Result<Term, NoMemory>
    requires { IsApplication syms.now id [] }
    ensures tree { IfOk result (λ t. bare t ≡ application id []) }
    ensures extends { Extends bank.old bank.new }
    ensures belongs { IfOk result (Belongs bank.new) }
{
    match bank.app_owned(alloc, syms, id, Items::new(alloc)) {
        Ok(Some(t)) => Ok(t),
        Ok(None) => unreachable!(),
        Err(error) => Err(error),
    }
}

/// The inputs, each with its own term.
#[tactic(auto, using(crate::proofs::MadeAgain::growth))]
pub(crate) fn own_inputs(
    alloc: Global,
    bank: &mut Bank,
    syms: &Symbols,
    ids: &[SymId],
) -> Result<Items<(SymId, Term)>, NoMemory>
    requires { All (λ id. IsApplication syms.now id []) ids.now }
    ensures ids { IfOk result (λ bs. map (λ b. b.0) bs ≡ ids.now) }
    ensures own { IfOk result (All IsOwnTerm) }
    ensures extends { Extends bank.old bank.new }
    ensures belongs { IfOk result (All (λ b. Belongs bank.new b.1)) }
{
    let mut done = Items::new(alloc);
    for id in ids {
        let term = input_term(alloc, bank, syms, *id)?;
        done.push((*id, term))?;
    }
    Ok(done)
}

/// The formula, made by the bank.
#[tactic(auto, using(crate::proofs::MadeAgain::growth))]
fn own_form(alloc: Global, bank: &mut Bank, syms: &Symbols, f: &Form) -> Result<Form, NoMemory>
    requires { IsFormed syms.now f.now }
    ensures tree { IfOk result (λ g. bare_form g ≡ bare_form f.now) }
    ensures extends { Extends bank.old bank.new }
    ensures belongs { IfOk result (λ g. All (Belongs bank.new) (form_terms g)) }
{
    put_inputs(alloc, bank, syms, f, &[])
}

/// The input condition, made by the bank; `true` where none is stated.
#[tactic(auto, using(crate::proofs::MadeAgain::growth))]
pub(crate) fn own_condition(alloc: Global, bank: &mut Bank, spec: &Spec) -> Result<Form, NoMemory>
    ensures tree { IfOk result (λ g. bare_form g ≡ bare_form (input_condition (spec.now).parts)) }
    ensures extends { Extends bank.old bank.new }
    ensures belongs { IfOk result (λ g. All (Belongs bank.new) (form_terms g)) }
{
    match required(spec.parts()) {
        None => Ok(Form::True),
        Some(f) => own_form(alloc, bank, spec.symbols(), f),
    }
}

// The goal of a specification.
ghost use Rattle.std.specs.Prelude.{◌≡◌, ◌∷◌, IfOk, IfSome, List, MatchOption, Some};
ghost use Rattle.std.specs.Option.{option_and_then, option_copied, option_map};
ghost use Rattle.syn_term.specs.Bank.{Extends};
ghost use Rattle.syn_form.specs.Quantified.{unquantified};
ghost use Rattle.syn_row.specs.Rows.{IsPlain};
ghost use Rattle.syn_model.specs.declared.spec_part.SpecPart.{SpecPart};
ghost use Rattle.syn_model.specs.Specifications.{output_var};
ghost use Rattle.syn_start.specs.Initial.{Exactly, GivenOf, GoalRow, IsGiven, IsReady, goal_of, output_condition};
ghost use Rattle.syn_start.specs.inner.Goals.{goal_with};

use crate::initial::initial;
use crate::start::Start;
use crate::unquantified::without_quantifiers;
use std::alloc::Global;
use syn_form::{Form, Out, QForm, Side, put_inputs};
use syn_model::{Spec, SpecPart};
use syn_row::Row;
use syn_term::{Bank, NoMemory, Symbols, Var};

/// The output condition, where the part states it.
fn stated(part: &SpecPart) -> Option<&QForm>
    ensures { MatchOption result ((rest : List SpecPart) → output_condition (part.now ∷ rest) ≡ output_condition rest) (λ f. (rest : List SpecPart) → output_condition (part.now ∷ rest) ≡ Some f.now) }
{
    match part {
        SpecPart::Ensures(f) => Some(f),
        _ => None,
    }
}

/// The output condition; None where no part states it.
fn ensured(parts: &[SpecPart]) -> Option<&QForm>
    ensures { option_copied result ≡ output_condition parts.now }
{
    for part in parts {
        match stated(part) {
            Some(f) => return Some(f),
            None => {}
        }
    }
    None
}

/// The output, as a variable.
fn output_of(spec: &Spec) -> Var
    ensures { result ≡ output_var spec.now }
{
    let (_, sort) = spec.output();
    Var { number: 0, sort }
}

/// The row that is given of the formula as a goal, with the variable for its output entry.
#[tactic(auto, using(crate::proofs::MadeAgain::growth))]
fn goal(
    alloc: Global,
    bank: &mut Bank,
    syms: &Symbols,
    f: &Form,
    v: Var,
) -> Result<Option<Row>, NoMemory>
    requires { IsPlain syms.now (goal_with v f.now) }
    ensures row { IfOk result (Exactly (IsGiven (goal_with v f.now))) }
    ensures ready { IfOk result (λ o. IfSome o (IsReady syms.now bank.new)) }
    ensures extends { Extends bank.old bank.new }
{
    let form = put_inputs(alloc, bank, syms, f, &[])?;
    match bank.var(alloc, v) {
        Ok(t) => initial(
            alloc,
            bank,
            syms,
            Row {
                side: Side::Goal,
                form,
                out: Some(Out::Give(t)),
            },
        ),
        Err(error) => {
            drop(form);
            Err(error)
        }
    }
}

/// The row of the output condition.
#[tactic(auto, using(crate::proofs::MadeAgain::growth))]
fn condition_row(
    alloc: Global,
    bank: &mut Bank,
    start: &Start,
    f: &QForm,
) -> Result<Option<Row>, NoMemory>
    requires { output_condition (start.now).spec.parts ≡ Some f.now }
    ensures row { IfOk result (Exactly (GivenOf (option_map (goal_of (start.now).spec) (unquantified f.now)))) }
    ensures ready { IfOk result (λ o. IfSome o (IsReady (start.now).spec.table bank.new)) }
    ensures extends { Extends bank.old bank.new }
{
    match without_quantifiers(alloc, f) {
        Ok(None) => Ok(None),
        Ok(Some(g)) => {
            let made = goal(alloc, bank, start.symbols(), &g, output_of(start.spec()));
            drop(g);
            made
        }
        Err(error) => Err(error),
    }
}

/// The initial row of the output condition: the condition as a goal, whose output entry is the output itself,
/// a free variable. None exactly where the condition has a quantifier or the row passes the limit of a row.
/// The one error is `NoMemory`.
#[tactic(auto, using(crate::proofs::MadeAgain::growth))]
pub fn goal_row(alloc: Global, bank: &mut Bank, start: &Start) -> Result<Option<Row>, NoMemory>
    ensures row { IfOk result (Exactly (GoalRow (start.now).spec)) }
    ensures ready { IfOk result (λ o. IfSome o (IsReady (start.now).spec.table bank.new)) }
    ensures extends { Extends bank.old bank.new }
{
    match ensured(start.spec().parts()) {
        None => Ok(None),
        Some(f) => condition_row(alloc, bank, start, f),
    }
}

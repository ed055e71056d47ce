// The conditions of a specification, found among its parts, and the row of the input condition.
ghost use Rattle.std.specs.Prelude.{◌≡◌, ◌∷◌, IfOk, IfSome, List, MatchOption};
ghost use Rattle.syn_term.specs.Bank.{Extends};
ghost use Rattle.syn_form.specs.declared.trees.Form.TheVariants as form;
ghost use Rattle.syn_model.specs.declared.spec_part.SpecPart.{SpecPart};
ghost use Rattle.syn_start.specs.Initial.{Exactly, InputRow, IsReady, input_condition};

use crate::initial::assertion;
use crate::start::Start;
use std::alloc::Global;
use syn_form::Form;
use syn_model::SpecPart;
use syn_row::Row;
use syn_term::{Bank, NoMemory};

/// The input condition, where the part states it.
fn stated(part: &SpecPart) -> Option<&Form>
    ensures { MatchOption result ((rest : List SpecPart) → input_condition (part.now ∷ rest) ≡ input_condition rest) (λ f. (rest : List SpecPart) → input_condition (part.now ∷ rest) ≡ f.now) }
{
    match part {
        SpecPart::Requires(f) => Some(f),
        _ => None,
    }
}

/// The input condition; None where no part states it.
pub(crate) fn required(parts: &[SpecPart]) -> Option<&Form>
    ensures { MatchOption result (input_condition parts.now ≡ form.True) (λ f. input_condition parts.now ≡ f.now) }
{
    for part in parts {
        match stated(part) {
            Some(f) => return Some(f),
            None => {}
        }
    }
    None
}

/// The initial row of the input condition: the condition as an assertion, `true` where none is stated. None
/// exactly where it passes the limit of a row. The one error is `NoMemory`.
#[tactic(auto, using(crate::proofs::MadeAgain::growth))]
pub fn input_row(alloc: Global, bank: &mut Bank, start: &Start) -> Result<Option<Row>, NoMemory>
    ensures row { IfOk result (Exactly (InputRow (start.now).spec)) }
    ensures ready { IfOk result (λ o. IfSome o (IsReady (start.now).spec.table bank.new)) }
    ensures extends { Extends bank.old bank.new }
{
    match required(start.spec().parts()) {
        None => assertion(alloc, bank, start.symbols(), &Form::True),
        Some(f) => assertion(alloc, bank, start.symbols(), f),
    }
}

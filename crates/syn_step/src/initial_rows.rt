// The row of a step that begins a derivation.
ghost use Rattle.std.specs.Prelude.{IfOk, IfSome, List};
ghost use Rattle.syn_term.specs.Bank.{Extends};
ghost use Rattle.syn_row.specs.Rows.{RowTree};
ghost use Rattle.syn_start.specs.declared.steps.Step.TheVariants as steps;
ghost use Rattle.syn_start.specs.Initial.{Exactly, IsReady};
ghost use Rattle.syn_step.specs.Steps.{StepGives};

use std::alloc::Global;
use syn_row::Row;
use syn_start::{Origin, Start, def_row, goal_row, input_row};
use syn_term::{Bank, NoMemory};

/// The initial row that comes of this; it is the same whatever rows stand before it. Axioms and induction give none yet.
#[tactic(auto, using(crate::proofs::Growth::growth))]
pub(crate) fn initial_row(
    alloc: Global,
    bank: &mut Bank,
    start: &Start,
    origin: &Origin,
) -> Result<Option<Row>, NoMemory>
    ensures row { (rows : List RowTree) → IfOk result (Exactly (StepGives start.now rows (steps.Start origin.now))) }
    ensures ready { IfOk result (λ o. IfSome o (IsReady (start.now).spec.table bank.new)) }
    ensures extends { Extends bank.old bank.new }
{
    match origin {
        Origin::Goal => goal_row(alloc, bank, start),
        Origin::Input => input_row(alloc, bank, start),
        Origin::Def { name, clause } => def_row(alloc, bank, start, name.as_str(), *clause),
        Origin::Axiom(_) | Origin::Induct => Ok(None),
    }
}

// The rules of one row, which is named by its number.
ghost use Rattle.std.specs.Prelude.{All, IfOk, IfSome};
ghost use Rattle.syn_term.specs.Bank.{Extends};
ghost use Rattle.syn_row.specs.Guards.{RuleBelongs};
ghost use Rattle.syn_start.specs.declared.steps.Step.TheVariants as steps;
ghost use Rattle.syn_start.specs.Initial.{Exactly, IsReady};
ghost use Rattle.syn_start.specs.Rows.{IsRowOf};
ghost use Rattle.syn_step.specs.Steps.{StepGives};

use crate::numbered::row_at;
use std::alloc::Global;
use syn_resolve::{dual, reflex, split};
use syn_row::Row;
use syn_start::Start;
use syn_term::{Bank, NoMemory, Pos};

/// The row that splitting gives.
#[tactic(auto, using(crate::proofs::Growth::growth))]
pub(crate) fn split_row(
    alloc: Global,
    bank: &mut Bank,
    start: &Start,
    rows: &[Row],
    n: u32,
    member: u32,
) -> Result<Option<Row>, NoMemory>
    requires { All (IsRowOf start.now bank.old) rows.now }
    ensures row { IfOk result (Exactly (StepGives start.now rows.now (steps.Split n member))) }
    ensures ready { IfOk result (λ o. IfSome o (IsReady (start.now).spec.table bank.new)) }
    ensures extends { Extends bank.old bank.new }
{
    match row_at(rows, n) {
        None => Ok(None),
        Some(row) => split(alloc, bank, start.symbols(), row, member),
    }
}

/// The row that duality gives.
#[tactic(auto, using(crate::proofs::Growth::growth))]
pub(crate) fn dual_row(
    alloc: Global,
    bank: &mut Bank,
    start: &Start,
    rows: &[Row],
    n: u32,
) -> Result<Option<Row>, NoMemory>
    requires { All (IsRowOf start.now bank.old) rows.now }
    ensures row { IfOk result (Exactly (StepGives start.now rows.now (steps.Dual n))) }
    ensures ready { IfOk result (λ o. IfSome o (IsReady (start.now).spec.table bank.new)) }
    ensures extends { Extends bank.old bank.new }
{
    match row_at(rows, n) {
        None => Ok(None),
        Some(row) => dual(alloc, bank, start.symbols(), row),
    }
}

/// The row that reflexivity gives.
#[tactic(auto, using(crate::proofs::Growth::growth))]
pub(crate) fn reflex_row(
    alloc: Global,
    bank: &mut Bank,
    start: &Start,
    rows: &[Row],
    n: u32,
    at: &Pos,
) -> Result<Option<Row>, NoMemory>
    requires rule { IfSome (start.now).rule (RuleBelongs bank.old) }
    requires rows { All (IsRowOf start.now bank.old) rows.now }
    ensures row { IfOk result (Exactly (StepGives start.now rows.now (steps.Reflex n at.now))) }
    ensures ready { IfOk result (λ o. IfSome o (IsReady (start.now).spec.table bank.new)) }
    ensures extends { Extends bank.old bank.new }
{
    match row_at(rows, n) {
        None => Ok(None),
        Some(row) => reflex(alloc, bank, start.symbols(), start.guard_rule(), row, at),
    }
}

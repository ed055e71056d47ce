// The rules of two rows, which are named by their numbers and may be one.
ghost use Rattle.std.specs.Prelude.{All, IfOk, IfSome};
ghost use Rattle.syn_term.specs.Bank.{Extends};
ghost use Rattle.syn_row.specs.Guards.{RuleBelongs};
ghost use Rattle.syn_start.specs.declared.steps.Step.TheVariants as steps;
ghost use Rattle.syn_start.specs.Initial.{Exactly, IsReady};
ghost use Rattle.syn_start.specs.Rows.{IsRowOf};
ghost use Rattle.syn_step.specs.Steps.{StepGives};

use crate::numbered::rows_at;
use std::alloc::Global;
use syn_resolve::{equal, resolve};
use syn_row::{Dir, Row};
use syn_start::Start;
use syn_term::{Bank, NoMemory, Pos};

/// The row that nonclausal resolution gives.
#[tactic(auto, using(crate::proofs::Growth::growth))]
pub(crate) fn resolve_rows(
    alloc: Global,
    bank: &mut Bank,
    start: &Start,
    rows: &[Row],
    n: u32,
    ps: &[Pos],
    m: u32,
    qs: &[Pos],
) -> Result<Option<Row>, NoMemory>
    requires rule { IfSome (start.now).rule (RuleBelongs bank.old) }
    requires rows { All (IsRowOf start.now bank.old) rows.now }
    ensures row { IfOk result (Exactly (StepGives start.now rows.now (steps.Resolve n ps.now m qs.now))) }
    ensures ready { IfOk result (λ o. IfSome o (IsReady (start.now).spec.table bank.new)) }
    ensures extends { Extends bank.old bank.new }
{
    match rows_at(rows, n, m) {
        None => Ok(None),
        Some((first, second)) => resolve(
            alloc,
            bank,
            start.symbols(),
            start.guard_rule(),
            first,
            ps,
            second,
            qs,
        ),
    }
}

/// The row that equality replacement gives.
#[tactic(auto, using(crate::proofs::Growth::growth))]
pub(crate) fn equal_rows(
    alloc: Global,
    bank: &mut Bank,
    start: &Start,
    rows: &[Row],
    n: u32,
    at: &Pos,
    way: Dir,
    m: u32,
    place: &Pos,
) -> Result<Option<Row>, NoMemory>
    requires rule { IfSome (start.now).rule (RuleBelongs bank.old) }
    requires rows { All (IsRowOf start.now bank.old) rows.now }
    ensures row { IfOk result (Exactly (StepGives start.now rows.now (steps.Equal n at.now way m place.now))) }
    ensures ready { IfOk result (λ o. IfSome o (IsReady (start.now).spec.table bank.new)) }
    ensures extends { Extends bank.old bank.new }
{
    match rows_at(rows, n, m) {
        None => Ok(None),
        Some((first, second)) => equal(
            alloc,
            bank,
            start.symbols(),
            start.guard_rule(),
            first,
            at,
            way,
            second,
            place,
        ),
    }
}

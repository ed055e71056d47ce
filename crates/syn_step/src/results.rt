// What a step gives.
ghost use Rattle.std.specs.Prelude.{◌≡◌, All, IfOk, IfSome, Some};
ghost use Rattle.syn_term.specs.Bank.{Extends};
ghost use Rattle.syn_form.specs.Plain.{given_sort};
ghost use Rattle.syn_row.specs.Guards.{RuleBelongs};
ghost use Rattle.syn_start.specs.Initial.{Exactly, IsReady};
ghost use Rattle.syn_start.specs.Rows.{IsRowOf};
ghost use Rattle.syn_step.specs.Steps.{StepGives};

use crate::initial_rows::initial_row;
use crate::one_row::{dual_row, reflex_row, split_row};
use crate::two_rows::{equal_rows, resolve_rows};
use std::alloc::Global;
use syn_row::Row;
use syn_start::{Start, Step};
use syn_term::{Bank, NoMemory};

/// The row that the step gives over the rows before it, which are counted from 1. It is the canonical row of the rule that the
/// step names. None exactly where the rule gives no row, or the step names a row that isn't among these; `axiom`, `induct` and
/// relation replacement give none yet. The bank may have made nodes then. The row is again one over which steps may be made. The
/// one error is `NoMemory`.
#[tactic(auto, using(crate::proofs::Growth::growth))]
pub fn result(
    alloc: Global,
    bank: &mut Bank,
    start: &Start,
    rows: &[Row],
    step: &Step,
) -> Result<Option<Row>, NoMemory>
    requires rule { IfSome (start.now).rule (RuleBelongs bank.old) }
    requires rows { All (IsRowOf start.now bank.old) rows.now }
    ensures row { IfOk result (Exactly (StepGives start.now rows.now step.now)) }
    ensures ready { IfOk result (λ o. IfSome o (IsReady (start.now).spec.table bank.new)) }
    ensures output { IfOk result (λ o. IfSome o (λ q. IfSome q.out (λ u. given_sort (start.now).spec.table u ≡ Some (start.now).spec.head.result))) }
    ensures extends { Extends bank.old bank.new }
{
    match step {
        Step::Start(origin) => initial_row(alloc, bank, start, origin),
        Step::Split { row, member } => split_row(alloc, bank, start, rows, *row, *member),
        Step::Dual { row } => dual_row(alloc, bank, start, rows, *row),
        Step::Reflex { row, at } => reflex_row(alloc, bank, start, rows, *row, at),
        Step::Resolve {
            first,
            ps,
            second,
            qs,
        } => resolve_rows(
            alloc,
            bank,
            start,
            rows,
            *first,
            ps.as_slice(),
            *second,
            qs.as_slice(),
        ),
        Step::Equal {
            first,
            at,
            dir,
            second,
            place,
        } => equal_rows(alloc, bank, start, rows, *first, at, *dir, *second, place),
        Step::Relate { .. } => Ok(None),
    }
}

// Whether a line follows from the rows before it.
ghost use Rattle.std.specs.Prelude.{◌≡◌, ◌↔◌, [], ◌∷◌, ◌++◌, All, IfOk, IfSome, IsTrue};
ghost use Rattle.syn_term.specs.Bank.{Extends};
ghost use Rattle.syn_row.specs.Guards.{RuleBelongs};
ghost use Rattle.syn_row.specs.Rows.{IsSimplified, simplified_row};
ghost use Rattle.syn_start.specs.Rows.{IsRowOf};
ghost use Rattle.syn_replay.specs.inner.Lines.{ComesOf};

use crate::variants::is_variant;
use sqlite_items::Items;
use std::alloc::Global;
use syn_row::{Row, simplified};
use syn_start::{Start, Step};
use syn_step::result;
use syn_term::{Bank, NoMemory};

/// Whether the row, which is simplified, is a variant of the row that the step gives over the rows before it.
#[tactic(auto, using(crate::proofs::Growth::growth))]
fn follows(
    alloc: Global,
    bank: &mut Bank,
    start: &Start,
    rows: &[Row],
    step: &Step,
    row: &Row,
) -> Result<bool, NoMemory>
    requires rule { IfSome (start.now).rule (RuleBelongs bank.old) }
    requires rows { All (IsRowOf start.now bank.old) rows.now }
    requires row { IsRowOf start.now bank.old row.now }
    requires simplified { IsSimplified row.now }
    ensures follows { IfOk result (λ b. IsTrue b ↔ ComesOf start.now rows.now step.now row.now) }
    ensures extends { Extends bank.old bank.new }
{
    match result(alloc, bank, start, rows, step) {
        Ok(Some(made)) => {
            let is = is_variant(alloc, bank, start.spec().symbols(), row, &made);
            drop(made);
            is
        }
        Ok(None) => Ok(false),
        Err(error) => Err(error),
    }
}

/// Whether the row of a line, simplified, follows from the rows before it by the line's step. Where it does, it is put behind
/// these rows.
#[tactic(auto, using(crate::proofs::Growth::growth))]
pub(crate) fn take_line(
    alloc: Global,
    bank: &mut Bank,
    start: &Start,
    step: &Step,
    written: &Row,
    rows: &mut Items<Row>,
) -> Result<bool, NoMemory>
    requires rule { IfSome (start.now).rule (RuleBelongs bank.old) }
    requires row { IsRowOf start.now bank.old written.now }
    requires rows { All (IsRowOf start.now bank.old) rows.old }
    ensures follows { IfOk result (λ b. IsTrue b ↔ ComesOf start.now rows.old step.now (simplified_row written.now)) }
    ensures kept { IfOk result (λ b. IsTrue b → rows.new ≡ rows.old ++ simplified_row written.now ∷ []) }
    ensures extends { Extends bank.old bank.new }
{
    let row = simplified(alloc, written)?;
    match follows(alloc, bank, start, rows.as_slice(), step, &row) {
        Ok(true) => {
            rows.push(row)?;
            Ok(true)
        }
        Ok(false) => {
            drop(row);
            Ok(false)
        }
        Err(error) => {
            drop(row);
            Err(error)
        }
    }
}

// Whether a row is a variant of a row that a step gives.
ghost use Rattle.std.specs.Prelude.{◌≡◌, ◌↔◌, All, IfOk, IsTrue};
ghost use Rattle.syn_term.specs.Bank.{Belongs, Extends};
ghost use Rattle.syn_row.specs.Rows.{AreVariants, IsPlain, IsSimplified, RowTree, bare_row, canonical_row, row_terms};
ghost use Rattle.syn_start.specs.Initial.{IsReady};

use std::alloc::Global;
use syn_row::{Row, canonical};
use syn_term::{Bank, NoMemory, Symbols};

/// Whether the row, which is simplified, is a variant of the other one, which is the canonical row of some row.
#[tactic(auto, using(crate::proofs::Growth::growth))]
pub(crate) fn is_variant(
    alloc: Global,
    bank: &mut Bank,
    syms: &Symbols,
    row: &Row,
    made: &Row,
) -> Result<bool, NoMemory>
    requires plain { IsPlain syms.now row.now }
    requires own { All (Belongs bank.old) (row_terms row.now) }
    requires simplified { IsSimplified row.now }
    requires ready { IsReady syms.now bank.old made.now }
    requires canonical { (u : RowTree) × (bare_row made.now ≡ bare_row (canonical_row u)) }
    ensures variant { IfOk result (λ b. IsTrue b ↔ AreVariants row.now made.now) }
    ensures extends { Extends bank.old bank.new }
{
    match canonical(alloc, bank, syms, row) {
        Ok(Some(found)) => {
            let is_one = found.same(made);
            drop(found);
            Ok(is_one)
        }
        Ok(None) => Ok(false),
        Err(error) => Err(error),
    }
}

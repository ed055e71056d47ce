// Two rows kept apart: their variables renamed so that no number stands in both.
ghost use Rattle.std.specs.Prelude.{◌≡◌, ◌≤◌, ◌<◌, ◌+◌, ◌^◌, All, IfOk, length};
ghost use Rattle.syn_term.specs.Bank.{Belongs, Extends};
ghost use Rattle.syn_row.specs.Results.{AreApart};
ghost use Rattle.syn_row.specs.Rows.{IsPlain, first_occurrences, row_nodes, row_terms, row_vars};

use crate::occurrences::occurrences;
use crate::renumbering::renumbered_from;
use crate::rows::Row;
use std::alloc::Global;
use syn_term::{Bank, NoMemory, Symbols};

/// The number behind those of the row, where its variables are numbered from 1.
fn number_behind(alloc: Global, row: &Row) -> Result<u32, NoMemory>
    requires { row_nodes row.now + 1 < 2 ^ 32 }
    ensures { IfOk result (λ n. n ≡ 1 + length (first_occurrences (row_vars row.now))) }
{
    let vars = occurrences(alloc, row)?;
    let number = vars.as_slice().len() as u32 + 1;
    drop(vars);
    Ok(number)
}

/// The two rows with their variables renamed so that no number stands in both: those of the first are
/// numbered from 1, those of the second behind them, each by first occurrence. They may be one row. The
/// one error is `NoMemory`.
#[tactic(auto, using(crate::proofs::Growth::growth))]
pub fn kept_apart(
    alloc: Global,
    bank: &mut Bank,
    syms: &Symbols,
    r: &Row,
    s: &Row,
) -> Result<(Row, Row), NoMemory>
    requires plain_r { IsPlain syms.now r.now }
    requires plain_s { IsPlain syms.now s.now }
    requires few { row_nodes r.now + row_nodes s.now < 2 ^ 32 }
    requires own_r { All (Belongs bank.old) (row_terms r.now) }
    requires own_s { All (Belongs bank.old) (row_terms s.now) }
    ensures apart { IfOk result (λ both. AreApart r.now s.now both.0 both.1) }
    ensures plain { IfOk result (λ both. IsPlain syms.now both.0 × IsPlain syms.now both.1) }
    ensures own { IfOk result (λ both. All (Belongs bank.new) (row_terms both.0) × All (Belongs bank.new) (row_terms both.1)) }
    ensures extends { Extends bank.old bank.new }
{
    let next = number_behind(alloc, r)?;
    let left = renumbered_from(alloc, bank, syms, 1, r)?;
    match renumbered_from(alloc, bank, syms, next, s) {
        Ok(right) => Ok((left, right)),
        Err(error) => {
            drop(left);
            Err(error)
        }
    }
}

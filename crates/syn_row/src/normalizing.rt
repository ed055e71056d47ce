// The canonical row: simplified, and its variables numbered in the order in which they first occur.
ghost use Rattle.std.specs.Prelude.{◌≡◌, ◌≤◌, ◌+◌, [], All, IfOk, IfNone, IfSome, MatchOption};
ghost use Rattle.std.specs.Option.{option_map, option_map_or};
ghost use Rattle.syn_term.specs.Bank.{Belongs, Extends};
ghost use Rattle.syn_form.specs.Same.{OfOneBank};
ghost use Rattle.syn_form.specs.Simplification.{simplified_out};
ghost use Rattle.syn_form.specs.Trees.{out_terms};
ghost use Rattle.syn_row.specs.Rows.{IsPlain, IsSimplified, IsWithinRow, bare_row, canonical_row, renumbered_row, row_nodes, row_terms, simplified_row};
ghost use Rattle.syn_row.specs.RowLaws.{CanonicalLaws};

use crate::limits::is_within;
use crate::renumbering::renumbered_from;
use crate::rows::Row;
use std::alloc::Global;
use syn_form::{Out, simplify, simplify_out};
use syn_term::{Bank, NoMemory, Symbols};

/// The output simplified, where there is one.
fn simplified_output(alloc: Global, out: &Option<Out>) -> Result<Option<Out>, NoMemory>
    requires { OfOneBank (option_map_or out_terms out.now []) }
    ensures { IfOk result (λ o. o ≡ option_map simplified_out out.now) }
{
    match out {
        None => Ok(None),
        Some(out) => match simplify_out(alloc, out) {
            Ok(out) => Ok(Some(out)),
            Err(error) => Err(error),
        },
    }
}

/// The row simplified: formula and output are. It is true where the row is, has no more nodes, no more depth and no
/// variable that the row hasn't. It asks that the row's terms are of one bank; nothing is made in a bank. The one error is
/// `NoMemory`.
pub fn simplified(alloc: Global, row: &Row) -> Result<Row, NoMemory>
    requires { OfOneBank (row_terms row.now) }
    ensures { IfOk result (λ r. r ≡ simplified_row row.now) }
{
    let form = simplify(alloc, &row.form)?;
    match simplified_output(alloc, &row.out) {
        Ok(out) => Ok(Row {
            side: row.side,
            form,
            out,
        }),
        Err(error) => {
            drop(form);
            Err(error)
        }
    }
}

/// The row with its variables numbered in the order in which they first occur.
#[tactic(auto, using(crate::proofs::Growth::growth))]
fn renumber(alloc: Global, bank: &mut Bank, syms: &Symbols, row: &Row) -> Result<Row, NoMemory>
    requires plain { IsPlain syms.now row.now }
    requires within { IsWithinRow row.now }
    requires own { All (Belongs bank.old) (row_terms row.now) }
    ensures tree { IfOk result (λ r. bare_row r ≡ bare_row (renumbered_row row.now)) }
    ensures made { bank.new.made ≤ bank.old.made + row_nodes row.now }
    ensures extends { Extends bank.old bank.new }
    ensures belongs { IfOk result (λ r. All (Belongs bank.new) (row_terms r)) }
{
    renumbered_from(alloc, bank, syms, 1, row)
}

/// The canonical row: the row simplified, and then its variables numbered 1, 2, 3 .. in the order in
/// which they first occur, in the formula and then in the output, each with its sort. None exactly where
/// the simplified row passes the limit of a row, and then nothing is made.
///
/// Two simplified rows are variants, one the other up to the names of variables, exactly where their
/// canonical rows are one; so a row that was derived before is found again by its canonical row. This
/// and more is the record `CanonicalLaws`. A variable, or a part of a term whose variables all keep
/// their numbers, is handed on; the bank makes the other nodes of terms, so no more than the canonical
/// row has nodes. The work grows with the number of nodes times the depth and the number of variables.
/// The one error is `NoMemory`.
#[tactic(auto, using(crate::proofs::Ends::canonical_rules))]
pub fn canonical(
    alloc: Global,
    bank: &mut Bank,
    syms: &Symbols,
    row: &Row,
) -> Result<Option<Row>, NoMemory>
    requires plain { IsPlain syms.now row.now }
    requires own { All (Belongs bank.old) (row_terms row.now) }
    ensures row { IfOk result (λ o. MatchOption o (¬ (IsWithinRow (simplified_row row.now))) (λ q. IsWithinRow (simplified_row row.now) × (bare_row q ≡ bare_row (canonical_row row.now)))) }
    ensures none { IfOk result (λ o. IfNone o (bank.new ≡ bank.old)) }
    ensures made { IfOk result (λ o. IfSome o (λ q. bank.new.made ≤ bank.old.made + row_nodes q)) }
    ensures extends { Extends bank.old bank.new }
    ensures belongs { IfOk result (λ o. IfSome o (λ q. All (Belongs bank.new) (row_terms q))) }
    ensures plain { IfOk result (λ o. IfSome o (IsPlain syms.now)) }
    ensures simplified { IfOk result (λ o. IfSome o IsSimplified) }
    ensures within { IfOk result (λ o. IfSome o IsWithinRow) }
    ensures laws { CanonicalLaws }
{
    let row = simplified(alloc, row)?;
    if !is_within(&row) {
        drop(row);
        return Ok(None);
    }
    let made = renumber(alloc, bank, syms, &row);
    drop(row);
    match made {
        Ok(row) => Ok(Some(row)),
        Err(error) => Err(error),
    }
}

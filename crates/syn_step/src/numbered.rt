// Rows by their numbers.
ghost use Rattle.std.specs.Prelude.{◌≡◌, MatchOption, Some};
ghost use Rattle.std.specs.Option.{option_copied};
ghost use Rattle.syn_row.specs.Rows.{RowTree};
ghost use Rattle.syn_step.specs.Steps as steps;

use sqlite_items::at;
use syn_row::Row;

/// The row with this number, counted from 1; None exactly where there is none.
pub(crate) fn row_at(rows: &[Row], n: u32) -> Option<&Row>
    ensures { option_copied result ≡ steps.row_at rows.now n }
{
    match n.checked_sub(1) {
        None => None,
        Some(index) => at(rows, index as usize),
    }
}

/// The rows with these two numbers; None exactly where one of them isn't there.
pub(crate) fn rows_at(rows: &[Row], n: u32, m: u32) -> Option<(&Row, &Row)>
    ensures { MatchOption result ((r s : RowTree) → steps.row_at rows.now n ≡ Some r → steps.row_at rows.now m ≡ Some s → ⊥) (λ p. (steps.row_at rows.now n ≡ Some p.0.now) × (steps.row_at rows.now m ≡ Some p.1.now)) }
{
    match row_at(rows, n) {
        None => None,
        Some(first) => match row_at(rows, m) {
            None => None,
            Some(second) => Some((first, second)),
        },
    }
}

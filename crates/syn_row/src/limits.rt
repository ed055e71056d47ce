// The limit of a row.
ghost use Rattle.std.specs.Prelude.{◌↔◌, ◌≤◌, IsTrue};
ghost use Rattle.syn_row.specs.Rows.{IsWithinRow, row_depth, row_limit, row_nodes};

use crate::rows::Row;

/// The number of nodes that a row may have, formula and output together.
pub const ROW_NODES: u32 = 4096;

/// How deep a row may be: formula and output each.
pub const ROW_DEPTH: u32 = 1200;

/// Whether the row is within the limit of a row: formula and output have 4,096 nodes or fewer
/// together, and neither is deeper than 1,200.
pub fn is_within(row: &Row) -> bool
    ensures { IsTrue result ↔ IsWithinRow row.now }
{
    if !has_few_nodes(row) {
        return false;
    }
    is_shallow(row)
}

/// Whether formula and output have few enough nodes together.
fn has_few_nodes(row: &Row) -> bool
    ensures { IsTrue result ↔ (row_nodes row.now ≤ row_limit.nodes) }
{
    let formula = row.form.size(ROW_NODES);
    match &row.out {
        None => formula <= u64::from(ROW_NODES),
        Some(out) => formula + out.size(ROW_NODES) <= u64::from(ROW_NODES),
    }
}

/// Whether neither the formula nor the output is too deep.
fn is_shallow(row: &Row) -> bool
    ensures { IsTrue result ↔ (row_depth row.now ≤ row_limit.depth) }
{
    let formula = row.form.depth(ROW_DEPTH);
    match &row.out {
        None => formula <= u64::from(ROW_DEPTH),
        Some(out) => formula.max(out.depth(ROW_DEPTH)) <= u64::from(ROW_DEPTH),
    }
}

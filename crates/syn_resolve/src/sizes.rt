// Whether two rows together have few enough nodes for a step.
ghost use Rattle.std.specs.Prelude.{◌≡◌, ◌+◌, ◌≤◌, ◌↔◌, IsTrue, min};
ghost use Rattle.std.specs.Option.{option_map_or};
ghost use Rattle.syn_form.specs.Trees.{form_nodes, out_nodes};
ghost use Rattle.syn_row.specs.Results.{most_step_nodes};
ghost use Rattle.syn_row.specs.Rows.{row_nodes};

use syn_form::Out;
use syn_row::{Row, STEP_NODES};

/// The number of nodes of the output, none where there is none, or one more than a step may have where there are more.
fn output_size(out: &Option<Out>) -> u64
    ensures { result ≡ min (option_map_or out_nodes out.now 0) (most_step_nodes + 1) }
{
    match out {
        None => 0,
        Some(out) => out.size(STEP_NODES),
    }
}

/// The same of the formula and the output, added up.
fn counted(row: &Row) -> u64
    ensures { result ≡ min (form_nodes (row.now).form) (most_step_nodes + 1) + min (option_map_or out_nodes (row.now).out 0) (most_step_nodes + 1) }
{
    row.form.size(STEP_NODES) + output_size(&row.out)
}

/// Whether the two rows together have 65,536 nodes or fewer. It stops counting where one of their parts has more.
pub(crate) fn are_small(r: &Row, s: &Row) -> bool
    ensures { IsTrue result ↔ (row_nodes r.now + row_nodes s.now ≤ most_step_nodes) }
{
    counted(r) + counted(s) <= u64::from(STEP_NODES)
}

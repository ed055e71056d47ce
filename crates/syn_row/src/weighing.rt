// Whether a step is light: the instances of the parents and the guards have few enough nodes together, and none is too deep.
ghost use Rattle.std.specs.Prelude.{◌≡◌, ◌≤◌, ◌<◌, ◌↔◌, ◌+◌, ◌++◌, map, sum, All, IsTrue, MatchOption};
ghost use Rattle.syn_form.specs.Trees.{form_depth, form_nodes, out_depth, out_nodes};
ghost use Rattle.syn_row.specs.Results.{IsLight, most_step_depth, most_step_nodes, rows_nodes};

use syn_form::{Form, Out};

/// The number of nodes that a step may have, its guards among them.
pub const STEP_NODES: u32 = 65_536;

/// How deep each formula and output of a step, and each of its guards, may be.
pub const STEP_DEPTH: u32 = 2_400;

/// How many nodes are left beside the formulas, where so many are; None where they don't fit.
fn left_by_forms(forms: &[Form], room: u32) -> Option<u32>
    ensures { MatchOption result (room < sum (map form_nodes forms.now)) (λ left. sum (map form_nodes forms.now) + left ≡ room) }
{
    match forms {
        [] => Some(room),
        [first, rest @ ..] => {
            let size = first.size(room);
            if size > u64::from(room) {
                return None;
            }
            left_by_forms(rest, room - size as u32)
        }
    }
}

/// The same of outputs.
fn left_by_outs(outs: &[Out], room: u32) -> Option<u32>
    ensures { MatchOption result (room < sum (map out_nodes outs.now)) (λ left. sum (map out_nodes outs.now) + left ≡ room) }
{
    match outs {
        [] => Some(room),
        [first, rest @ ..] => {
            let size = first.size(room);
            if size > u64::from(room) {
                return None;
            }
            left_by_outs(rest, room - size as u32)
        }
    }
}

/// Whether formulas, outputs and guards have few enough nodes together. It stops counting where they don't.
fn has_few_nodes(forms: &[Form], outs: &[Out], guards: &[Form]) -> bool
    ensures { IsTrue result ↔ (rows_nodes (forms.now ++ guards.now) outs.now ≤ most_step_nodes) }
{
    match left_by_forms(forms, STEP_NODES) {
        None => false,
        Some(left) => match left_by_forms(guards, left) {
            None => false,
            Some(left) => left_by_outs(outs, left).is_some(),
        },
    }
}

/// Whether the formula isn't too deep.
fn is_shallow(f: &Form) -> bool
    ensures { IsTrue result ↔ (form_depth f.now ≤ most_step_depth) }
{
    f.depth(STEP_DEPTH) <= u64::from(STEP_DEPTH)
}

/// Whether none of the formulas is too deep.
fn are_shallow(forms: &[Form]) -> bool
    ensures { IsTrue result ↔ All (λ f. form_depth f ≤ most_step_depth) forms.now }
{
    for f in forms {
        if !is_shallow(f) {
            return false;
        }
    }
    true
}

/// Whether the output isn't too deep.
fn is_shallow_out(o: &Out) -> bool
    ensures { IsTrue result ↔ (out_depth o.now ≤ most_step_depth) }
{
    o.depth(STEP_DEPTH) <= u64::from(STEP_DEPTH)
}

/// Whether none of the outputs is too deep.
fn are_shallow_outs(outs: &[Out]) -> bool
    ensures { IsTrue result ↔ All (λ o. out_depth o ≤ most_step_depth) outs.now }
{
    for o in outs {
        if !is_shallow_out(o) {
            return false;
        }
    }
    true
}

/// Whether a step is light: these formulas and outputs, the instances of the parents', and the guards have 65,536 nodes or
/// fewer together, and none of them is deeper than 2,400.
pub fn is_light(forms: &[Form], outs: &[Out], guards: &[Form]) -> bool
    ensures { IsTrue result ↔ IsLight forms.now outs.now guards.now }
{
    if !has_few_nodes(forms, outs, guards) {
        return false;
    }
    if !are_shallow(forms) {
        return false;
    }
    if !are_shallow(guards) {
        return false;
    }
    are_shallow_outs(outs)
}

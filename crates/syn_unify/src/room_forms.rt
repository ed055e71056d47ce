// Whether what comes of a formula or an output by a substitution is too large, found without making it.
ghost use Rattle.std.specs.Prelude.{◌≡◌, ◌+◌, map, max, sum};
ghost use Rattle.syn_term.specs.Terms.{depth_of, greatest, nodes};
ghost use Rattle.syn_form.specs.Substitutions.{image};
ghost use Rattle.syn_form.specs.Trees.{form_depth, form_nodes, out_depth, out_nodes};
ghost use Rattle.syn_unify.specs.inner.Changes.{seen, under};
ghost use Rattle.syn_unify.specs.inner.Forms.{form_under, out_under};
ghost use Rattle.syn_unify.specs.inner.Rooms.{HasRoom};

use crate::bindings::Bound;
use crate::room::{room_beside, room_beside_leaf, room_over};
use syn_form::{Form, Out};
use syn_term::Term;

/// How many more nodes fit beside what comes of the two terms, where so many fit and there is so much room below.
fn room_beside_terms(bound: &[Bound], s: &Term, t: &Term, size: u32, height: u32) -> Option<u32>
    ensures { HasRoom size height (nodes (under (image (seen bound.now)) s.now) + nodes (under (image (seen bound.now)) t.now)) (max (depth_of (under (image (seen bound.now)) s.now)) (depth_of (under (image (seen bound.now)) t.now))) result }
{
    match room_beside(bound, s, size, height) {
        None => None,
        Some(left) => room_beside(bound, t, left, height),
    }
}

/// The same for an equality of what comes of the two terms.
fn room_over_terms(bound: &[Bound], s: &Term, t: &Term, size: u32, height: u32) -> Option<u32>
    ensures { HasRoom size height (1 + (nodes (under (image (seen bound.now)) s.now) + nodes (under (image (seen bound.now)) t.now))) (1 + max (depth_of (under (image (seen bound.now)) s.now)) (depth_of (under (image (seen bound.now)) t.now))) result }
{
    if size == 0 {
        return None;
    }
    if height == 0 {
        return None;
    }
    room_beside_terms(bound, s, t, size - 1, height - 1)
}

/// The same for what comes of a formula.
#[cycle(forms)]
pub(crate) fn room_beside_form(bound: &[Bound], f: &Form, size: u32, height: u32) -> Option<u32>
    ensures { HasRoom size height (form_nodes (form_under (image (seen bound.now)) f.now)) (form_depth (form_under (image (seen bound.now)) f.now)) result }
{
    match f {
        Form::True => room_beside_leaf(size, height),
        Form::False => room_beside_leaf(size, height),
        Form::Atom(_, args) => room_over(bound, args.get().as_slice(), size, height),
        Form::Equal(s, t) => room_over_terms(bound, s, t, size, height),
        Form::Not(a) => room_over_form(bound, a.get(), size, height),
        Form::And(all) => room_over_forms(bound, all.get().as_slice(), size, height),
        Form::Or(all) => room_over_forms(bound, all.get().as_slice(), size, height),
        Form::Implies(a, b) => room_over_sides(bound, a.get(), b.get(), size, height),
    }
}

/// The same for a node over what comes of the formula.
#[cycle(forms)]
fn room_over_form(bound: &[Bound], a: &Form, size: u32, height: u32) -> Option<u32>
    ensures { HasRoom size height (1 + form_nodes (form_under (image (seen bound.now)) a.now)) (1 + form_depth (form_under (image (seen bound.now)) a.now)) result }
{
    if size == 0 {
        return None;
    }
    if height == 0 {
        return None;
    }
    room_beside_form(bound, a, size - 1, height - 1)
}

/// The same for a node over what comes of the two formulas.
#[cycle(forms)]
fn room_over_sides(bound: &[Bound], a: &Form, b: &Form, size: u32, height: u32) -> Option<u32>
    ensures { HasRoom size height (1 + (form_nodes (form_under (image (seen bound.now)) a.now) + form_nodes (form_under (image (seen bound.now)) b.now))) (1 + max (form_depth (form_under (image (seen bound.now)) a.now)) (form_depth (form_under (image (seen bound.now)) b.now))) result }
{
    if size == 0 {
        return None;
    }
    if height == 0 {
        return None;
    }
    room_beside_sides(bound, a, b, size - 1, height - 1)
}

/// The same for what comes of the two formulas.
#[cycle(forms)]
fn room_beside_sides(bound: &[Bound], a: &Form, b: &Form, size: u32, height: u32) -> Option<u32>
    ensures { HasRoom size height (form_nodes (form_under (image (seen bound.now)) a.now) + form_nodes (form_under (image (seen bound.now)) b.now)) (max (form_depth (form_under (image (seen bound.now)) a.now)) (form_depth (form_under (image (seen bound.now)) b.now))) result }
{
    match room_beside_form(bound, a, size, height) {
        None => None,
        Some(left) => room_beside_form(bound, b, left, height),
    }
}

/// The same for a node over what comes of the formulas.
#[cycle(forms)]
fn room_over_forms(bound: &[Bound], fs: &[Form], size: u32, height: u32) -> Option<u32>
    ensures { HasRoom size height (1 + sum (map form_nodes (map (form_under (image (seen bound.now))) fs.now))) (1 + greatest (map form_depth (map (form_under (image (seen bound.now))) fs.now))) result }
{
    if size == 0 {
        return None;
    }
    if height == 0 {
        return None;
    }
    room_beside_forms(bound, fs, size - 1, height - 1)
}

/// The same for what comes of all the formulas.
#[cycle(forms)]
fn room_beside_forms(bound: &[Bound], fs: &[Form], size: u32, height: u32) -> Option<u32>
    ensures { HasRoom size height (sum (map form_nodes (map (form_under (image (seen bound.now))) fs.now))) (greatest (map form_depth (map (form_under (image (seen bound.now))) fs.now))) result }
{
    let mut left = size;
    for f in fs {
        match room_beside_form(bound, f, left, height) {
            None => return None,
            Some(rest) => left = rest,
        }
    }
    Some(left)
}

/// The same for what comes of the two outputs.
#[cycle(outs)]
fn room_beside_arms(bound: &[Bound], u: &Out, v: &Out, size: u32, height: u32) -> Option<u32>
    ensures { HasRoom size height (out_nodes (out_under (image (seen bound.now)) u.now) + out_nodes (out_under (image (seen bound.now)) v.now)) (max (out_depth (out_under (image (seen bound.now)) u.now)) (out_depth (out_under (image (seen bound.now)) v.now))) result }
{
    match room_beside_out(bound, u, size, height) {
        None => None,
        Some(left) => room_beside_out(bound, v, left, height),
    }
}

/// The same for what comes of the formula and the two outputs.
#[cycle(outs)]
fn room_beside_parts(
    bound: &[Bound],
    f: &Form,
    u: &Out,
    v: &Out,
    size: u32,
    height: u32,
) -> Option<u32>
    ensures { HasRoom size height (form_nodes (form_under (image (seen bound.now)) f.now) + (out_nodes (out_under (image (seen bound.now)) u.now) + out_nodes (out_under (image (seen bound.now)) v.now))) (max (form_depth (form_under (image (seen bound.now)) f.now)) (max (out_depth (out_under (image (seen bound.now)) u.now)) (out_depth (out_under (image (seen bound.now)) v.now)))) result }
{
    match room_beside_form(bound, f, size, height) {
        None => None,
        Some(left) => room_beside_arms(bound, u, v, left, height),
    }
}

/// The same for the choice of what comes of the formula and the two outputs.
#[cycle(outs)]
fn room_over_parts(
    bound: &[Bound],
    f: &Form,
    u: &Out,
    v: &Out,
    size: u32,
    height: u32,
) -> Option<u32>
    ensures { HasRoom size height (1 + (form_nodes (form_under (image (seen bound.now)) f.now) + (out_nodes (out_under (image (seen bound.now)) u.now) + out_nodes (out_under (image (seen bound.now)) v.now)))) (1 + max (form_depth (form_under (image (seen bound.now)) f.now)) (max (out_depth (out_under (image (seen bound.now)) u.now)) (out_depth (out_under (image (seen bound.now)) v.now)))) result }
{
    if size == 0 {
        return None;
    }
    if height == 0 {
        return None;
    }
    room_beside_parts(bound, f, u, v, size - 1, height - 1)
}

/// The same for what comes of an output.
#[cycle(outs)]
pub(crate) fn room_beside_out(bound: &[Bound], o: &Out, size: u32, height: u32) -> Option<u32>
    ensures { HasRoom size height (out_nodes (out_under (image (seen bound.now)) o.now)) (out_depth (out_under (image (seen bound.now)) o.now)) result }
{
    match o {
        Out::Give(t) => room_beside(bound, t, size, height),
        Out::If(f, u, v) => room_over_parts(bound, f.get(), u.get(), v.get(), size, height),
    }
}

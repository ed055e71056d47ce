// Whether what comes of a tree by a substitution is too large, found without making it.
ghost use Rattle.std.specs.Prelude.{◌≡◌, ◌+◌, map, sum};
ghost use Rattle.syn_term.specs.Terms.{depth_of, greatest, nodes};
ghost use Rattle.syn_unify.specs.inner.Changes.{seen, under};
ghost use Rattle.syn_unify.specs.inner.Rooms.{HasRoom};
ghost use Rattle.syn_form.specs.Substitutions.{image};

use crate::bindings::{Bound, bound_term};
use syn_term::{Node, Term};

/// How many more nodes fit beside one leaf, where so many fit and there is so much room below.
pub(crate) fn room_beside_leaf(size: u32, height: u32) -> Option<u32>
    ensures { HasRoom size height 1 1 result }
{
    if size == 0 {
        return None;
    }
    if height == 0 {
        return None;
    }
    Some(size - 1)
}

/// The same for a term that a variable is bound to.
fn room_beside_image(t: &Term, size: u32, height: u32) -> Option<u32>
    ensures { HasRoom size height (nodes t.now) (depth_of t.now) result }
{
    if t.depth(height) > u64::from(height) {
        return None;
    }
    let nodes = t.size(size);
    if nodes > u64::from(size) {
        return None;
    }
    Some(size - nodes as u32)
}

/// The same for what comes of a term.
#[cycle(room)]
pub(crate) fn room_beside(bound: &[Bound], t: &Term, size: u32, height: u32) -> Option<u32>
    ensures { HasRoom size height (nodes (under (image (seen bound.now)) t.now)) (depth_of (under (image (seen bound.now)) t.now)) result }
{
    match t.get() {
        Node::Var(_, v) => match bound_term(bound, *v) {
            Some(image) => room_beside_image(image, size, height),
            None => room_beside_leaf(size, height),
        },
        Node::App(_, _, args) => room_over(bound, args.as_slice(), size, height),
    }
}

/// The same for a node over what comes of the terms.
#[cycle(room)]
pub(crate) fn room_over(bound: &[Bound], ts: &[Term], size: u32, height: u32) -> Option<u32>
    ensures { HasRoom size height (1 + sum (map nodes (map (under (image (seen bound.now))) ts.now))) (1 + greatest (map depth_of (map (under (image (seen bound.now))) ts.now))) result }
{
    if size == 0 {
        return None;
    }
    if height == 0 {
        return None;
    }
    room_beside_all(bound, ts, size - 1, height - 1)
}

/// The same for what comes of all the terms.
#[cycle(room)]
fn room_beside_all(bound: &[Bound], ts: &[Term], size: u32, height: u32) -> Option<u32>
    ensures { HasRoom size height (sum (map nodes (map (under (image (seen bound.now))) ts.now))) (greatest (map depth_of (map (under (image (seen bound.now))) ts.now))) result }
{
    let mut left = size;
    for t in ts {
        match room_beside(bound, t, left, height) {
            None => return None,
            Some(rest) => left = rest,
        }
    }
    Some(left)
}

// Whether a value is of a sort. It calls itself for nested values alone.
ghost use Rattle.std.specs.Prelude.{◌≡◌, map};
ghost use Rattle.std.specs.List.{list_all};
ghost use Rattle.std.specs.Option.{option_copied};
ghost use Rattle.syn_term.specs.DeclaredSorts.{shape_of_sort};
ghost use Rattle.syn_value.specs.Values.{is_of_sort, parts_fit};
ghost use Rattle.syn_value.specs.inner.Nodes.{items, meaning};
ghost use Rattle.syn_value.specs.inner.Sorting.{is_number_shape, item_sort, part_sorts};

use crate::nodes::{Node, Seq};
use syn_term::{Shape, Sort, Symbols};

fn is_number_sort(syms: &Symbols, sort: Sort) -> bool
    ensures { result ≡ is_number_shape (shape_of_sort syms.now sort) }
{
    match syms.shape(sort) {
        Some(Shape::Nat) => true,
        _ => false,
    }
}

/// The sort of the items, where the sort is one of lists.
fn item_sort(syms: &Symbols, sort: Sort) -> Option<Sort>
    ensures { result ≡ item_sort (shape_of_sort syms.now sort) }
{
    match syms.shape(sort) {
        Some(Shape::List { item, .. }) => Some(*item),
        _ => None,
    }
}

/// The sorts of the parts, where the sort is one of tuples.
fn part_sorts(syms: &Symbols, sort: Sort) -> Option<&[Sort]>
    ensures { option_copied result ≡ part_sorts (shape_of_sort syms.now sort) }
{
    match syms.shape(sort) {
        Some(Shape::Tuple { parts, .. }) => Some(parts.as_slice()),
        _ => None,
    }
}

/// Whether the value is of the sort.
#[cycle(sorting)]
pub(crate) fn is_of_sort(syms: &Symbols, sort: Sort, node: &Node) -> bool
    ensures { result ≡ is_of_sort syms.now (meaning node.now) sort }
{
    match node {
        Node::Num(_) => is_number_sort(syms, sort),
        Node::List(seq) => match item_sort(syms, sort) {
            None => false,
            Some(item) => items_fit(syms, item, seq),
        },
        Node::Tuple(seq) => match part_sorts(syms, sort) {
            None => false,
            Some(sorts) => parts_fit(syms, sorts, seq),
        },
    }
}

#[cycle(sorting)]
fn items_fit(syms: &Symbols, item: Sort, seq: &Seq) -> bool
    ensures { result ≡ list_all (λ v. is_of_sort syms.now v item) (items seq.now) }
{
    let mut rest = seq;
    while let Seq::More(cell) = rest {
        if !is_of_sort(syms, item, &cell.get().item) {
            return false;
        }
        rest = &cell.get().rest;
    }
    true
}

#[cycle(sorting)]
#[tactic(auto, using(crate::proofs::SortCases::no_more))]
fn parts_fit(syms: &Symbols, sorts: &[Sort], seq: &Seq) -> bool
    ensures { result ≡ parts_fit (map (is_of_sort syms.now) (items seq.now)) sorts.now }
{
    let mut rest = seq;
    let mut i = 0;
    loop {
        match rest.parts() {
            None => return i == sorts.len(),
            Some((part, next)) => {
                if i >= sorts.len() {
                    return false;
                }
                if !is_of_sort(syms, sorts[i], part) {
                    return false;
                }
                i += 1;
                rest = next;
            }
        }
    }
}

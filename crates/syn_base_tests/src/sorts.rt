// Declared sorts: lists and tuples that a table takes, and what it shows of them.
use std::alloc::Global;
use std::process::Abort;
use std::test::Fail;
use syn_cases::{cut, sort_of, sorts_of};
use syn_term::{Shape, Sort, Symbols, decimal_number};

/// One walk over one table: a name and two makers, the sort of the items, and the sort that is
/// declared.
const LISTS: &str = "\
nat nil cons : nat => no
l l cons : nat => no
l nil nil : nat => no
l nil cons : 0 => no
nats nil cons : nat => 0
nats none more : nat => no
rows nil more : 0 => no
rows none more : 0 => 1";

/// The same for tuples. The default terms of quad, big and full have 5, 21 and 64 nodes.
const TUPLES: &str = "\
quad q : nat => no
quad q : nat nat nat nat nat => no
quad quad : nat nat nat nat => no
quad q : nat nat nat 0 => no
quad q : nat nat nat nat => 0
big b : 0 0 0 0 => 1
full f : 1 1 1 nat => no
full f : 1 1 1 => 2
other q : nat nat => no";

fn list(table: &mut Symbols, line: &str) -> Result<Option<Sort>, Fail> {
    let (names, item) = cut(line, " : ");
    let (name, makers) = cut(names, " ");
    let (nil, cons) = cut(makers, " ");
    Ok(table.add_list(name, nil, cons, sort_of(item))?)
}

fn tuple(alloc: Global, table: &mut Symbols, line: &str) -> Result<Option<Sort>, Fail> {
    let (names, parts) = cut(line, " : ");
    let (name, make) = cut(names, " ");
    Ok(table.add_tuple(name, make, sorts_of(alloc, parts)?.as_slice())?)
}

fn declare_lists(rt: &impl Abort, table: &mut Symbols) -> Result<(), Fail> {
    for row in LISTS.lines() {
        let (line, number) = cut(row, " => ");
        let got = list(table, line)?;
        assert!(rt; got == decimal_number(number).map(Sort::Named), "at {line}");
    }
    Ok(())
}

#[test]
fn declares_lists(rt: HostRuntime) -> Result<(), Fail> {
    let mut table = Symbols::new(rt.alloc())?;
    declare_lists(&rt, &mut table)?;
    assert!(rt; table.find_sort("rows") == Some(Sort::Named(1)));
    Ok(())
}

fn declare_tuples(rt: &impl Abort, alloc: Global, table: &mut Symbols) -> Result<(), Fail> {
    for row in TUPLES.lines() {
        let (line, number) = cut(row, " => ");
        let got = tuple(alloc, table, line)?;
        assert!(rt; got == decimal_number(number).map(Sort::Named), "at {line}");
    }
    Ok(())
}

#[test]
fn declares_tuples(rt: HostRuntime) -> Result<(), Fail> {
    let mut table = Symbols::new(rt.alloc())?;
    declare_tuples(&rt, rt.alloc(), &mut table)
}

fn show_sorts(rt: &impl Abort, table: &Symbols) {
    assert!(rt; table.find_sort("nat") == Some(Sort::Nat));
    assert!(rt; table.find_sort("nats") == None);
    assert!(rt; table.sort_name(Sort::Nat) == Some("nat"));
    assert!(rt; matches!(table.shape(Sort::Nat), Some(Shape::Nat)));
    assert!(rt; table.shape(Sort::Named(0)).is_none());
}

#[test]
fn shows_sorts(rt: HostRuntime) -> Result<(), Fail> {
    let table = Symbols::new(rt.alloc())?;
    show_sorts(&rt, &table);
    Ok(())
}

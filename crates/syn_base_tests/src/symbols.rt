// The table of symbols: which symbols it takes, under which numbers it finds them, and a copy of it.
use std::alloc::Global;
use std::process::Abort;
use std::test::Fail;
use syn_cases::{cut, kind_of, sort_of, sorts_of};
use syn_term::{Kind, Sort, Sym, SymId, Symbols, Text, decimal_number};

/// One walk over one table: the kind, the name, the arguments, the result, and the number that the
/// symbol is given.
const ADDED: &str = "\
skolem !gap.1 : : nat => 2
skolem !gap.0 : : nat => no
skolem gap : : nat => no
succ y : nat : nat => no
cons c : nat : nat => no
rel le : nat : nat => no
rel le : nat nat : => 3
fun le : : nat => no
fun f : 0 : nat => no
fun f : nat : => no
fun nat : nat : nat => no
fun f : nat nat : nat => 4
order before : nat nat : => 5
input x : nat : nat => no
input x : : nat => 6
input x : : nat => no
program gap : nat : nat => 7";

/// The symbol of a line.
fn symbol(alloc: Global, kind: &str, name: &str, args: &str, value: &str) -> Result<Sym, Fail> {
    let value = value.trim_ascii();
    Ok(Sym {
        name: Text::from_str(alloc, name)?,
        kind: kind_of(kind),
        args: sorts_of(alloc, args)?,
        result: if value.is_empty() {
            None
        } else {
            Some(sort_of(value))
        },
    })
}

/// What the table answers to the symbol of a line.
fn answer(alloc: Global, table: &mut Symbols, line: &str) -> Result<Option<SymId>, Fail> {
    let (head, rest) = cut(line, " :");
    let (kind, name) = cut(head, " ");
    let (args, result) = cut(rest, " :");
    Ok(table.add(symbol(alloc, kind, name, args, result)?)?)
}

fn walk(rt: &impl Abort, alloc: Global, table: &mut Symbols) -> Result<(), Fail> {
    for row in ADDED.lines() {
        let (line, number) = cut(row, " => ");
        let got = answer(alloc, table, line)?;
        assert!(rt; got == decimal_number(number).map(SymId), "at {line}");
    }
    Ok(())
}

/// The table finds the symbol of the name under its number.
fn find_symbols(rt: &impl Abort, table: &Symbols) {
    assert!(rt; table.find("0") == Some(SymId(0)));
    assert!(rt; table.find("s") == Some(SymId(1)));
    assert!(rt; table.find("!gap.1") == Some(SymId(2)));
    assert!(rt; table.find("x") == Some(SymId(6)));
    assert!(rt; table.find("y") == None);
    assert!(rt; table.get(SymId(8)).is_none());
}

#[test]
fn adds_what_may_be_added(rt: HostRuntime) -> Result<(), Fail> {
    let mut table = Symbols::new(rt.alloc())?;
    walk(&rt, rt.alloc(), &mut table)?;
    find_symbols(&rt, &table);
    Ok(())
}

/// What is found in the table is found in its copy.
fn are_alike(rt: &impl Abort, table: &Symbols, copy: &Symbols) {
    for name in "0 s le f before x gap nil more both y".split(' ') {
        assert!(rt; copy.find(name) == table.find(name), "at {name}");
    }
    for name in "nat nats pair pairs".split(' ') {
        assert!(rt; copy.find_sort(name) == table.find_sort(name), "at {name}");
    }
    assert!(rt; matches!(copy.get(SymId(3)), Some(sym) if sym.kind == Kind::Rel));
}

/// A symbol more in the copy is none in the table.
fn copy_table(rt: &impl Abort, alloc: Global, table: &Symbols) -> Result<(), Fail> {
    let mut copy = table.copy(alloc)?;
    are_alike(rt, table, &copy);
    assert!(rt; answer(alloc, &mut copy, "input z : : nat")? == Some(SymId(11)));
    assert!(rt; table.find("z") == None);
    Ok(())
}

#[test]
fn copies_a_table(rt: HostRuntime) -> Result<(), Fail> {
    let mut table = Symbols::new(rt.alloc())?;
    walk(&rt, rt.alloc(), &mut table)?;
    table.add_list("nats", "nil", "more", Sort::Nat)?;
    table.add_tuple("pair", "both", &[Sort::Nat, Sort::Named(0)])?;
    copy_table(&rt, rt.alloc(), &table)
}

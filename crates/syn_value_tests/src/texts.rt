// Texts that are read as values of a sort, each printed again, and texts that are none.
ghost use Rattle.std.specs.Prelude.{IsTrue};
ghost use Rattle.syn_term.specs.Symbols.{IsSort};

use std::alloc::Global;
use std::process::Abort;
use std::test::Fail;
use syn_cases::{cut, sort_of, sorts_of};
use syn_term::{Bank, Sort, Symbols, decimal_number};
use syn_value::{Value, ValueError, default_of, default_term, print_value, read_value};

/// The sorts of the tables, by their numbers: a list sort is written with its items' sort, and a tuple
/// sort with its parts'.
const SORTS: &str = "\
list nat
tuple nat 0
list 0
tuple nat nat
list 3
tuple 1 1";

/// A sort, a text, and what the value prints as; nothing where the text is no value of the sort.
const TEXTS: &str = "\
nat|0 => 0
nat|5 => 5
nat|1000000 => 1000000
nat|007 =>
nat|00 =>
nat|1000001 =>
nat|9999999 =>
nat|18446744073709551616 =>
nat| 5 =>
nat|5  =>
nat| =>
nat|5 5 =>
nat|1# =>
nat|-1 =>
nat|+1 =>
nat|a =>
nat|[] =>
nat|(1,2) =>
0|[] => []
0|[ ] => []
0| [] =>
0|[]  =>
0|[0] => [0]
0|[ 1 ,\t2 ] => [1,2]
0|[1,2,3] => [1,2,3]
0|[ =>
0|] =>
0|[1,] =>
0|[,1] =>
0|[1,,2] =>
0|[1 2] =>
0|[1] ] =>
0|[[] =>
0|[]] =>
0|[(] =>
0|[1) =>
0|(1,2) =>
0|[01] =>
0|[[1]] =>
0|5 =>
1|(1,[2,3]) => (1,[2,3])
1|( 1 , [ 2 , 3 ] ) => (1,[2,3])
1|(1,[]) => (1,[])
1|(1) =>
1|() =>
1|(1,2,3) =>
1|(1,2) =>
1|([],1) =>
1|(1 [2]) =>
1|[1,[2]] =>
2|[[1],[],[2,3]] => [[1],[],[2,3]]
2|[1] =>
3|(1,2) => (1,2)
3|(1) =>
3|(1,2,3) =>
4|[(1,2),(3,4)] => [(1,2),(3,4)]
4|[(1,2),3] =>
5|((1,[]),(2,[3])) => ((1,[]),(2,[3]))
6|0 =>";

/// A sort, and its default value as it prints, with the number of nodes of its default term.
const DEFAULTS: &str = "\
nat => 0 1
0 => [] 1
1 => (0,[]) 3
2 => [] 1
3 => (0,0) 3
4 => [] 1
5 => ((0,[]),(0,[])) 7";

/// Two texts of the sort, and whether they are one value.
const PAIRS: &str = "\
nat|0|0 => yes
nat|0|1 => no
0|[]|[ ] => yes
0|[1,2]|[1, 2] => yes
0|[1,2]|[1,3] => no
0|[1,2]|[1] => no
0|[1]|[1,2] => no
0|[1,2]|[2,2] => no
1|(1,[2])|(1,[2]) => yes
1|(1,[2])|(2,[2]) => no
1|(1,[2])|(1,[]) => no
5|((1,[]),(2,[]))|((1,[]),(2,[])) => yes
5|((1,[]),(2,[]))|((2,[]),(1,[])) => no";

/// A sort for each line, whose names are its number behind a letter.
fn declared(
    alloc: Global,
    syms: &mut Symbols,
    name: &str,
    makers: &str,
    line: &str,
) -> Result<Option<Sort>, Fail> {
    let (first, second) = cut(makers, " ");
    let (kind, sorts) = cut(line, " ");
    if kind == "list" {
        Ok(syms.add_list(name, first, second, sort_of(sorts))?)
    } else {
        let parts = sorts_of(alloc, sorts)?;
        Ok(syms.add_tuple(name, first, parts.as_slice())?)
    }
}

/// Declares the next sort.
fn declare(alloc: Global, syms: &mut Symbols, number: usize, line: &str) -> Result<(), Fail> {
    let name = format!(in alloc; "s{number}")?;
    let makers = format!(in alloc; "f{number} g{number}")?;
    match declared(alloc, syms, name.as_str(), makers.as_str(), line)? {
        None => Err(Fail::new("no sort")),
        Some(_) => Ok(()),
    }
}

fn declare_all(alloc: Global, syms: &mut Symbols) -> Result<(), Fail> {
    for (number, line) in SORTS.lines().enumerate() {
        declare(alloc, syms, number, line)?;
    }
    Ok(())
}

fn table(alloc: Global) -> Result<Symbols, Fail> {
    let mut syms = Symbols::new(alloc)?;
    declare_all(alloc, &mut syms)?;
    Ok(syms)
}

/// What the text prints as, where it is a value of the sort, and else nothing.
fn printed(alloc: Global, syms: &Symbols, sort: Sort, text: &str) -> Result<String, Fail> {
    match read_value(alloc, syms, sort, text) {
        Ok(value) => Ok(print_value(alloc, &value)?),
        Err(ValueError::BadValue) => Ok(String::new(alloc)),
        Err(ValueError::NoMemory) => Err(Fail::new("no memory")),
    }
}

fn read_and_print(rt: &impl Abort, alloc: Global, syms: &Symbols) -> Result<(), Fail> {
    for row in TEXTS.lines() {
        let (line, wanted) = cut(row, " =>");
        let (sort, text) = cut(line, "|");
        let found = printed(alloc, syms, sort_of(sort), text)?;
        assert!(rt; found.as_str() == wanted.trim_start(), "at {line}");
    }
    Ok(())
}

#[test]
fn reads_and_prints(rt: HostRuntime) -> Result<(), Fail> {
    let syms = table(rt.alloc())?;
    read_and_print(&rt, rt.alloc(), &syms)
}

fn is_there(syms: &Symbols, sort: Sort) -> bool
    ensures { IsTrue result → IsSort syms.now sort }
{
    match syms.shape(sort) {
        None => false,
        Some(_) => true,
    }
}

/// The number of nodes of the default term.
fn nodes_of(alloc: Global, syms: &Symbols, sort: Sort) -> Result<u64, Fail>
    requires { IsSort syms.now sort }
{
    let term = default_term(alloc, &mut Bank::new(alloc), syms, sort)?;
    Ok(term.size(100))
}

/// The default value, as it prints.
fn default_text(alloc: Global, syms: &Symbols, sort: Sort) -> Result<String, Fail>
    requires { IsSort syms.now sort }
{
    let value = default_of(alloc, syms, sort)?;
    Ok(print_value(alloc, &value)?)
}

fn has_defaults(alloc: Global, syms: &Symbols, sort: Sort, wanted: &str) -> Result<bool, Fail> {
    if !is_there(syms, sort) {
        return Ok(false);
    }
    let nodes = nodes_of(alloc, syms, sort)?;
    let (value, size) = cut(wanted, " ");
    let text = default_text(alloc, syms, sort)?;
    Ok(text.as_str() == value && decimal_number(size).map(u64::from) == Some(nodes))
}

fn make_defaults(rt: &impl Abort, alloc: Global, syms: &Symbols) -> Result<(), Fail> {
    for row in DEFAULTS.lines() {
        let (sort, wanted) = cut(row, " => ");
        let right = has_defaults(alloc, syms, sort_of(sort), wanted)?;
        assert!(rt; right, "at {row}");
    }
    Ok(())
}

#[test]
fn makes_defaults(rt: HostRuntime) -> Result<(), Fail> {
    let syms = table(rt.alloc())?;
    make_defaults(&rt, rt.alloc(), &syms)
}

fn read(alloc: Global, syms: &Symbols, sort: Sort, text: &str) -> Result<Value, Fail> {
    match read_value(alloc, syms, sort, text) {
        Ok(value) => Ok(value),
        Err(_) => Err(Fail::new("no value")),
    }
}

fn is_value(
    alloc: Global,
    syms: &Symbols,
    sort: Sort,
    value: &Value,
    text: &str,
) -> Result<bool, Fail> {
    let other = read(alloc, syms, sort, text)?;
    Ok(value.same(&other))
}

fn are_same(alloc: Global, syms: &Symbols, line: &str) -> Result<bool, Fail> {
    let (sort, texts) = cut(line, "|");
    let (first, second) = cut(texts, "|");
    let value = read(alloc, syms, sort_of(sort), first)?;
    is_value(alloc, syms, sort_of(sort), &value, second)
}

fn compare(rt: &impl Abort, alloc: Global, syms: &Symbols) -> Result<(), Fail> {
    for row in PAIRS.lines() {
        let (line, wanted) = cut(row, " => ");
        let same = are_same(alloc, syms, line)?;
        assert!(rt; same == (wanted == "yes"), "at {line}");
    }
    Ok(())
}

#[test]
fn compares(rt: HostRuntime) -> Result<(), Fail> {
    let syms = table(rt.alloc())?;
    compare(&rt, rt.alloc(), &syms)
}

/// The first part, the second so many times, and the third.
fn repeated(
    alloc: Global,
    first: &str,
    second: &str,
    times: u32,
    third: &str,
) -> Result<String, Fail> {
    let mut text = String::from_str(alloc, first)?;
    for _ in 0..times {
        text.push_str(second)?;
    }
    text.push_str(third)?;
    Ok(text)
}

fn is_list(alloc: Global, syms: &Symbols, text: &str) -> bool {
    read_value(alloc, syms, Sort::Named(0), text).is_ok()
}

/// The same as a value.
fn is_repeated_list(
    alloc: Global,
    syms: &Symbols,
    first: &str,
    second: &str,
    times: u32,
) -> Result<bool, Fail> {
    let text = repeated(alloc, first, second, times, "]")?;
    Ok(is_list(alloc, syms, text.as_str()))
}

fn keep_to_limits(rt: &impl Abort, alloc: Global, syms: &Symbols) -> Result<(), Fail> {
    assert!(rt; is_repeated_list(alloc, syms, "[0", ",0", 9_999)?);
    assert!(rt; !is_repeated_list(alloc, syms, "[0", ",0", 10_000)?);
    assert!(rt; is_repeated_list(alloc, syms, "[0", " ", 100_000)?);
    for part in "[/]/0/9/,/ ".split('/') {
        assert!(rt;
            !is_repeated_list(alloc, syms, "", part, 1_000_000)?,
            "at {part}"
        );
    }
    Ok(())
}

#[test]
fn keeps_to_its_limits(rt: HostRuntime) -> Result<(), Fail> {
    let syms = table(rt.alloc())?;
    keep_to_limits(&rt, rt.alloc(), &syms)
}

// Texts that are read, each printed again, and texts that are refused: a table for files and one for
// rows, and texts about the limits.
ghost use Rattle.syn_expr.specs.Scopes.{LeavesNumbersToBinders, spoken};

use std::alloc::Global;
use std::process::Abort;
use std::test::Fail;
use syn_cases::{added, cut};
use syn_expr::{
    ExprError, Scope, print_form, print_out, print_qform, print_term, read_body, read_form,
    read_out, read_qform, read_term,
};
use syn_term::{Bank, Kind, Sort, Symbols, Var};

const NAT: Sort = Sort::Nat;

/// What is read in a file, where `n` is a variable: a kind, a text, and what the tree prints as;
/// nothing where the text is refused.
const IN_FILES: &str = "\
term  dbl( n ) # twice => dbl(n)
term cons(a, nil) => cons(a, nil)
term s(s(n)) => s(s(n))
term s(3) => 4
term s(1000) => s(1000)
term a = b =>
term nat =>
term s =>
term dbl =>
term dbl() =>
term dbl(a, b) =>
term le(a, b) =>
term (a) =>
term a b =>
term a | b =>
term  =>
form le(1000, 1000) => le(1000, 1000)
form not a = b => not a = b
form not not true => not not true
form true and false or true => (true and false) or true
form true -> false or true and not false => true -> (false or (true and not false))
form true and false and (true and true) => true and false and (true and true)
form (true -> true) -> false => (true -> true) -> false
form true <-> true -> false => (true -> (true -> false)) and ((true -> false) -> true)
form le(a, b) -> a = b -> b = a => le(a, b) -> (a = b -> b = a)
form a = b <-> true => (a = b -> true) and (true -> a = b)
form le(1001, 1) =>
form a = b = a =>
form a = nil =>
form le(a, nil) =>
form ?1 = a =>
form !gap.1(a) = a =>
form true and =>
form (true =>
form true) =>
form () =>
form a =>
form le =>
form all =>
form a = b <-> b = a <-> a = a =>
out if a = 0 then b else if b = 0 then a else 0 => if a = 0 then b else if b = 0 then a else 0
out a => a
out if a = 0 then if b = 0 then a else b else 0 => if a = 0 then if b = 0 then a else b else 0
out if not (a = 0 and b = 0) then a else b => if not (a = 0 and b = 0) then a else b
out a = 0 =>
out if a = 0 then a =>
out if a = 0 then a else b else a =>
out if (a = 0 then a else b =>
out if then a else b =>
out (a) =>
out if a = 0 then b else nil =>
out if all x: nat. x = x then b else a =>
qform all x: nat, y: nat. x = y -> y = x => all x: nat. (all y: nat. (x = y -> y = x))
qform (all x: nat. x = x) and (all x: nat. x = x) => (all x: nat. x = x) and (all x: nat. x = x)
qform all x: list. x = nil => all x: list. x = nil
qform all x: nat. some y: list. true <-> false => all x: nat. (some y: list. ((true -> false) and (false -> true)))
qform le(a, b) and (all x: nat. x = a) => le(a, b) and (all x: nat. x = a)
qform all x: nat. x = n => all x: nat. x = n
qform all x: nat. (some x: nat. x = x) =>
qform all a: nat. a = a =>
qform all n: nat. n = n =>
qform all list: nat. list = list =>
qform all x: other. x = x =>
qform all x: nat. y = x =>
qform true and all x: nat. x = x =>
qform not all x: nat. x = x =>
qform true <-> all x: nat. x = x =>
qform dbl(all x: nat. a) = a =>
qform all x. x = x =>
qform all x: nat, . x = x =>";

/// What is read in rows.
const IN_ROWS: &str = "\
form !gap.1(?1) = ?2 => !gap.1(?1) = ?2
form ?1:list = nil => ?1:list = nil
form ?1 = dbl(?1) # a row => ?1 = dbl(?1)
form ?1 = a and ?1:list = nil =>
form true <-> true =>
form n = a =>
form ?0 = a =>
form ?1 :list = nil =>
form !gap.2(?1) = ?2 =>";

/// A table with lists of numbers, a relation, a function, two inputs and a Skolem symbol.
fn make_table(alloc: Global) -> Result<Symbols, Fail> {
    let mut syms = Symbols::new(alloc)?;
    if syms.add_list("list", "nil", "cons", NAT)?.is_none() {
        return Err(Fail::new("no sort"));
    }
    added(alloc, &mut syms, "le", Kind::Rel, &[NAT, NAT], None)?;
    added(alloc, &mut syms, "dbl", Kind::Fun, &[NAT], Some(NAT))?;
    added(alloc, &mut syms, "a", Kind::Input, &[], Some(NAT))?;
    added(alloc, &mut syms, "b", Kind::Input, &[], Some(NAT))?;
    added(alloc, &mut syms, "!gap.1", Kind::Skolem, &[NAT], Some(NAT))?;
    Ok(syms)
}

/// The text of a tree that was read; nothing where the text was refused.
fn text_of(read: Result<String, ExprError>, alloc: Global) -> Result<String, Fail> {
    match read {
        Ok(text) => Ok(text),
        Err(ExprError::Refused) => Ok(String::new(alloc)),
        Err(ExprError::NoMemory) => Err(Fail::new("no memory")),
    }
}

fn term_again(alloc: Global, scope: &Scope, text: &str) -> Result<String, ExprError> {
    let tree = read_term(alloc, &mut Bank::new(alloc), scope, text)?;
    Ok(print_term(alloc, scope, &tree)?)
}

fn form_again(alloc: Global, scope: &Scope, text: &str) -> Result<String, ExprError> {
    let tree = read_form(alloc, &mut Bank::new(alloc), scope, text)?;
    Ok(print_form(alloc, scope, &tree)?)
}

fn qform_again(alloc: Global, scope: &Scope, text: &str) -> Result<String, ExprError>
    requires { LeavesNumbersToBinders (spoken scope.now) }
{
    let tree = read_qform(alloc, &mut Bank::new(alloc), scope, text)?;
    Ok(print_qform(alloc, scope, &tree)?)
}

fn out_again(alloc: Global, scope: &Scope, text: &str) -> Result<String, ExprError> {
    let tree = read_out(alloc, &mut Bank::new(alloc), scope, text)?;
    Ok(print_out(alloc, scope, &tree)?)
}

fn body_again(alloc: Global, scope: &Scope, text: &str) -> Result<String, ExprError> {
    let tree = read_body(alloc, &mut Bank::new(alloc), scope, text)?;
    Ok(print_out(alloc, scope, &tree)?)
}

/// The text as it is printed again, by the word for its kind.
fn again(alloc: Global, scope: &Scope, kind: &str, text: &str) -> Result<String, ExprError> {
    match kind {
        "term" => term_again(alloc, scope, text),
        "out" => out_again(alloc, scope, text),
        "body" => body_again(alloc, scope, text),
        _ => form_again(alloc, scope, text),
    }
}

/// In a file, where `n` is a variable.
fn in_file(alloc: Global, syms: &Symbols, kind: &str, text: &str) -> Result<String, Fail> {
    let var = Var {
        number: 0,
        sort: NAT,
    };
    let names = [(String::from_str(alloc, "n")?, var)];
    let scope = Scope {
        syms,
        names: &names,
        rows: false,
    };
    if kind == "qform" {
        text_of(qform_again(alloc, &scope, text), alloc)
    } else {
        text_of(again(alloc, &scope, kind, text), alloc)
    }
}

fn in_row(alloc: Global, syms: &Symbols, kind: &str, text: &str) -> Result<String, Fail> {
    let scope = Scope {
        syms,
        names: &[],
        rows: true,
    };
    text_of(again(alloc, &scope, kind, text), alloc)
}

/// In rows or in a file.
fn read_again(
    alloc: Global,
    syms: &Symbols,
    rows: bool,
    kind: &str,
    text: &str,
) -> Result<String, Fail> {
    if rows {
        in_row(alloc, syms, kind, text)
    } else {
        in_file(alloc, syms, kind, text)
    }
}

fn walk_over(
    rt: &impl Abort,
    alloc: Global,
    syms: &Symbols,
    rows: bool,
    table: &str,
) -> Result<(), Fail> {
    for line in table.lines() {
        let (case, want) = cut(line, " =>");
        let (kind, text) = cut(case, " ");
        let got = read_again(alloc, syms, rows, kind, text)?;
        assert_eq!(rt; got.as_str(), want.trim_ascii(), "at {text}");
    }
    Ok(())
}

/// Each text of the table is printed as the one beside it, or refused where there is none.
fn walk(rt: &impl Abort, alloc: Global, rows: bool, table: &str) -> Result<(), Fail> {
    let syms = make_table(alloc)?;
    walk_over(rt, alloc, &syms, rows, table)
}

#[test]
fn reads_in_files(rt: HostRuntime) -> Result<(), Fail> {
    walk(&rt, rt.alloc(), false, IN_FILES)
}

#[test]
fn reads_in_rows(rt: HostRuntime) -> Result<(), Fail> {
    walk(&rt, rt.alloc(), true, IN_ROWS)
}

/// Whether the text is read in a file.
fn is_read(alloc: Global, kind: &str, text: &str) -> Result<bool, Fail> {
    let syms = make_table(alloc)?;
    let got = in_file(alloc, &syms, kind, text)?;
    Ok(!got.is_empty())
}

/// Formulas with a line feed, each `/` one, between bars.
const FED: &str = "dbl(0) # x/= b|dbl(0) = b/|/dbl(0) = b|dbl(/0) = b|dbl(0) = b # x/";

/// The text with line feeds.
fn fed(alloc: Global, case: &str) -> Result<String, Fail> {
    let mut text = String::new(alloc);
    for c in case.chars() {
        text.push(if c == '/' { '\n' } else { c })?;
    }
    Ok(text)
}

fn is_fed_read(alloc: Global, case: &str) -> Result<bool, Fail> {
    let text = fed(alloc, case)?;
    is_read(alloc, "form", text.as_str())
}

/// A line feed stands nowhere in an expression, in a comment and behind one neither.
#[test]
fn refuses_line_feeds(rt: HostRuntime) -> Result<(), Fail> {
    for case in FED.split('|') {
        assert!(rt; !is_fed_read(rt.alloc(), case)?, "at {case}");
    }
    Ok(())
}

/// The text before, so many times, then `true`, then the text after, so many times.
fn round(alloc: Global, before: &str, after: &str, times: u32) -> Result<String, Fail> {
    let mut text = String::new(alloc);
    for _ in 0..times {
        text.push_str(before)?;
    }
    text.push_str("true")?;
    for _ in 0..times {
        text.push_str(after)?;
    }
    Ok(text)
}

fn is_round_read(alloc: Global, before: &str, after: &str, times: u32) -> Result<bool, Fail> {
    let text = round(alloc, before, after, times)?;
    is_read(alloc, "form", text.as_str())
}

#[test]
fn reads_up_to_the_limits(rt: HostRuntime) -> Result<(), Fail> {
    assert!(rt; is_round_read(rt.alloc(), "not ", "", 1_199)?);
    assert!(rt; !is_round_read(rt.alloc(), "not ", "", 1_200)?);
    assert!(rt; is_round_read(rt.alloc(), "true and ", "", 4_094)?);
    assert!(rt; !is_round_read(rt.alloc(), "true and ", "", 4_095)?);
    Ok(())
}

#[test]
fn reads_many_brackets(rt: HostRuntime) -> Result<(), Fail> {
    assert!(rt; is_round_read(rt.alloc(), "(", ")", 1_000_000)?);
    Ok(())
}

/// A choice whose test is a chain with so many members after the first.
fn choice(alloc: Global, more: u32) -> Result<String, Fail> {
    let mut text = String::from_str(alloc, "if ")?;
    for _ in 0..more {
        text.push_str("true and ")?;
    }
    text.push_str("true then a else b")?;
    Ok(text)
}

fn is_choice_read(alloc: Global, kind: &str, more: u32) -> Result<bool, Fail> {
    let text = choice(alloc, more)?;
    is_read(alloc, kind, text.as_str())
}

#[test]
fn reads_larger_bodies(rt: HostRuntime) -> Result<(), Fail> {
    assert!(rt; is_choice_read(rt.alloc(), "out", 4_091)?);
    assert!(rt; !is_choice_read(rt.alloc(), "out", 4_092)?);
    assert!(rt; is_choice_read(rt.alloc(), "body", 4_092)?);
    assert!(rt; is_choice_read(rt.alloc(), "body", 262_139)?);
    assert!(rt; !is_choice_read(rt.alloc(), "body", 262_140)?);
    Ok(())
}

/// Whether the text is refused by the bank.
fn is_refused(alloc: Global, bank: &mut Bank, syms: &Symbols, text: &str) -> bool {
    let scope = Scope {
        syms,
        names: &[],
        rows: false,
    };
    matches!(
        read_form(alloc, bank, &scope, text),
        Err(ExprError::Refused)
    )
}

fn refuse_at_once(rt: &impl Abort, alloc: Global, bank: &mut Bank, text: &str) -> Result<(), Fail> {
    let syms = make_table(alloc)?;
    assert!(rt; is_refused(alloc, bank, &syms, text));
    assert!(rt; bank.made() == 0);
    Ok(())
}

/// Twice as many nodes for each level: past the limit the line is refused at once, and nothing is
/// made.
#[test]
fn refuses_past_the_limit_at_once(rt: HostRuntime) -> Result<(), Fail> {
    let text = round(rt.alloc(), "(a = b <-> ", ")", 300)?;
    refuse_at_once(&rt, rt.alloc(), &mut Bank::new(rt.alloc()), text.as_str())
}

// Theories and specifications that are read and printed, and what is printed read again.
use crate::answers::theory_of;
use std::alloc::Global;
use std::process::Abort;
use std::test::Fail;
use syn_files::{print_spec, print_theory, read_spec};
use syn_model::Theory;
use syn_term::Bank;

/// Numbers with their order, as they are written, and as they are printed.
const BASICS: &str = "\
theory basics
fun p(nat): nat
clause p(0) = 0
clause p(s(x)) = x
fun dbl(nat): nat
clause dbl(0) = 0
clause dbl(s(x)) = s(s(dbl(x)))
rel le(nat, nat)
clause le(x, 0) <-> x = 0
clause le(x, s(y)) <-> x = s(y) or le(x, y)
rel lt(nat, nat)
clause lt(x, y) <-> le(s(x), y)
order below(x: nat) by x
axiom cases: all x: nat. x = 0 or x = s(p(x))
axiom down: all x: nat. x = 0 or below(p(x), x)
axiom refl: all x: nat. le(x, x)
axiom total: all x: nat, y: nat. le(x, y) or le(y, x)
axiom low: all x: nat. le(x, s(x))
axiom gap: not (all x: nat. le(x, 0))
mono trans: le up le 2
";

const BASICS_PRINTED: &str = "\
theory basics
fun p(nat): nat
clause p(0) = 0
clause p(s(x1)) = x1
fun dbl(nat): nat
clause dbl(0) = 0
clause dbl(s(x1)) = s(s(dbl(x1)))
rel le(nat, nat)
clause le(x1, 0) <-> x1 = 0
clause le(x1, s(x2)) <-> x1 = s(x2) or le(x1, x2)
rel lt(nat, nat)
clause lt(x1, x2) <-> le(s(x1), x2)
order below(x1: nat) by x1
axiom cases: all x: nat. (x = 0 or x = s(p(x)))
axiom down: all x: nat. (x = 0 or below(p(x), x))
axiom refl: all x: nat. le(x, x)
axiom total: all x: nat. (all y: nat. (le(x, y) or le(y, x)))
axiom low: all x: nat. le(x, s(x))
axiom gap: not (all x: nat. le(x, 0))
mono trans: le up le 2
";

/// Lists, as they are written, and as they are printed.
const LISTS: &str = "\
theory lists
sort L = nil | cons(nat, L)
fun head(L): nat
clause head(nil) = 0
clause head(cons(x, y)) = x
fun tail(L): L
clause tail(nil) = nil
clause tail(cons(x, y)) = y
fun app(L, L): L
clause app(nil, w) = w
clause app(cons(x, y), w) = cons(x, app(y, w))
fun len(L): nat
clause len(nil) = 0
clause len(cons(x, y)) = s(len(y))
order shorter(x: L, w: L) by len(x)
axiom listcases: all x: L. x = nil or x = cons(head(x), tail(x))
axiom taildown: all x: L, v: L, w: L. x = nil or shorter(tail(x), v, x, w)
";

const LISTS_PRINTED: &str = "\
theory lists
sort L = nil | cons(nat, L)
fun head(L): nat
clause head(nil) = 0
clause head(cons(x1, x2)) = x1
fun tail(L): L
clause tail(nil) = nil
clause tail(cons(x1, x2)) = x2
fun app(L, L): L
clause app(nil, x1) = x1
clause app(cons(x1, x2), x3) = cons(x1, app(x2, x3))
fun len(L): nat
clause len(nil) = 0
clause len(cons(x1, x2)) = s(len(x2))
order shorter(x1: L, x2: L) by len(x1)
axiom listcases: all x: L. (x = nil or x = cons(head(x), tail(x)))
axiom taildown: all x: L. (all v: L. (all w: L. (x = nil or shorter(tail(x), v, x, w))))
";

const LOOP: &str = "\
theory loop
rel r(nat)
clause r(x) <-> true
order below(x: nat) by x
axiom loose: all x: nat, y: nat, u: nat. below(x, y) or r(u)
";

const LOOP_PRINTED: &str = "\
theory loop
rel r(nat)
clause r(x1) <-> true
order below(x1: nat) by x1
axiom loose: all x: nat. (all y: nat. (all u: nat. (below(x, y) or r(u))))
";

const WIDE: &str = "\
theory wide
sort L = nil | cons(nat, L)
fun t(nat, nat): nat
clause t(x, y) = s(x)
";

const WIDE_PRINTED: &str = "\
theory wide
sort L = nil | cons(nat, L)
fun t(nat, nat): nat
clause t(x1, x2) = s(x1)
";

/// Tuples, and lines whose variables would get names that the theory declares, in the line itself, in an
/// earlier one or in a later one.
const MARKED: &str = "\
theory marked
sort P = pair(nat, nat)
fun x1(P): nat
clause x1(pair(a, b)) = a
fun g(nat, nat): nat
clause g(a, b) = if a = b and not b = 0 then 1000 else s(s(1000))
rel r(nat)
clause r(a) <-> a = 0
rel q(nat, nat)
clause q(a, b) <-> true
order w(a: P, b: nat) by b
axiom x1_2: some a: nat. true -> a = 1
mono m: q down s 1 q
";

const MARKED_PRINTED: &str = "\
theory marked
sort P = pair(nat, nat)
fun x1(P): nat
clause x1(pair(x2_1, x2_2)) = x2_1
fun g(nat, nat): nat
clause g(x2_1, x2_2) = if x2_1 = x2_2 and not x2_2 = 0 then 1000 else s(s(1000))
rel r(nat)
clause r(x1_1) <-> x1_1 = 0
rel q(nat, nat)
clause q(x2_1, x2_2) <-> true
order w(x2_1: P, x2_2: nat) by x2_2
axiom x1_2: some a: nat. (true -> a = 1)
mono m: q down s 1 q
";

/// The text that the theory of a text prints as.
fn printed_theory(alloc: Global, text: &str) -> Result<String, Fail> {
    let theory = theory_of(alloc, text)?;
    Ok(print_theory(alloc, &theory)?)
}

fn prints(rt: &impl Abort, alloc: Global, text: &str, want: &str) -> Result<(), Fail> {
    let printed = printed_theory(alloc, text)?;
    assert_eq!(rt; printed.as_str(), want);
    Ok(())
}

/// What is printed prints as itself.
fn prints_twice(rt: &impl Abort, alloc: Global, text: &str, want: &str) -> Result<(), Fail> {
    prints(rt, alloc, text, want)?;
    prints(rt, alloc, want, want)
}

#[test]
fn prints_theories(rt: HostRuntime) -> Result<(), Fail> {
    prints_twice(&rt, rt.alloc(), BASICS, BASICS_PRINTED)?;
    prints_twice(&rt, rt.alloc(), LISTS, LISTS_PRINTED)?;
    prints_twice(&rt, rt.alloc(), LOOP, LOOP_PRINTED)?;
    prints_twice(&rt, rt.alloc(), WIDE, WIDE_PRINTED)?;
    prints_twice(&rt, rt.alloc(), "theory empty\n", "theory empty\n")?;
    prints_twice(&rt, rt.alloc(), MARKED, MARKED_PRINTED)
}

/// Specifications over the numbers above, printed as they are written.
const SPECS: &str = "\
spec same
program same(a: nat): z: nat
ensures z = a
--
spec first
program first(a: nat, b: nat): z: nat
requires lt(0, b)
ensures z = a
--
spec max2
program max2(a: nat, b: nat): z: nat
ensures le(a, z) and le(b, z) and (z = a or z = b)
primitive le
use refl, total
--
spec twice
program twice(a: nat): z: nat
ensures z = dbl(a)
order below
primitive p
use cases, down, dbl
--
spec plain
program plain(a: nat): z: nat
ensures z = dbl(a)
--
spec over
program over(a: nat, b: nat): z: nat
requires le(a, b)
ensures le(a, z) and z = s(b)
--
spec gapped
program small(a: nat): z: nat
ensures not (all x: nat. le(x, z))
--
spec occ
program f(a: nat): z: nat
ensures le(z, z)
--
spec any
program any(a: nat): z: nat
requires false
ensures z = s(z)
";

/// The text that the specification of a text prints as.
fn printed_spec(alloc: Global, theory: &Theory, text: &str) -> Result<String, Fail> {
    match read_spec(alloc, &mut Bank::new(alloc), theory, text.as_bytes()) {
        Ok(spec) => Ok(print_spec(alloc, theory, &spec)?),
        Err(_) => Err(Fail::new("no specification")),
    }
}

fn prints_spec(
    rt: &impl Abort,
    alloc: Global,
    theory: &Theory,
    text: &str,
    want: &str,
) -> Result<(), Fail> {
    let printed = printed_spec(alloc, theory, text)?;
    assert_eq!(rt; printed.as_str(), want);
    Ok(())
}

fn print_specs(rt: &impl Abort, alloc: Global, theory: &Theory) -> Result<(), Fail> {
    for text in SPECS.split("--\n") {
        prints_spec(rt, alloc, theory, text, text)?;
    }
    Ok(())
}

#[test]
fn prints_specifications(rt: HostRuntime) -> Result<(), Fail> {
    let theory = theory_of(rt.alloc(), BASICS)?;
    print_specs(&rt, rt.alloc(), &theory)
}

/// The text with tabs for blanks, a comment and a carriage return behind each line, and a blank line between
/// any two.
fn dressed(alloc: Global, text: &str) -> Result<String, Fail> {
    let mut out = String::new(alloc);
    for c in text.chars() {
        match c {
            ' ' => out.push_str(" \t")?,
            '\n' => out.push_str("\t# (\r\n \r\n")?,
            other => out.push(other)?,
        }
    }
    Ok(out)
}

fn prints_dressed(rt: &impl Abort, alloc: Global, text: &str, want: &str) -> Result<(), Fail> {
    let dressed = dressed(alloc, text)?;
    prints(rt, alloc, dressed.as_str(), want)
}

#[test]
fn reads_dressed_theories(rt: HostRuntime) -> Result<(), Fail> {
    prints_dressed(&rt, rt.alloc(), BASICS, BASICS_PRINTED)?;
    prints_dressed(&rt, rt.alloc(), LISTS, LISTS_PRINTED)?;
    prints_dressed(&rt, rt.alloc(), LOOP, LOOP_PRINTED)?;
    prints_dressed(&rt, rt.alloc(), WIDE, WIDE_PRINTED)
}

fn prints_dressed_spec(
    rt: &impl Abort,
    alloc: Global,
    theory: &Theory,
    text: &str,
) -> Result<(), Fail> {
    let dressed = dressed(alloc, text)?;
    prints_spec(rt, alloc, theory, dressed.as_str(), text)
}

fn print_dressed_specs(rt: &impl Abort, alloc: Global, theory: &Theory) -> Result<(), Fail> {
    for text in SPECS.split("--\n") {
        prints_dressed_spec(rt, alloc, theory, text)?;
    }
    Ok(())
}

#[test]
fn reads_dressed_specifications(rt: HostRuntime) -> Result<(), Fail> {
    let theory = theory_of(rt.alloc(), BASICS)?;
    print_dressed_specs(&rt, rt.alloc(), &theory)
}

/// Puts so many brackets.
fn close(out: &mut String, brackets: u32) -> Result<(), Fail> {
    for _ in 0..brackets {
        out.push(')')?;
    }
    Ok(())
}

/// Puts `x` with the number.
fn put_x(alloc: Global, out: &mut String, number: u32) -> Result<(), Fail> {
    out.push_str(format!(in alloc; "x{number}")?.as_str())?;
    Ok(())
}

/// Puts the list of `x1` to `x40`.
fn put_names(alloc: Global, out: &mut String) -> Result<(), Fail> {
    for i in 1..41u32 {
        out.push_str("cons(")?;
        put_x(alloc, out, i)?;
        out.push_str(", ")?;
    }
    out.push_str("nil")?;
    close(out, 40)
}

/// Puts the list of `t(x2, x2)` to `t(x41, x41)`.
fn put_pairs(alloc: Global, out: &mut String) -> Result<(), Fail> {
    for i in 2..42u32 {
        out.push_str("cons(t(")?;
        put_x(alloc, out, i)?;
        out.push_str(", ")?;
        put_x(alloc, out, i)?;
        out.push_str("), ")?;
    }
    out.push_str("nil")?;
    close(out, 40)
}

/// Puts the binders of `x1` to `x41`, with the words between two of them.
fn put_binders(alloc: Global, out: &mut String, between: &str) -> Result<(), Fail> {
    out.push_str("some x1: nat")?;
    for i in 2..42u32 {
        out.push_str(between)?;
        put_x(alloc, out, i)?;
        out.push_str(": nat")?;
    }
    out.push_str(". ")?;
    Ok(())
}

/// Puts the specification that two lists of 40 unknown numbers are to be one, with these words between two binders and so
/// many brackets closed at the end.
fn put_fan(alloc: Global, out: &mut String, between: &str, closed: u32) -> Result<(), Fail> {
    out.push_str("spec fan\nprogram g(a: nat): z: nat\nensures ")?;
    put_binders(alloc, out, between)?;
    put_names(alloc, out)?;
    out.push_str(" = ")?;
    put_pairs(alloc, out)?;
    close(out, closed)?;
    out.push('\n')?;
    Ok(())
}

/// The words between binders one by one, each formula under another in brackets, as they are printed.
const NESTED: &str = ". (some ";

fn prints_fan(
    rt: &impl Abort,
    alloc: Global,
    theory: &Theory,
    between: &str,
    closed: u32,
) -> Result<(), Fail> {
    let mut text = String::new(alloc);
    put_fan(alloc, &mut text, between, closed)?;
    let mut want = String::new(alloc);
    put_fan(alloc, &mut want, NESTED, 40)?;
    prints_spec(rt, alloc, theory, text.as_str(), want.as_str())
}

/// A list of binders is printed as binders one by one.
#[test]
fn prints_a_specification_of_many_binders(rt: HostRuntime) -> Result<(), Fail> {
    let theory = theory_of(rt.alloc(), WIDE)?;
    prints_fan(&rt, rt.alloc(), &theory, ", ", 0)?;
    prints_fan(&rt, rt.alloc(), &theory, ". some ", 0)?;
    prints_fan(&rt, rt.alloc(), &theory, NESTED, 40)
}

/// Over a relation.
const LOOSE: &str = "\
spec f
program f(a: nat): z: nat
ensures r(z)
order below
primitive r
";

#[test]
fn prints_a_specification_over_a_relation(rt: HostRuntime) -> Result<(), Fail> {
    let theory = theory_of(rt.alloc(), LOOP)?;
    prints_spec(&rt, rt.alloc(), &theory, LOOSE, LOOSE)
}

const JOIN: &str = "\
spec join
program join(a: L, b: L): z: L
ensures z = app(a, b)
order shorter
primitive head, tail
";

#[test]
fn prints_a_specification_of_lists(rt: HostRuntime) -> Result<(), Fail> {
    let theory = theory_of(rt.alloc(), LISTS)?;
    prints_spec(&rt, rt.alloc(), &theory, JOIN, JOIN)
}

// Lines behind those of a theory, and the line that is refused, counted from the first of them.
use crate::answers::{BASE, bad_theory_line, case_text, wanted, wanted_behind};
use std::alloc::Global;
use std::process::Abort;
use std::test::Fail;
use syn_cases::cut;

/// Blank lines, comments, and what isn't tokens.
const BLANKS: &str = "\
# a comment => yes
 => yes
 // \t# one\r // axiom a : le ( 0 , 0 ) # behind => yes
\taxiom\ta:\tle(0,0)\r => yes
axiom a: le(0, 0) @ => 1
axiom a: le(0, 007) => 1
axiom a: le(0, 12345678) => 1
theory again => 1
nothing a: true => 1
true => 1";

const SORTS: &str = "\
sort M = e | c(nat, M) => yes
sort M = e | c(P, M) => yes
sort M = e | c(M, M) => 1
sort M = e | c(nat, L) => 1
sort M = e | c(N, M) => 1
sort M = M | c(nat, M) => 1
sort M = e | e(nat, M) => 1
sort M = nil | c(nat, M) => 1
sort M = e | c(nat) => 1
sort M = e c(nat, M) => 1
sort M = e | c(nat, M) more => 1
sort L = e | c(nat, L) => 1
sort refl = e | c(nat, refl) => 1
sort nat = e | c(nat, nat) => 1
sort Q = two(nat, L) => yes
sort Q = four(nat, L, P, nat) => yes
sort Q = five(nat, nat, nat, nat, nat) => 1
sort Q = one(nat) => 1
sort Q = none() => 1
sort Q = two(nat, Q) => 1
sort Q = Q(nat, nat) => 1
sort Q = two(nat,) => 1
sort A = a(P, P, P, P) // sort B = b(A, A, A, A) // sort C = c(P, P, P) // sort D = d(B, C) => yes
sort A = a(P, P, P, P) // sort B = b(A, A, A, A) // sort C = c(P, P, P) // sort D = d(B, C, nat) => 4";

const HEADINGS: &str = "\
fun f(nat): nat // clause f(x) = x => yes
fun f(nat): nat => 2
fun f(): nat => 1
fun f(nat) => 1
fun f: nat => 1
fun f(nat): M => 1
fun f(M): nat => 1
fun f(nat nat): nat => 1
fun p(nat): nat => 1
fun refl(nat): nat => 1
fun trans(nat): nat => 1
fun s(nat): nat => 1
fun all(nat): nat => 1
fun base(nat): nat // clause base(x) = x => yes
fun sort(nat): nat // clause sort(x) = x => yes
fun f(nat): nat // axiom a: true => 2
fun f(nat): nat // fun g(nat): nat => 2
rel r(nat) // clause r(x) <-> true => yes
rel r(nat): nat => 1
rel r() => 1
rel r(nat) => 2
rel le(nat) => 1";

const CLAUSES: &str = "\
clause p(x) = x => 1
fun f(nat): nat // clause f(base) = base => yes
fun f(nat): nat // clause f(x) = x // clause f(x) = x => 3
fun f(nat): nat // clause f(x) = x // clause f(0) = 0 => 3
fun f(nat): nat // clause f(x) = g(x) // fun g(nat): nat // clause g(x) = x => 2
fun f(nat): nat // clause f(x) = ?1 => 2
fun f(nat): nat // clause f(x) = !refl.1 => 2
fun f(nat): nat // clause f(0) = 0 // clause f(s(x)) = f(f(x)) => 3
fun f(nat, nat): nat // clause f(x, 0) = x // clause f(x, s(y)) = f(f(x, y), y) => yes
fun f(nat): nat // clause f(x) <-> true => 2
fun f(nat): nat // clause g(x) = x => 2
fun f(nat): nat // clause f(x, y) = x => 2
fun f(nat): nat // clause f = 0 => 2
fun f(nat): nat // clause f(x) = => 2
fun f(nat): nat // clause f(p) = 0 => 2
fun f(nat): nat // clause f(le) = 0 => 2
fun f(nat): nat // clause f(refl) = 0 => 2
fun f(nat): nat // clause f(L) = 0 => 2
fun f(nat): nat // clause f(f) = 0 => 2
fun f(nat): nat // clause f(true) = 0 => 2
fun f(nat): nat // clause f(1) = 0 => 2
fun f(nat): nat // clause f(?1) = 0 => 2
fun f(nat, nat): nat // clause f(x, x) = x => 2
fun f(nat, nat): nat // clause f(x, y) = z => 2
fun f(nat, nat): nat // clause f(0, 0) = 0 => 2
fun f(nat): nat // clause f(s(x)) = x => 2
fun f(nat): nat // clause f(nil) = 0 => 2
fun f(nat): nat // clause f(0) = 0 => 3
fun f(nat): nat // clause f(0) = 0 // clause f(0) = 0 => 3
fun f(nat): nat // clause f(0) = 0 // clause f(x) = 0 => 3
fun f(nat): nat // clause f(0) = 0 // clause f(s(0)) = 0 => 3
fun f(nat): nat // clause f(0) = 0 // clause f(s(s(x))) = 0 => 3
fun f(nat): nat // clause f(0) = 0 // clause f(s(x)) = f(x) => yes
fun f(nat): nat // clause f(0) = 0 // clause f(s(x)) = f(s(x)) => 3
fun f(nat): nat // clause f(0) = 0 // clause f(s(x)) = f(0) => 3
fun f(nat): nat // clause f(0) = f(0) => 2
fun f(nat): nat // clause f(x) = f(x) => 2
fun f(nat): nat // clause f(0) = 0 // clause f(s(x)) = x // clause f(s(x)) = x => 4
fun f(nat, nat): nat // clause f(x, 0) = x // clause f(s(x), y) = y => 3
fun f(nat, nat): nat // clause f(x, 0) = x // clause f(x, s(y)) = f(s(x), y) => yes
fun f(nat, nat): nat // clause f(x, 0) = x // clause f(x, s(y)) = f(y, x) => 3
fun f(L): nat // clause f(nil) = 0 // clause f(cons(x, y)) = f(y) => yes
fun f(L): nat // clause f(nil) = 0 // clause f(cons(x, x)) = x => 3
fun f(L): nat // clause f(cons(x, y)) = x => 2
fun f(P): nat // clause f(pair(x, y)) = x => yes
fun f(P): nat // clause f(pair(x, y)) = x // clause f(pair(x, y)) = x => 3
fun f(P): nat // clause f(pair(x, nil)) = x => 2
fun f(P): nat // clause f(pair(x, y)) = f(pair(x, y)) => 2
fun f(P): nat // clause f(pair(x, y)) = len(y) => yes
fun f(nat): L // clause f(x) = x => 2
fun f(nat): nat // clause f(x) = if x = 0 then 0 else p(x) => yes
fun f(nat): nat // clause f(x) = if x = 0 then 0 else nil => 2
fun f(nat): nat // clause f(x) = if all y: nat. y = x then 0 else 1 => 2
rel r(nat) // clause r(x) <-> all y: nat. y = x => 2
rel r(nat) // clause r(x) <-> (x = 0 <-> le(x, 1)) => yes
rel r(nat) // clause r(x) = x => 2
rel r(nat) // clause r(x) <-> below(x, 1) => yes
rel r(nat) // clause r(x) <-> r(x) => 2
rel r(L) // clause r(nil) <-> true // clause r(cons(x, y)) <-> x = 0 and r(y) => yes
rel r(L) // clause r(nil) <-> true // clause r(cons(x, y)) <-> r(x) => 3
rel r(nat) // clause r(0) <-> true // clause r(s(x)) <-> not r(x) => yes
rel r(nat) // clause r(0) <-> true // clause r(s(x)) <-> r(s(x)) => 3";

const OTHERS: &str = "\
order w(x: nat) by p(x) => yes
order w(x: nat, y: L, z: nat, v: nat) by len(y) => yes
order w(a: nat, b: nat, c: nat, d: nat, e: nat) by a => 1
order w() by 0 => 1
order w(x: nat) by y => 1
order w(x: L) by x => 1
order w(x: nat, x: nat) by x => 1
order w(w: nat) by w => 1
order w(p: nat) by 0 => 1
order w(refl: nat) by 0 => 1
order w(x: M) by 0 => 1
order below(x: nat) by x => 1
order w(x: nat) x => 1
order w(x) by x => 1
axiom a: all x: nat, y: L. le(x, len(y)) => yes
axiom a: x = x => 1
axiom a: all a: nat. le(a, a) => 1
axiom a: all p: nat. le(p, p) => 1
axiom a: all refl: nat. le(refl, refl) => 1
axiom a: all trans: nat. le(trans, trans) => 1
axiom a: all q: nat. le(q, q) // fun q(nat): nat // clause q(x) = x => yes
axiom a: all base: nat. le(base, base) => yes
axiom a: all x: M. true => 1
axiom a: all x: nat. all x: nat. le(x, x) => 1
axiom a: (all x: nat. le(x, x)) and (all x: nat. le(x, x)) => yes
axiom a: all x: nat. le(x, x) <-> true => yes
axiom a: le(0, s) => 1
axiom a: le(1000, 1000) => yes
axiom a: le(1001, 1) => 1
axiom a: ?1 = 0 => 1
axiom a le(0, 0) => 1
axiom a: => 1
axiom refl: true => 1
axiom trans: true => 1
axiom p: true => 1
axiom L: true => 1
mono m: le up p 1 le => yes
mono m: le down p 1 below => yes
mono m: le up s 1 le => yes
mono m: le up le 1 => yes
mono m: below up le 1 => yes
mono m: le up below 2 => yes
rel r(nat) // clause r(x) <-> true // mono m: r up le 1 => 3
rel r(nat, L) // clause r(x, y) <-> true // mono m: r up le 1 => 3
rel r(L, L) // clause r(x, y) <-> true // mono m: r up le 1 => 3
rel r(L, L) // clause r(x, y) <-> true // mono m: r up len 1 le => yes
rel r(L, L) // clause r(x, y) <-> true // mono m: le up cons 1 r => yes
rel r(L, L) // clause r(x, y) <-> true // mono m: r up cons 2 r => yes
rel r(P, P) // clause r(x, y) <-> true // mono m: le up pair 1 r => yes
mono m: le up le 1 // mono n: le up le 1 => 2
mono m: le up le 1 // mono n: le down le 1 => 2
mono m: len up le 1 => 1
mono m: le up refl 1 => 1
mono m: le up nothing 1 => 1
mono m: le up cons 1 le => 1
mono m: le up len 1 le => 1
mono m: le down le 2 => 1
mono m: le up le 3 => 1
mono m: le up le 0 => 1
mono m: p up le 1 => 1
mono m: le up p 1 => 1
mono m: le up le 1 le => 1
mono m: le up nil 1 le => 1
mono m: le up 0 1 le => 1
mono m: le across le 1 => 1
mono trans: le up le 1 => 1
mono p: le up le 1 => 1";

/// The line of the case behind the theory that is refused, 0 where none is.
fn bad_line(alloc: Global, case: &str) -> Result<u64, Fail> {
    let text = case_text(alloc, BASE, case)?;
    bad_theory_line(alloc, text.as_bytes())
}

/// Each case of the table, behind the lines of the theory.
fn walk(rt: &impl Abort, alloc: Global, table: &str) -> Result<(), Fail> {
    for line in table.split('\n') {
        let (case, want) = cut(line, " => ");
        let got = bad_line(alloc, case)?;
        assert!(rt; got == wanted_behind(want, BASE), "at {case}");
    }
    Ok(())
}

#[test]
fn passes_blanks(rt: HostRuntime) -> Result<(), Fail> {
    walk(&rt, rt.alloc(), BLANKS)
}

#[test]
fn reads_sorts(rt: HostRuntime) -> Result<(), Fail> {
    walk(&rt, rt.alloc(), SORTS)
}

#[test]
fn reads_headings(rt: HostRuntime) -> Result<(), Fail> {
    walk(&rt, rt.alloc(), HEADINGS)
}

#[test]
fn reads_clauses(rt: HostRuntime) -> Result<(), Fail> {
    walk(&rt, rt.alloc(), CLAUSES)
}

#[test]
fn reads_orders_axioms_monotonicities(rt: HostRuntime) -> Result<(), Fail> {
    walk(&rt, rt.alloc(), OTHERS)
}

/// Whole texts, and the line that is refused. `/` is a line feed, and `~` a byte that no text has.
const WHOLE: &str = "\
theory a/ => 0
/# first/  theory a # x// => 0
 => 1
/ => 2
theory a => 1
theory a/# x => 2
theory a/  => 2
theory/ => 1
theory a b/ => 1
theory nat/ => 1
theory a/theory a/ => 2
sort L = n | c(nat, L)/ => 1
theory a/~/ => 2
theory a/# ~/ => 2
theory bad/fun g(nat): nat/clause g(0) = 0/clause g(s(x)) = g(s(x))/ => 4
theory bad/fun g(nat): nat/clause g(0) = 0/ => 4";

/// The bytes of a text of the table.
fn bytes_of(alloc: Global, text: &str) -> Result<Vec<u8>, Fail> {
    let mut bytes = Vec::new(alloc);
    for c in text.bytes() {
        match c {
            b'/' => bytes.push(b'\n')?,
            b'~' => bytes.push(255)?,
            other => bytes.push(other)?,
        }
    }
    Ok(bytes)
}

fn bad_line_of(alloc: Global, text: &str) -> Result<u64, Fail> {
    let bytes = bytes_of(alloc, text)?;
    bad_theory_line(alloc, bytes.as_slice())
}

#[test]
fn reads_bytes(rt: HostRuntime) -> Result<(), Fail> {
    for line in WHOLE.split('\n') {
        let (text, want) = cut(line, " => ");
        let got = bad_line_of(rt.alloc(), text)?;
        assert!(rt; got == wanted(want), "at {text}");
    }
    Ok(())
}

/// `rel r(nat, .., nat)` with so many arguments, and its clause.
fn wide(alloc: Global, args: u32) -> Result<String, Fail> {
    let mut text = String::from_str(alloc, "theory wide\nrel r(nat")?;
    for _ in 1..args {
        text.push_str(", nat")?;
    }
    text.push_str(")\nclause r(x0")?;
    for i in 1..args {
        let name = format!(in alloc; ", x{i}")?;
        text.push_str(name.as_str())?;
    }
    text.push_str(") <-> true\n")?;
    Ok(text)
}

/// The line of that text that is refused, 0 where none is.
fn bad_wide_line(alloc: Global, args: u32) -> Result<u64, Fail> {
    let text = wide(alloc, args)?;
    bad_theory_line(alloc, text.as_bytes())
}

#[test]
fn reads_up_to_64_arguments(rt: HostRuntime) -> Result<(), Fail> {
    assert_eq!(rt; bad_wide_line(rt.alloc(), 64)?, 0);
    assert_eq!(rt; bad_wide_line(rt.alloc(), 65)?, 2);
    Ok(())
}

/// So many line feeds.
fn feeds(alloc: Global, count: u32) -> Result<Vec<u8>, Fail> {
    let mut bytes = Vec::new(alloc);
    for _ in 0..count {
        bytes.push(b'\n')?;
    }
    Ok(bytes)
}

#[test]
fn counts_many_lines(rt: HostRuntime) -> Result<(), Fail> {
    let bytes = feeds(rt.alloc(), 4_194_304)?;
    assert_eq!(rt; bad_theory_line(rt.alloc(), bytes.as_slice())?, 4_194_305);
    Ok(())
}

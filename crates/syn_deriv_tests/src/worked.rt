// The worked derivations are read, and printed as they were.
use crate::answers::{bad_line, printed};
use std::alloc::Global;
use std::process::Abort;
use std::test::Fail;
use syn_model::Theory;
use syn_start_cases::{start_of, theory_of};
use syn_term::Bank;

/// Numbers with their order.
const BASICS: &str = "\
theory basics
fun p(nat): nat
clause p(0) = 0
clause p(s(x)) = x
fun dbl(nat): nat
clause dbl(0) = 0
clause dbl(s(x)) = s(s(dbl(x)))
rel le(nat, nat)
clause le(x, 0) <-> x = 0
clause le(x, s(y)) <-> x = s(y) or le(x, y)
rel lt(nat, nat)
clause lt(x, y) <-> le(s(x), y)
order below(x: nat) by x
axiom cases: all x: nat. x = 0 or x = s(p(x))
axiom down: all x: nat. x = 0 or below(p(x), x)
axiom refl: all x: nat. le(x, x)
axiom total: all x: nat, y: nat. le(x, y) or le(y, x)
axiom low: all x: nat. le(x, s(x))
axiom gap: not (all x: nat. le(x, 0))
mono trans: le up le 2
";

/// Lists.
const LISTS: &str = "\
theory lists
sort L = nil | cons(nat, L)
fun head(L): nat
clause head(nil) = 0
clause head(cons(x, y)) = x
fun tail(L): L
clause tail(nil) = nil
clause tail(cons(x, y)) = y
fun app(L, L): L
clause app(nil, w) = w
clause app(cons(x, y), w) = cons(x, app(y, w))
fun len(L): nat
clause len(nil) = 0
clause len(cons(x, y)) = s(len(y))
order shorter(x: L, w: L) by len(x)
axiom listcases: all x: L. x = nil or x = cons(head(x), tail(x))
axiom taildown: all x: L, v: L, w: L. x = nil or shorter(tail(x), v, x, w)
";

/// A relation that always holds.
const LOOP: &str = "\
theory loop
rel r(nat)
clause r(x) <-> true
order below(x: nat) by x
axiom loose: all x: nat, y: nat, u: nat. below(x, y) or r(u)
";

const SAME: &str = "\
spec same
program same(a: nat): z: nat
ensures z = a
";

const MAX2: &str = "\
spec max2
program max2(a: nat, b: nat): z: nat
ensures le(a, z) and le(b, z) and (z = a or z = b)
primitive le
use refl, total
";

const TWICE: &str = "\
spec twice
program twice(a: nat): z: nat
ensures z = dbl(a)
order below
primitive p
use cases, down, dbl
";

const OVER: &str = "\
spec over
program over(a: nat, b: nat): z: nat
requires le(a, b)
ensures le(a, z) and z = s(b)
";

const OCC: &str = "\
spec occ
program f(a: nat): z: nat
ensures le(z, z)
";

const ANY: &str = "\
spec any
program any(a: nat): z: nat
requires false
ensures z = s(z)
";

const JOIN: &str = "\
spec join
program join(a: L, b: L): z: L
ensures z = app(a, b)
order shorter
primitive head, tail
";

const LOOPING: &str = "\
spec f
program f(a: nat): z: nat
ensures r(z)
order below
primitive r
";

/// The program is its input.
const ALIKE: &str = "\
derivation 1
1 goal: goal ?1 = a | ?1
2 reflex 1 -: goal true | a
";

/// The greater of two numbers.
const GREATER: &str = "\
derivation 1
1 goal: goal le(a, ?1) and le(b, ?1) and (?1 = a or ?1 = b) | ?1
2 reflex 1 3.1: goal le(a, a) and le(b, a) | a
3 reflex 1 3.2: goal le(a, b) and le(b, b) | b
4 axiom refl: assertion le(?1, ?1)
5 resolve 2 1 4 -: goal le(b, a) | a
6 resolve 3 2 4 -: goal le(a, b) | b
7 axiom total: assertion le(?1, ?2) or le(?2, ?1)
8 resolve 5 - 7 2: goal not le(a, b) | a
9 resolve 6 - 8 1: goal true | if le(a, b) then b else a
";

/// The double of a number, by recursion.
const DOUBLE: &str = "\
derivation 1
1 goal: goal ?1 = dbl(a) | ?1
2 axiom cases: assertion ?1 = 0 or ?1 = s(p(?1))
3 equal 2 2 lr 1 2.1: goal not a = 0 and ?1 = dbl(s(p(a))) | ?1
4 def dbl 2: assertion dbl(s(?1)) = s(s(dbl(?1)))
5 equal 4 - lr 3 2.2: goal not a = 0 and ?1 = s(s(dbl(p(a)))) | ?1
6 induct: assertion below(?1, a) -> twice(?1) = dbl(?1)
7 equal 6 2 rl 5 2.2.1.1: goal below(p(a), a) and not a = 0 and ?1 = s(s(twice(p(a)))) | ?1
8 reflex 7 3: goal below(p(a), a) and not a = 0 | s(s(twice(p(a))))
9 axiom down: assertion ?1 = 0 or below(p(?1), ?1)
10 resolve 8 1 9 2: goal not a = 0 | s(s(twice(p(a))))
11 equal 10 1 lr 1 2.1: goal ?1 = dbl(0) | if a = 0 then ?1 else s(s(twice(p(a))))
12 def dbl 1: assertion dbl(0) = 0
13 equal 12 - lr 11 2: goal ?1 = 0 | if a = 0 then ?1 else s(s(twice(p(a))))
14 reflex 13 -: goal true | if a = 0 then 0 else s(s(twice(p(a))))
";

/// A formula resolved with an axiom whose terms would be one inside the other.
const OCCURS: &str = "\
derivation 1
1 goal: goal le(?1, ?1) | ?1
2 axiom low: assertion le(?1, s(?1))
3 resolve 1 - 2 -: goal true | 0
";

/// A program that calls itself on whatever it likes.
const FREELY: &str = "\
derivation 1
1 goal: goal r(?1) | ?1
2 induct: assertion below(?1, a) -> r(f(?1))
3 axiom loose: assertion below(?1, ?2) or r(?3)
4 resolve 2 1 3 1: assertion r(f(?1)) or r(?2)
5 resolve 1 - 4 1,2: goal true | f(?1)
";

/// An input condition that is never met.
const NEVER: &str = "\
derivation 1
1 input: assertion false
";

/// A number beyond another, by relation replacement.
const BEYOND: &str = "\
derivation 1
1 goal: goal le(a, ?1) and ?1 = s(b) | ?1
2 reflex 1 2: goal le(a, s(b)) | s(b)
3 axiom low: assertion le(?1, s(?1))
4 relate 3 - rl 2 2: goal le(a, b) | s(b)
5 input: assertion le(a, b)
6 resolve 4 - 5 -: goal true | s(b)
";

/// One list behind another, by recursion.
const JOINED: &str = "\
derivation 1
1 goal: goal ?1:L = app(a, b) | ?1:L
2 axiom listcases: assertion ?1:L = nil or ?1:L = cons(head(?1:L), tail(?1:L))
3 equal 2 2 lr 1 2.1: goal not a = nil and ?1:L = app(cons(head(a), tail(a)), b) | ?1:L
4 def app 2: assertion app(cons(?1, ?2:L), ?3:L) = cons(?1, app(?2:L, ?3:L))
5 equal 4 - lr 3 2.2: goal not a = nil and ?1:L = cons(head(a), app(tail(a), b)) | ?1:L
6 induct: assertion shorter(?1:L, ?2:L, a, b) -> join(?1:L, ?2:L) = app(?1:L, ?2:L)
7 equal 6 2 rl 5 2.2.2: goal shorter(tail(a), b, a, b) and not a = nil and ?1:L = cons(head(a), join(tail(a), b)) | ?1:L
8 reflex 7 3: goal shorter(tail(a), b, a, b) and not a = nil | cons(head(a), join(tail(a), b))
9 axiom taildown: assertion ?1:L = nil or shorter(tail(?1:L), ?2:L, ?1:L, ?3:L)
10 resolve 8 1 9 2: goal not a = nil | cons(head(a), join(tail(a), b))
11 equal 10 1 lr 1 2.1: goal ?1:L = app(nil, b) | if a = nil then ?1:L else cons(head(a), join(tail(a), b))
12 def app 1: assertion app(nil, ?1:L) = ?1:L
13 equal 12 - lr 11 2: goal ?1:L = b | if a = nil then ?1:L else cons(head(a), join(tail(a), b))
14 reflex 13 -: goal true | if a = nil then b else cons(head(a), join(tail(a), b))
";

fn printed_over(
    alloc: Global,
    bank: &mut Bank,
    theory: &Theory,
    spec: &str,
    text: &str,
) -> Result<String, Fail> {
    let start = start_of(alloc, bank, theory, spec)?;
    printed(alloc, bank, &start, text)
}

/// The derivation of the text is printed as it was.
fn prints(
    rt: &impl Abort,
    alloc: Global,
    theory: &Theory,
    spec: &str,
    text: &str,
) -> Result<(), Fail> {
    let got = printed_over(alloc, &mut Bank::new(alloc), theory, spec, text)?;
    assert_eq!(rt; got.as_str(), text);
    Ok(())
}

#[test]
fn prints_derivations_over_numbers(rt: HostRuntime) -> Result<(), Fail> {
    let theory = theory_of(rt.alloc(), BASICS)?;
    prints(&rt, rt.alloc(), &theory, SAME, ALIKE)?;
    prints(&rt, rt.alloc(), &theory, MAX2, GREATER)?;
    prints(&rt, rt.alloc(), &theory, TWICE, DOUBLE)?;
    prints(&rt, rt.alloc(), &theory, OCC, OCCURS)?;
    prints(&rt, rt.alloc(), &theory, ANY, NEVER)?;
    prints(&rt, rt.alloc(), &theory, OVER, BEYOND)
}

#[test]
fn prints_a_derivation_over_lists(rt: HostRuntime) -> Result<(), Fail> {
    let theory = theory_of(rt.alloc(), LISTS)?;
    prints(&rt, rt.alloc(), &theory, JOIN, JOINED)
}

#[test]
fn prints_a_derivation_over_a_relation(rt: HostRuntime) -> Result<(), Fail> {
    let theory = theory_of(rt.alloc(), LOOP)?;
    prints(&rt, rt.alloc(), &theory, LOOPING, FREELY)
}

/// The line of the first bytes of a text that is refused: the last one where it is cut, none where it is whole.
fn wanted_of(text: &[u8]) -> u64 {
    let mut line = 1u64;
    let mut whole = false;
    for byte in text {
        whole = *byte == b'\n';
        if whole {
            line = line.saturating_add(1);
        }
    }
    if whole { 0 } else { line }
}

fn cut_everywhere(rt: &impl Abort, alloc: Global, theory: &Theory) -> Result<(), Fail> {
    let bank = &mut Bank::new(alloc);
    let start = start_of(alloc, bank, theory, TWICE)?;
    for end in 0..DOUBLE.len() {
        let front = &DOUBLE.as_bytes()[..end];
        assert!(rt;
            bad_line(alloc, bank, &start, front)? == wanted_of(front),
            "at {end}"
        );
    }
    Ok(())
}

#[test]
fn refuses_texts_that_are_cut(rt: HostRuntime) -> Result<(), Fail> {
    let theory = theory_of(rt.alloc(), BASICS)?;
    cut_everywhere(&rt, rt.alloc(), &theory)
}

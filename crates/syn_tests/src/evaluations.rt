// What `eval` answers: values with their turns, and each refusal, over theories of numbers, lists and
// pairs.
use crate::bench::{Texts, WELL, assert_answer, unmarked};
use std::alloc::Global;
use std::process::Abort;
use std::test::Fail;

const NUMBERS: &str = "\
theory basics
fun p(nat): nat
clause p(0) = 0
clause p(s(x)) = x
rel le(nat, nat)
clause le(x, 0) <-> x = 0
clause le(x, s(y)) <-> x = s(y) or le(x, y)
order below(x: nat) by x
axiom down: all x: nat. x = 0 or below(p(x), x)
";

const LISTS: &str = "\
theory lists
sort L = nil | cons(nat, L)
fun len(L): nat
clause len(nil) = 0
clause len(cons(x, y)) = s(len(y))
";

const PAIRS: &str = "\
theory pairs
sort P = pair(nat, nat)
fun swap(P): P
clause swap(pair(x, y)) = pair(y, x)
";

/// The letter of a theory, a program with `~` for a line feed, the words of the values, and the answer.
/// The last program calls itself twice on each level, so that 24 levels take more than 16 million turns.
const ROWS: &str = "\
n | program t(a: nat): nat~  if a = 0 then 0 else s(s(t(p(a))))~ | 3 => done value 6, turns 13~
n | program t(a: nat): nat~  if a = 0 then 0 else s(s(t(p(a))))~ | 0 => done value 0, turns 1~
n | program t(a: nat): nat~  if a = 0 then 0 else s(s(t(p(a))))~ | 007 => bad value: 1
n | program t(a: nat): nat~  if a = 0 then 0 else s(s(t(p(a))))~ | 1000001 => bad value: 1
n | program t(a: nat): nat~  if a = 0 then 0 else s(s(t(p(a))))~ | 3 4 => bad value: 2
n | program t(a: nat): nat~  if a = 0 then 0 else s(s(t(p(a))))~ |  => bad value: 1
n | program t ( a : nat ) : nat~~a # the body~ | 1000000 => done value 1000000, turns 1~
n | program o(a: nat, b: nat): nat~  if below(a, b) then 1 else 0~ | 2 5 => done value 1, turns 3~
n | program o(a: nat, b: nat): nat~  if below(a, b) then 1 else 0~ | 5 2 => done value 0, turns 2~
n | program o(a: nat, b: nat): nat~  if below(a, b) then 1 else 0~ | 5 => bad value: 2
n | program o(a: nat, b: nat): nat~  if below(a, b) then 1 else 0~ | 5 [] => bad value: 2
n | program o(a: nat, b: nat): nat~  if below(a, b) then 1 else 0~ | [] [] => bad value: 1
n | program f(a: nat): nat~  b~ | 1 => bad program: line 2
n | program f(a: nat): nat~ | 1 => bad program: line 2
n | program f(a: L): nat~  0~ | 1 => bad program: line 1
n | program f(a: nat): nat~  a~  a~ | 1 => bad program: line 3
n | program f(a: nat): nat~  a | 1 => bad program: line 2
l | program n(a: L): nat~  len(a)~ | [5,6,7] => done value 3, turns 8~
l | program n(a: L): L~  cons(len(a), a)~ | [5] => done value [1,5], turns 5~
l | program n(a: L): nat~  len(a)~ | 5 => bad value: 1
q | program w(a: P): P~  swap(a)~ | (3,4) => done value (4,3), turns 3~
q | program w(a: P): P~  swap(a)~ | (3,4,5) => bad value: 1
x | program w(a: nat): nat~  a~ | 3 => bad theory: line 2
n | program f(a: nat): nat~  if a = 0 then 0 else if le(f(p(a)), f(p(a))) then 0 else 1~ | 24 => turns spent
";

/// The same of calls that nest a million deep, and ten million.
const DEEP_ROWS: &str = "\
n | program t(a: nat): nat~  if a = 0 then 0 else s(s(t(p(a))))~ | 1000000 => done value 2000000, turns 4000001~
n | program q(a: nat): nat~  q(a)~ | 1 => turns spent
";

fn theory_of(letter: &str) -> &'static str {
    match letter {
        "n" => NUMBERS,
        "l" => LISTS,
        "q" => PAIRS,
        _ => "theory none\nfun f(nat: nat\n",
    }
}

/// The words of an evaluation on these values.
fn words_of(alloc: Global, values: &str) -> Result<String, Fail> {
    let mut words = String::from_str(alloc, "eval empty same")?;
    if !values.is_empty() {
        words.push(' ')?;
        words.push_str(values)?;
    }
    Ok(words)
}

/// Asserts what the evaluation of a row comes to.
fn assert_row<R: Abort>(rt: &R, alloc: Global, row: &str) -> Result<(), Fail> {
    let (case, want) = row.split_once(" => ").unwrap_or((row, ""));
    let (letter, rest) = case.split_once(" | ").unwrap_or((case, ""));
    let (program, values) = rest.split_once(" | ").unwrap_or((rest, ""));
    let program = unmarked(alloc, program)?;
    let texts = Texts {
        theory: theory_of(letter).as_bytes(),
        spec: program.as_slice(),
        deriv: &[],
    };
    let words = words_of(alloc, values)?;
    assert_answer(rt, alloc, words.as_str(), texts, WELL, want)
}

#[test]
fn evaluates_programs(rt: HostRuntime) -> Result<(), Fail> {
    for row in ROWS.lines() {
        assert_row(&rt, rt.alloc(), row)?;
    }
    Ok(())
}

#[test]
fn evaluates_deep_programs(rt: HostRuntime) -> Result<(), Fail> {
    for row in DEEP_ROWS.lines() {
        assert_row(&rt, rt.alloc(), row)?;
    }
    Ok(())
}

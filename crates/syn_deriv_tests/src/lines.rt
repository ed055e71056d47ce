// Texts of derivations, and the line that is refused; and what is printed of texts that are read.
use crate::answers::{bad_line, printed};
use std::alloc::Global;
use std::process::Abort;
use std::test::Fail;
use syn_cases::cut;
use syn_model::Theory;
use syn_start::Start;
use syn_start_cases::{start_of, theory_of};
use syn_term::{Bank, decimal_number};

const THEORY: &str = "\
theory base
sort L = nil | cons(nat, L)
fun p(nat): nat
clause p(0) = 0
clause p(s(x)) = x
fun len(L): nat
clause len(nil) = 0
clause len(cons(x, y)) = s(len(y))
rel le(nat, nat)
clause le(x, 0) <-> x = 0
clause le(x, s(y)) <-> x = s(y) or le(x, y)
axiom refl: all x: nat. le(x, x)
";

const SPEC: &str = "\
spec f
program f(a: nat, b: nat): z: nat
ensures z = a
";

/// Steps, with the line that is refused, counted from the first row; each line behind ` ; ` is one.
const STEPS: &str = "\
1 goal: goal ?1 = a | ?1 => yes
1 goal: goal ?1 = a => yes
1 input: assertion true => yes
1 axiom refl: assertion true => yes
1 axiom nothing: assertion true => yes
1 def p 1: assertion true => yes
1 def nothing 0: assertion true => yes
1 def p 9999999: assertion true => yes
1 induct: assertion true => yes
1 split 1 2: goal true => yes
1 split 0 0: goal true => yes
1 dual 7: goal true => yes
1 reflex 7 -: goal true => yes
1 reflex 7 1.2.3: goal true => yes
1 reflex 7 0: goal true => yes
1 resolve 1 - 2 -: goal true => yes
1 resolve 0 1,2.1,1 2 -,-: goal true => yes
1 equal 1 - lr 2 1.1: goal true => yes
1 equal 1 - rl 2 1.1: goal true => yes
1 relate 1 1 lr 2 -: goal true => yes
1 relate 1 1 rl 2 -: goal true => yes
goal: goal true => 1
1 goal goal true => 1
1 goal: true => 1
1 goal: goal => 1
1 goal: => 1
1 goal: assert true => 1
1 goals: goal true => 1
1 : goal true => 1
1 goal 1: goal true => 1
1 input 1: assertion true => 1
1 axiom: assertion true => 1
1 axiom 1: assertion true => 1
1 axiom nat: assertion true => 1
1 axiom refl refl: assertion true => 1
1 def p: assertion true => 1
1 def 1: assertion true => 1
1 def p p: assertion true => 1
1 def nat 1: assertion true => 1
1 def p 01: assertion true => 1
1 def p 10000000: assertion true => 1
1 induct 1: assertion true => 1
1 split 1: goal true => 1
1 split 1 -: goal true => 1
1 split 1 1.2: goal true => 1
1 split 1 2 3: goal true => 1
1 dual: goal true => 1
1 dual -: goal true => 1
1 dual 1 -: goal true => 1
1 reflex 1: goal true => 1
1 reflex - 1: goal true => 1
1 reflex 1 1,2: goal true => 1
1 reflex 1 1.: goal true => 1
1 reflex 1 .1: goal true => 1
1 reflex 1 1.-: goal true => 1
1 reflex 1 - -: goal true => 1
1 resolve 1 - 2: goal true => 1
1 resolve 1 2 -: goal true => 1
1 resolve 1 -, 2 -: goal true => 1
1 resolve - 1 2 -: goal true => 1
1 resolve 1 -,,1 2 -: goal true => 1
1 equal 1 - 2 -: goal true => 1
1 equal 1 - lr 2: goal true => 1
1 equal 1 - up 2 -: goal true => 1
1 equal 1 -,1 lr 2 -: goal true => 1
1 equal 1 - lr 2 -,1: goal true => 1
1 relate 1 - lr: goal true => 1
1 relate 1 - up 2 -: goal true => 1";

/// The numbers of rows.
const NUMBERS: &str = "\
0 goal: goal true => 1
2 goal: goal true => 1
1 goal: goal true ; 2 dual 1: goal true => yes
1 goal: goal true ; 1 dual 1: goal true => 2
1 goal: goal true ; 3 dual 1: goal true => 2
1 goal: goal true ; 2 dual 1: goal true ; 4 dual 1: goal true => 3
1 goal: goal true ; 2 dual 3: goal true ; 3 dual 2: goal true => yes
# one ; 1 goal: goal true ;  ; # two ; 2 dual 1: goal true => yes
1 goal: goal true ; derivation 1 => 2";

/// Formulas and outputs. The last two rows have 4,096 nodes and 4,097.
const ROWS: &str = "\
1 goal: goal true | => 1
1 goal: goal | a => 1
1 goal: goal true a => 1
1 goal: goal true | a | a => 1
1 goal: goal true | a => yes
1 goal: goal true | nil => 1
1 goal: goal true | le(a, b) => 1
1 goal: goal true | ?1:L => 1
1 goal: goal ?1:L = nil | ?2 => yes
1 goal: goal ?1:L = nil | ?1 => 1
1 goal: goal ?1 = a and ?1:L = nil => 1
1 goal: goal true | if le(?1, a) then ?1 else len(?2:L) => yes
1 goal: goal true | if a = 0 then nil else nil => 1
1 goal: goal true | if a then a else b => 1
1 goal: goal all x: nat. x = x => 1
1 goal: goal true <-> true => 1
1 goal: goal true | if true <-> true then a else b => 1
1 goal: goal true | if all x: nat. x = x then a else b => 1
1 goal: goal f(a, b) = a => yes
1 goal: goal f(a) = a => 1
1 goal: goal z = a => 1
1 goal: goal !goal.1 = a => 1
1 goal: goal !refl.1(?1) = a => 1
1 goal: goal ?0 = a => 1
1 goal: goal ?9999999 = a => yes
1 goal: goal a => 1
1 goal: goal le(1000, 1000) | if le(1000, 1000) then 87 else ?7 => yes
1 goal: goal le(1000, 1000) | if le(1000, 1000) then 88 else ?7 => 1";

/// Whole texts: `/` is a line feed, `^` a carriage return, `%` a tab and `~` a byte that no text has.
const WHOLE: &str = "\
derivation 1/ => yes
//  derivation  1 # one//# two/ => yes
derivation 1/1 goal: goal true/ => yes
derivation 1^/%1%goal :goal true|a # one^/ => yes
/ => 2
 => 1
derivation 1 => 1
derivation 1/  => 2
derivation/ => 1
derivation 2/ => 1
derivation 01/ => 1
derivation 1 1/ => 1
derivations 1/ => 1
theory 1/ => 1
derivation 1/derivation 1/ => 2
1 goal: goal true/ => 1
derivation 1/1 goal: goal true => 2
derivation 1/1 goal: goal true/~/ => 3
derivation 1/# ~/ => 2";

/// Lines, and what is printed for them.
const PRINTED: &str = "\
1 goal:goal s(s(0))=a|0 => 1 goal: goal 2 = a | 0
 1 resolve 1 - , 1 . 2 2 - : assertion(true) # one => 1 resolve 1 -,1.2 2 -: assertion true
1 goal: goal a=b and(b=a and a=a)|if not(a=b)then?1 else s(?1) => 1 goal: goal a = b and (b = a and a = a) | if not a = b then ?1 else s(?1)
1 goal: goal true ; # one ; 2 dual 1: assertion not true => 1 goal: goal true ; 2 dual 1: assertion not true";

fn number(word: &str) -> u64 {
    u64::from(decimal_number(word).unwrap_or(0))
}

/// The lines of a case behind the first line of each derivation, each ended by a line feed.
fn case_text(alloc: Global, case: &str) -> Result<String, Fail> {
    let mut text = String::from_str(alloc, "derivation 1\n")?;
    for line in case.split(" ; ") {
        text.push_str(line)?;
        text.push('\n')?;
    }
    Ok(text)
}

/// The bytes of a whole text.
fn bytes_of(alloc: Global, text: &str) -> Result<Vec<u8>, Fail> {
    let mut bytes = Vec::new(alloc);
    for c in text.bytes() {
        bytes.push(match c {
            b'/' => b'\n',
            b'^' => b'\r',
            b'%' => b'\t',
            b'~' => 255,
            other => other,
        })?;
    }
    Ok(bytes)
}

/// The row that is refused, counted from 1; 0 where none is.
fn bad_row(alloc: Global, bank: &mut Bank, start: &Start, case: &str) -> Result<u64, Fail> {
    let text = case_text(alloc, case)?;
    let line = bad_line(alloc, bank, start, text.as_bytes())?;
    Ok(line.saturating_sub(1))
}

fn bad_whole(alloc: Global, bank: &mut Bank, start: &Start, case: &str) -> Result<u64, Fail> {
    let bytes = bytes_of(alloc, case)?;
    bad_line(alloc, bank, start, bytes.as_slice())
}

fn walk(
    rt: &impl Abort,
    alloc: Global,
    bank: &mut Bank,
    start: &Start,
    table: &str,
) -> Result<(), Fail> {
    for line in table.split('\n') {
        let (case, want) = cut(line, " => ");
        let got = bad_row(alloc, bank, start, case)?;
        assert!(rt; got == number(want), "at {line}");
    }
    Ok(())
}

/// Each case of the table.
fn walk_over(rt: &impl Abort, alloc: Global, theory: &Theory, table: &str) -> Result<(), Fail> {
    let bank = &mut Bank::new(alloc);
    let start = start_of(alloc, bank, theory, SPEC)?;
    walk(rt, alloc, bank, &start, table)
}

#[test]
fn reads_steps(rt: HostRuntime) -> Result<(), Fail> {
    let theory = theory_of(rt.alloc(), THEORY)?;
    walk_over(&rt, rt.alloc(), &theory, STEPS)
}

#[test]
fn reads_numbers(rt: HostRuntime) -> Result<(), Fail> {
    let theory = theory_of(rt.alloc(), THEORY)?;
    walk_over(&rt, rt.alloc(), &theory, NUMBERS)
}

#[test]
fn reads_rows(rt: HostRuntime) -> Result<(), Fail> {
    let theory = theory_of(rt.alloc(), THEORY)?;
    walk_over(&rt, rt.alloc(), &theory, ROWS)
}

fn walk_whole(rt: &impl Abort, alloc: Global, bank: &mut Bank, start: &Start) -> Result<(), Fail> {
    for line in WHOLE.split('\n') {
        let (case, want) = cut(line, " => ");
        let got = bad_whole(alloc, bank, start, case)?;
        assert!(rt; got == number(want), "at {line}");
    }
    Ok(())
}

fn walk_whole_over(rt: &impl Abort, alloc: Global, theory: &Theory) -> Result<(), Fail> {
    let bank = &mut Bank::new(alloc);
    let start = start_of(alloc, bank, theory, SPEC)?;
    walk_whole(rt, alloc, bank, &start)
}

#[test]
fn reads_whole_texts(rt: HostRuntime) -> Result<(), Fail> {
    let theory = theory_of(rt.alloc(), THEORY)?;
    walk_whole_over(&rt, rt.alloc(), &theory)
}

/// Whether the lines print as the wanted ones.
fn prints_as(
    alloc: Global,
    bank: &mut Bank,
    start: &Start,
    case: &str,
    want: &str,
) -> Result<bool, Fail> {
    let text = case_text(alloc, case)?;
    let wanted = case_text(alloc, want)?;
    let got = printed(alloc, bank, start, text.as_str())?;
    Ok(got.as_str() == wanted.as_str())
}

fn print_lines(rt: &impl Abort, alloc: Global, bank: &mut Bank, start: &Start) -> Result<(), Fail> {
    for line in PRINTED.split('\n') {
        let (case, want) = cut(line, " => ");
        let right = prints_as(alloc, bank, start, case, want)?;
        assert!(rt; right, "at {line}");
    }
    Ok(())
}

fn print_over(rt: &impl Abort, alloc: Global, theory: &Theory) -> Result<(), Fail> {
    let bank = &mut Bank::new(alloc);
    let start = start_of(alloc, bank, theory, SPEC)?;
    print_lines(rt, alloc, bank, &start)
}

#[test]
fn prints_lines(rt: HostRuntime) -> Result<(), Fail> {
    let theory = theory_of(rt.alloc(), THEORY)?;
    print_over(&rt, rt.alloc(), &theory)
}

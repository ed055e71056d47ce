// Which derivations are accepted, and the bodies of their programs.
ghost use Rattle.std.specs.Prelude.{All, IfSome};
ghost use Rattle.syn_row.specs.Guards.{RuleBelongs};
ghost use Rattle.syn_start.specs.Rows.{IsRowOf};

use crate::reading::{derivation_of, text_of};
use crate::samples::start_of;
use std::alloc::Global;
use std::process::Abort;
use std::test::Fail;
use syn_cases::cut;
use syn_expr::{Scope, print_out};
use syn_model::Program;
use syn_replay::{CheckError, check};
use syn_start::{Derivation, Start};
use syn_term::Bank;

/// A specification, the lines of a derivation, and the body of the program, or why it isn't accepted.
const CHECKED: &str = "\
same # 1 goal: goal ?1 = a | ?1 ; 2 reflex 1 -: goal true | a => a
same # 1 goal: goal ?7 = a | ?7 ; 2 reflex 1 -: goal true | a => a
same # 1 goal: goal ?1 = a | ?1 ; 2 reflex 1 -: goal true | s(a) => row 2
same # 1 goal: goal ?1 = a | ?1 => not final
same # 1 goal: goal ?1 = a and true | if true then ?1 else s(?1) ; 2 reflex 1 -: goal true | if true then a else dbl(a) => a
same # 1 reflex 2 -: goal true | a ; 2 goal: goal ?1 = a | ?1 => row 1
same # 1 goal: goal ?1 = a | ?1 ; 2 reflex 2 -: goal true | a => row 2
same # 1 goal: goal ?1 = a | ?1 ; 2 reflex 3 -: goal true | a ; 3 goal: goal ?1 = a | ?1 => row 2
same # 1 goal: goal ?1 = a | ?1 ; 2 reflex 1 -: goal true | a ; 3 goal: goal ?1 = a | ?1 => not final
same # 1 goal: goal ?1 = s(a) | ?1 ; 2 reflex 1 -: goal true | s(a) => row 1
same # 1 goal: assertion ?1 = a | ?1 => row 1
same # 1 goal: goal ?1 = a => row 1
same # 1 axiom x: assertion true => row 1
same # 1 input: assertion true => not final
two # 1 goal: goal ?1 = dbl(0) | ?1 ; 2 def dbl 1: assertion dbl(0) = 0 ; 3 equal 2 - lr 1 2: goal ?1 = 0 | ?1 ; 4 reflex 3 -: goal true | 0 => 0
two # 1 goal: goal ?1 = dbl(0) | ?1 ; 2 def dbl 2: assertion dbl(0) = 0 ; 3 equal 2 - lr 1 2: goal ?1 = 0 | ?1 ; 4 reflex 3 -: goal true | 0 => row 2
two # 1 goal: goal ?1 = dbl(0) | ?1 ; 2 reflex 1 -: goal true | dbl(0) => not final
two # 1 input: assertion le(a, b) ; 2 dual 1: goal not le(a, b) => not final
any # 1 input: assertion false => 0
free # 1 goal: goal true | ?1 => 0
free # 1 goal: goal ?2 = ?2 | ?2 => 0
free # 1 goal: goal ?2 = ?2 | ?3 => 0";

/// The text of the program's body.
fn body_text(alloc: Global, program: &Program) -> Result<String, Fail> {
    let scope = Scope {
        syms: program.symbols(),
        names: &[],
        rows: false,
    };
    Ok(print_out(alloc, &scope, program.body())?)
}

fn error_text(alloc: Global, error: CheckError) -> Result<String, Fail> {
    match error {
        CheckError::NotFollows(1) => Ok(String::from_str(alloc, "row 1")?),
        CheckError::NotFollows(2) => Ok(String::from_str(alloc, "row 2")?),
        CheckError::NotFollows(_) => Ok(String::from_str(alloc, "a later row")?),
        CheckError::NotFinal => Ok(String::from_str(alloc, "not final")?),
        CheckError::NoMemory => Err(Fail::new("no memory")),
    }
}

/// The body of the derivation's program, or why it isn't accepted.
fn answer(alloc: Global, bank: &mut Bank, start: &Start, d: &Derivation) -> Result<String, Fail>
    requires rule { IfSome (start.now).rule (RuleBelongs bank.old) }
    requires rows { All (λ l. IsRowOf start.now bank.old l.1) d.now }
{
    match check(alloc, bank, start, d) {
        Ok(program) => body_text(alloc, &program),
        Err(error) => error_text(alloc, error),
    }
}

/// The same of the derivation of the text.
#[tactic(auto, using(crate::proofs::Growth::growth))]
fn checked(alloc: Global, bank: &mut Bank, start: &Start, text: &str) -> Result<String, Fail>
    requires { IfSome (start.now).rule (RuleBelongs bank.old) }
{
    let d = derivation_of(alloc, bank, start, text)?;
    answer(alloc, bank, start, &d)
}

fn checked_over(alloc: Global, bank: &mut Bank, name: &str, text: &str) -> Result<String, Fail> {
    let start = start_of(alloc, bank, name)?;
    checked(alloc, bank, &start, text)
}

fn checked_text(alloc: Global, name: &str, lines: &str) -> Result<String, Fail> {
    let text = text_of(alloc, lines, " ; ")?;
    checked_over(alloc, &mut Bank::new(alloc), name, text.as_str())
}

#[test]
fn checks_derivations(rt: HostRuntime) -> Result<(), Fail> {
    for line in CHECKED.lines() {
        let (case, want) = cut(line, " => ");
        let (name, lines) = cut(case, " # ");
        let got = checked_text(rt.alloc(), name, lines)?;
        assert_eq!(rt; got.as_str(), want, "at {line}");
    }
    Ok(())
}

#[test]
fn refuses_no_lines(rt: HostRuntime) -> Result<(), Fail> {
    let bank = &mut Bank::new(rt.alloc());
    let got = checked_over(rt.alloc(), bank, "same", "derivation 1\n")?;
    assert_eq!(rt; got.as_str(), "not final");
    Ok(())
}

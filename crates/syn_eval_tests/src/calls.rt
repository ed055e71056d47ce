// Calls with their values and turns, and formulas with their truth values.
ghost use Rattle.std.specs.Prelude.{◌≤◌, ◌^◌};
ghost use Rattle.syn_eval.specs.Ending.{AllFit};

use crate::problems::{args_of, form_of, program_of, spec_of, theory_of};
use std::alloc::Global;
use std::process::Abort;
use std::test::Fail;
use syn_cases::cut;
use syn_eval::{EvalError, eval, holds};
use syn_form::Form;
use syn_machine::{run_program, run_test};
use syn_model::{Program, Spec, Theory};
use syn_term::{Symbols, decimal_number};
use syn_value::{Value, print_value};

/// A head and a body; values of the inputs and the turns that are given; and the value with the turns
/// that it took, `spent` where there is none.
const CALLS: &str = "\
t(a: nat): z: nat | if a = 0 then 0 else s(s(t(p(a)))) | 3 | 13 => 6 in 13
t(a: nat): z: nat | if a = 0 then 0 else s(s(t(p(a)))) | 3 | 12 => spent
t(a: nat): z: nat | if a = 0 then 0 else s(s(t(p(a)))) | 3 | 900 => 6 in 13
t(a: nat): z: nat | if a = 0 then 0 else s(s(t(p(a)))) | 0 | 1 => 0 in 1
t(a: nat): z: nat | if a = 0 then 0 else s(s(t(p(a)))) | 0 | 0 => spent
n(a: L): z: nat | len(a) | [5,6,7] | 8 => 3 in 8
n(a: L): z: nat | len(a) | [5,6,7] | 7 => spent
o(a: nat, b: nat): z: nat | if below(a, b) then 1 else 0 | 2 5 | 3 => 1 in 3
o(a: nat, b: nat): z: nat | if below(a, b) then 1 else 0 | 2 5 | 2 => spent
o(a: nat, b: nat): z: nat | if below(a, b) then 1 else 0 | 5 2 | 2 => 0 in 2
f(a: nat): z: nat | f(a) | 3 | 300 => spent
v(a: nat): z: nat | a | 1000000 | 1 => 1000000 in 1
v(a: nat): z: nat | 2 | 0 | 3 => 2 in 3
v(a: nat): z: nat | 2 | 0 | 2 => spent
j(a: L, b: L): z: L | app(a, b) | [1,2] [3] | 100 => [1,2,3] in 6
j(a: L, b: L): z: L | tail(a) | [1,2] [3] | 100 => [2] in 2
j(a: L, b: L): z: L | cons(head(a), b) | [] [3] | 3 => [0,3] in 3
j(a: L, b: L): z: L | if shorter(a, a, b, b) then a else b | [1] [2,3] | 10 => [1] in 10
w(a: P): z: P | swap(a, 7) | (3,[4]) | 20 => (7,[3,4]) in 11
m(a: nat, b: nat): z: nat | least(a, b) | 3 5 | 100 => 3 in 13
m(a: nat, b: nat): z: nat | if a = b and le(a, b) then a else b | 3 5 | 12 => 5 in 12
m(a: nat, b: nat): z: nat | if a = b and le(a, b) then a else b | 3 5 | 11 => spent
m(a: nat, b: nat): z: nat | if a = a or le(a, b) then a else b | 3 5 | 12 => 3 in 12
m(a: nat, b: nat): z: nat | if a = a or le(a, b) then a else b | 3 5 | 11 => spent
m(a: nat, b: nat): z: nat | if not a = a -> le(a, b) then a else b | 3 5 | 11 => spent
m(a: nat, b: nat): z: nat | if not a = a -> le(a, b) then a else b | 3 5 | 12 => 3 in 12";

/// A head and a formula over its inputs; values and turns; and whether it is true.
const FORMULAS: &str = "\
f(a: nat, b: nat): z: nat | le(a, b) | 3 5 | 11 => yes
f(a: nat, b: nat): z: nat | le(a, b) | 3 5 | 10 => spent
f(a: nat, b: nat): z: nat | le(a, b) | 0 0 | 1 => yes
f(a: nat, b: nat): z: nat | le(a, b) | 2 0 | 1 => no
f(a: nat, b: nat): z: nat | lt(a, b) | 0 0 | 3 => no
f(a: nat, b: nat): z: nat | lt(a, b) | 0 0 | 2 => spent
f(a: nat, b: nat): z: nat | a = 0 and le(a, b) | 3 5 | 10 => spent
f(a: nat, b: nat): z: nat | a = 0 and le(a, b) | 3 5 | 11 => no
f(a: nat, b: nat): z: nat | true or le(a, b) | 3 5 | 10 => spent
f(a: nat, b: nat): z: nat | true or le(a, b) | 3 5 | 11 => yes
f(a: nat, b: nat): z: nat | false -> le(a, b) | 3 5 | 10 => spent
f(a: nat, b: nat): z: nat | false -> le(a, b) | 3 5 | 11 => yes
f(a: nat, b: nat): z: nat | true -> false | 3 5 | 0 => no
f(a: nat, b: nat): z: nat | not a = b | 3 5 | 0 => yes
f(a: nat, b: nat): z: nat | below(b, a) | 3 5 | 1 => no
f(a: L, b: L): z: nat | a = b | [1,2] [1,2] | 0 => yes
f(a: L, b: L): z: nat | shorter(a, a, b, b) | [1] [1,2] | 9 => yes
f(a: L, b: L): z: nat | shorter(a, a, b, b) | [1] [1,2] | 8 => spent";

/// Calls that nest so deep that they are for the machine alone.
const DEEP_CALLS: &str = "\
t(a: nat): z: nat | if a = 0 then 0 else s(s(t(p(a)))) | 20000 | 80001 => 40000 in 80001
t(a: nat): z: nat | if a = 0 then 0 else s(s(t(p(a)))) | 20000 | 80000 => spent
f(a: nat): z: nat | f(a) | 3 | 60000 => spent";

/// What evaluates.
#[derive(Clone, Copy)]
enum Evaluator {
    Recursion,
    Machine,
}

/// The parts of a row before its answer.
#[derive(Clone, Copy)]
struct Case<'a> {
    head: &'a str,
    text: &'a str,
    args: &'a str,
    turns: u64,
}

fn case_of(line: &str) -> Case<'_>
    ensures { result.turns ≤ 2 ^ 32 }
{
    let (head, rest) = cut(line, " | ");
    let (text, rest) = cut(rest, " | ");
    let (args, turns) = cut(rest, " | ");
    Case {
        head,
        text,
        args,
        turns: u64::from(decimal_number(turns).unwrap_or(0)),
    }
}

/// What the program gives.
fn evaluated(
    alloc: Global,
    by: Evaluator,
    theory: &Theory,
    program: &Program,
    args: &[Value],
    turns: u64,
) -> Result<(Value, u64), EvalError>
    requires { AllFit turns args.now }
{
    match by {
        Evaluator::Recursion => eval(alloc, theory, program, args, turns),
        Evaluator::Machine => run_program(alloc, theory, program, args, turns),
    }
}

/// The value with its turns, as the table writes it.
fn value_text(alloc: Global, value: &Value, turns: u64) -> Result<String, Fail> {
    let text = print_value(alloc, value)?;
    Ok(format!(in alloc; "{} in {turns}", text.as_str())?)
}

/// What the program gives, as the table writes it.
fn answer(
    alloc: Global,
    by: Evaluator,
    theory: &Theory,
    program: &Program,
    args: &[Value],
    turns: u64,
) -> Result<String, Fail>
    requires { AllFit turns args.now }
{
    match evaluated(alloc, by, theory, program, args, turns) {
        Ok((value, turns)) => value_text(alloc, &value, turns),
        Err(EvalError::TurnsSpent) => Ok(String::from_str(alloc, "spent")?),
        Err(EvalError::NoMemory) => Err(Fail::new("no memory")),
    }
}

/// What the program of the case gives for these values.
fn called_with(
    alloc: Global,
    by: Evaluator,
    theory: &Theory,
    spec: &Spec,
    case: &Case<'_>,
    args: &[Value],
) -> Result<String, Fail>
    requires { AllFit (case.now).turns args.now }
{
    let program = program_of(alloc, theory, spec, case.text)?;
    answer(alloc, by, theory, &program, args, case.turns)
}

fn called(
    alloc: Global,
    by: Evaluator,
    theory: &Theory,
    spec: &Spec,
    case: &Case<'_>,
) -> Result<String, Fail>
    requires { (case.now).turns ≤ 2 ^ 32 }
{
    let values = args_of(alloc, spec, case.args)?;
    called_with(alloc, by, theory, spec, case, values.as_slice())
}

/// What the program of the case gives, as the table writes it.
fn called_by(alloc: Global, by: Evaluator, theory: &Theory, case: &Case<'_>) -> Result<String, Fail>
    requires { (case.now).turns ≤ 2 ^ 32 }
{
    let spec = spec_of(alloc, theory, case.head)?;
    called(alloc, by, theory, &spec, case)
}

/// The truth value of the formula.
fn truth(
    alloc: Global,
    by: Evaluator,
    theory: &Theory,
    syms: &Symbols,
    form: &Form,
    args: &[Value],
    turns: u64,
) -> Result<bool, EvalError>
    requires { AllFit turns args.now }
{
    match by {
        Evaluator::Recursion => holds(alloc, theory, syms, form, args, turns),
        Evaluator::Machine => run_test(alloc, theory, syms, form, args, turns),
    }
}

/// The truth value, as the table writes it.
fn truth_text(found: Result<bool, EvalError>) -> Result<&'static str, Fail> {
    match found {
        Ok(true) => Ok("yes"),
        Ok(false) => Ok("no"),
        Err(EvalError::TurnsSpent) => Ok("spent"),
        Err(EvalError::NoMemory) => Err(Fail::new("no memory")),
    }
}

/// The truth value of the formula of the case for these values.
fn told_with(
    alloc: Global,
    by: Evaluator,
    theory: &Theory,
    syms: &Symbols,
    case: &Case<'_>,
    args: &[Value],
) -> Result<&'static str, Fail>
    requires { AllFit (case.now).turns args.now }
{
    let form = form_of(alloc, syms, case.text)?;
    truth_text(truth(alloc, by, theory, syms, &form, args, case.turns))
}

fn told(
    alloc: Global,
    by: Evaluator,
    theory: &Theory,
    spec: &Spec,
    case: &Case<'_>,
) -> Result<&'static str, Fail>
    requires { (case.now).turns ≤ 2 ^ 32 }
{
    let values = args_of(alloc, spec, case.args)?;
    told_with(alloc, by, theory, spec.symbols(), case, values.as_slice())
}

/// The truth value of the formula of the case.
fn told_by(
    alloc: Global,
    by: Evaluator,
    theory: &Theory,
    case: &Case<'_>,
) -> Result<&'static str, Fail>
    requires { (case.now).turns ≤ 2 ^ 32 }
{
    let spec = spec_of(alloc, theory, case.head)?;
    told(alloc, by, theory, &spec, case)
}

fn check_calls_over(
    rt: &impl Abort,
    alloc: Global,
    by: Evaluator,
    theory: &Theory,
    table: &str,
) -> Result<(), Fail> {
    for line in table.lines() {
        let (case, want) = cut(line, " => ");
        let got = called_by(alloc, by, theory, &case_of(case))?;
        assert_eq!(rt; got.as_str(), want, "at {line}");
    }
    Ok(())
}

/// Each call of the table gives what its row says.
fn check_calls(rt: &impl Abort, alloc: Global, by: Evaluator, table: &str) -> Result<(), Fail> {
    let theory = theory_of(alloc)?;
    check_calls_over(rt, alloc, by, &theory, table)
}

fn check_formulas_over(
    rt: &impl Abort,
    alloc: Global,
    by: Evaluator,
    theory: &Theory,
) -> Result<(), Fail> {
    for line in FORMULAS.lines() {
        let (case, want) = cut(line, " => ");
        let got = told_by(alloc, by, theory, &case_of(case))?;
        assert_eq!(rt; got, want, "at {line}");
    }
    Ok(())
}

/// Each formula of the table has the truth value that its row says.
fn check_formulas(rt: &impl Abort, alloc: Global, by: Evaluator) -> Result<(), Fail> {
    let theory = theory_of(alloc)?;
    check_formulas_over(rt, alloc, by, &theory)
}

#[test]
fn evaluates_calls(rt: HostRuntime) -> Result<(), Fail> {
    check_calls(&rt, rt.alloc(), Evaluator::Recursion, CALLS)
}

#[test]
fn runs_calls(rt: HostRuntime) -> Result<(), Fail> {
    check_calls(&rt, rt.alloc(), Evaluator::Machine, CALLS)
}

#[test]
fn runs_deep_calls(rt: HostRuntime) -> Result<(), Fail> {
    check_calls(&rt, rt.alloc(), Evaluator::Machine, DEEP_CALLS)
}

#[test]
fn tells_truth(rt: HostRuntime) -> Result<(), Fail> {
    check_formulas(&rt, rt.alloc(), Evaluator::Recursion)
}

#[test]
fn runs_tests(rt: HostRuntime) -> Result<(), Fail> {
    check_formulas(&rt, rt.alloc(), Evaluator::Machine)
}

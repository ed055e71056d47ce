// What callers ask: the value of a program's call, and the truth value of a closed formula.
ghost use Rattle.std.specs.Prelude.{◌≤◌, ◌-◌, [], IfOk};
ghost use Rattle.syn_value.specs.Values.{FitsTurns};
ghost use Rattle.syn_model.specs.Calls.{call_of, numbered_values, reading_at};
ghost use Rattle.syn_model.specs.Evaluation.{evaluate_form};
ghost use Rattle.syn_eval.specs.Ending.{AllFit, CallsSeeNoPlaces, Ends, Tells, meaning_of, meaning_over};

use crate::errors::EvalError;
use crate::evaluating::{Scope, call, eval_form};
use crate::setting::Setting;
use std::alloc::Global;
use syn_form::Form;
use syn_model::{Program, Theory};
use syn_term::Symbols;
use syn_value::Value;

/// The value of the program's call on the values.
fn run(
    alloc: Global,
    theory: &Theory,
    program: &Program,
    args: &[Value],
    turns: u64,
) -> Result<(Value, u64), EvalError>
    requires { AllFit turns args.now }
    ensures ends { Ends (λ n. call_of (meaning_of (theory.now).decls program.now) n args.now) turns result }
    ensures within { IfOk result (λ p. p.1 ≤ turns) }
    ensures fits { IfOk result (λ p. FitsTurns p.0 (turns - p.1)) }
{
    let set = Setting::new(alloc, theory, program.symbols(), Some(program.body()))?;
    let scope = Scope {
        set: &set,
        inputs: &[],
        values: &[],
    };
    call(&scope, set.program(), args, turns)
}

/// The value of the program's call on the values, and the turns that it took. `TurnsSpent` comes exactly
/// where no value comes in so many turns, however deep calls may nest: so it does too where the values
/// don't fit the program, or the program doesn't fit the theory, and nothing is ever given.
pub fn eval(
    alloc: Global,
    theory: &Theory,
    program: &Program,
    args: &[Value],
    turns: u64,
) -> Result<(Value, u64), EvalError>
    requires { AllFit turns args.now }
    ensures ends { Ends (λ n. call_of (meaning_of (theory.now).decls program.now) n args.now) turns result }
    ensures within { IfOk result (λ p. p.1 ≤ turns) }
    ensures fits { IfOk result (λ p. FitsTurns p.0 (turns - p.1)) }
    ensures bare { CallsSeeNoPlaces (theory.now).decls program.now }
{
    run(alloc, theory, program, args, turns)
}

/// The truth value of the formula with the inputs read as the values.
pub fn holds<'x>(
    alloc: Global,
    theory: &'x Theory,
    symbols: &'x Symbols,
    form: &Form,
    args: &'x [Value],
    turns: u64,
) -> Result<bool, EvalError>
    requires { AllFit turns args.now }
    ensures { Tells (λ n. evaluate_form (reading_at (meaning_over (theory.now).decls symbols.now) n args.now) (numbered_values []) form.now) turns result }
{
    let set = Setting::new(alloc, theory, symbols, None)?;
    let scope = Scope {
        set: &set,
        inputs: args,
        values: &[],
    };
    let (is, _) = eval_form(&scope, form, turns)?;
    Ok(is)
}

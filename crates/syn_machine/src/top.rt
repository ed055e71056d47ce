// What callers ask: the value of a program's call, and the truth value of a closed formula.
ghost use Rattle.std.specs.Prelude.{◌≡◌, ◌≤◌, ◌-◌, [], ◌∷◌, IfOk};
ghost use Rattle.syn_value.specs.Values.{FitsTurns};
ghost use Rattle.syn_model.specs.Calls.{call_of, numbered_values, reading_at};
ghost use Rattle.syn_model.specs.Evaluation.{evaluate_form};
ghost use Rattle.syn_eval.specs.Ending.{AllFit, CallsSeeNoPlaces, Ends, Tells, meaning_of, meaning_over};

use crate::frames::{Frame, Scope, Work};
use crate::lists::put_all;
use crate::running::run;
use crate::stack::Stack;
use sqlite_items::Items;
use std::alloc::Global;
use syn_eval::{EvalError, Setting};
use syn_form::Form;
use syn_model::{Program, Theory};
use syn_term::{NoMemory, Symbols};
use syn_value::Value;

/// What a machine begins with: these values, and one thing to do.
fn begin<'a>(alloc: Global, args: &[Value], frame: Frame<'a>) -> Result<Work<'a>, NoMemory>
    ensures frames { IfOk result (λ w. w.frames ≡ frame.entry ∷ []) }
    ensures values { IfOk result (λ w. w.values ≡ args.now) }
    ensures truths { IfOk result (λ w. w.truths ≡ []) }
{
    let mut values = Items::new(alloc);
    put_all(args, &mut values)?;
    let mut frames = Stack::new(alloc);
    frames.push(frame)?;
    Ok(Work {
        frames,
        values,
        truths: Stack::new(alloc),
    })
}

/// The value of the program's call, on a machine.
fn value_on<'a, 's: 'a>(
    set: &'a Setting<'s>,
    args: &[Value],
    turns: u64,
) -> Result<(Value, u64), EvalError>
    requires { AllFit turns args.now }
    ensures ends { Ends (λ n. call_of set.now n args.now) turns result }
    ensures within { IfOk result (λ p. p.1 ≤ turns) }
    ensures fits { IfOk result (λ p. FitsTurns p.0 (turns - p.1)) }
{
    let frame = Frame::Apply {
        scope: Scope::Variables { from: 0, to: 0 },
        symbol: set.program(),
        count: args.len(),
        rest: &[],
    };
    let mut work = begin(set.alloc(), args, frame)?;
    match run(set, &mut work, turns) {
        Err(error) => {
            drop(work);
            Err(error)
        }
        Ok(used) => match work.last_value() {
            None => Err(EvalError::TurnsSpent),
            Some(value) => Ok((value, used)),
        },
    }
}

/// The truth value of the formula, on a machine.
fn truth_on<'a, 's: 'a>(
    set: &'a Setting<'s>,
    form: &'a Form,
    args: &[Value],
    turns: u64,
) -> Result<bool, EvalError>
    requires { AllFit turns args.now }
    ensures { Tells (λ n. evaluate_form (reading_at set.now n args.now) (numbered_values []) form.entry.now) turns result }
{
    let scope = Scope::Inputs {
        from: 0,
        to: args.len(),
    };
    let mut work = begin(set.alloc(), args, Frame::Form { scope, form })?;
    match run(set, &mut work, turns) {
        Err(error) => {
            drop(work);
            Err(error)
        }
        Ok(_) => match work.last_truth() {
            None => Err(EvalError::TurnsSpent),
            Some(is) => Ok(is),
        },
    }
}

/// The value of the program's call on the values, and the turns that it took. `TurnsSpent` comes exactly
/// where no value comes in so many turns, however deep calls may nest: so it does too where the values
/// don't fit the program, or the program doesn't fit the theory, and nothing is ever given.
pub fn run_program(
    alloc: Global,
    theory: &Theory,
    program: &Program,
    args: &[Value],
    turns: u64,
) -> Result<(Value, u64), EvalError>
    requires { AllFit turns args.now }
    ensures ends { Ends (λ n. call_of (meaning_of (theory.now).decls program.now) n args.now) turns result }
    ensures within { IfOk result (λ p. p.1 ≤ turns) }
    ensures fits { IfOk result (λ p. FitsTurns p.0 (turns - p.1)) }
    ensures bare { CallsSeeNoPlaces (theory.now).decls program.now }
{
    let set = Setting::new(alloc, theory, program.symbols(), Some(program.body()))?;
    value_on(&set, args, turns)
}

/// The truth value of the formula with the inputs read as the values.
pub fn run_test<'x>(
    alloc: Global,
    theory: &'x Theory,
    symbols: &'x Symbols,
    form: &Form,
    args: &[Value],
    turns: u64,
) -> Result<bool, EvalError>
    requires { AllFit turns args.now }
    ensures { Tells (λ n. evaluate_form (reading_at (meaning_over (theory.now).decls symbols.now) n args.now) (numbered_values []) form.now) turns result }
{
    let set = Setting::new(alloc, theory, symbols, None)?;
    truth_on(&set, form, args, turns)
}

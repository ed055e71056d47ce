// A symbol on the last values of the list.
ghost use Rattle.std.specs.Prelude.{◌<◌, ◌≤◌, [], None, drop, length, map};
ghost use Rattle.syn_term.specs.declared.sorts.Kind.TheVariants as kinds;
ghost use Rattle.syn_model.specs.Calls.{Meaning, constructed, value_by};
ghost use Rattle.syn_form.specs.Trees.{out_nodes};
ghost use Rattle.syn_eval.specs.inner.Rules.{choice_seen, rule_seen};
ghost use Rattle.syn_eval.specs.inner.Scopes.{HaveRoom, function_at, program_at};
ghost use Rattle.syn_eval.specs.inner.Weights.{AreLight, all_nodes};
ghost use Rattle.syn_machine.specs.inner.Frames.{do_symbol, end_of, inputs_of};
ghost use Rattle.syn_machine.specs.inner.Steps.{HasRoomAfter, StepsFrom, function_entered, put_at};
ghost use Rattle.syn_machine.specs.inner.Weights.{GetsLighter};

use crate::frames::{Frame, Scope, Work};
use crate::lists::{behind, cut};
use syn_eval::{Chosen, EvalError, Rule, Setting, choose, construct, input_value};
use syn_form::Out;
use syn_term::{Kind, SymId};

/// The symbol on so many values, the last ones.
pub(crate) fn apply<'a, 's: 'a>(
    set: &'a Setting<'s>,
    scope: Scope,
    f: SymId,
    count: usize,
    left: u64,
    work: &mut Work<'a>,
) -> Result<u64, EvalError>
    requires { HaveRoom left work.old.values }
    ensures does { StepsFrom set.now left (λ n. do_symbol set.now n scope f count) work.old work.new result }
    ensures lighter { GetsLighter set.now 1 work.old work.new result }
    ensures room { HasRoomAfter left work.new result }
{
    let len = work.values.len();
    if len < scope.end() {
        return Err(EvalError::TurnsSpent);
    }
    if len < count {
        return Err(EvalError::TurnsSpent);
    }
    let base = len - count;
    match set.entry(f) {
        None => Err(EvalError::TurnsSpent),
        Some(entry) => match entry.kind {
            Kind::Fun => call_function(set, entry.functions.as_slice(), base, left, work),
            Kind::Program => call_program(set, base, left, work),
            Kind::Input => read_input(set, scope, f, base, left, work),
            kind => make(set, kind, base, left, work),
        },
    }
}

/// The function with these clauses: a turn, and the body of the clause that fits is next.
fn call_function<'a, 's: 'a>(
    set: &'a Setting<'s>,
    rules: &'a [Rule<'s, Out>],
    base: usize,
    left: u64,
    work: &mut Work<'a>,
) -> Result<u64, EvalError>
    requires within { base ≤ length work.old.values }
    requires fits { HaveRoom left work.old.values }
    requires light { AreLight set.now (map rule_seen rules.now) }
    ensures does { StepsFrom set.now left (λ n h. put_at base h (function_at set.now (map rule_seen rules.now) (drop base h.values) n)) work.old work.new result }
    ensures lighter { GetsLighter set.now 1 work.old work.new result }
    ensures room { HasRoomAfter left work.new result }
{
    if left == 0 {
        return Err(EvalError::TurnsSpent);
    }
    match choose(
        set.alloc(),
        set.symbols(),
        rules,
        behind(work.values.as_slice(), base),
    )? {
        None => Err(EvalError::TurnsSpent),
        Some(chosen) => enter(chosen, base, work),
    }
}

/// The body of the clause is next, and the values of its variables stand from the place on.
fn enter<'a, 's: 'a>(
    chosen: Chosen<'s, Out>,
    base: usize,
    work: &mut Work<'a>,
) -> Result<u64, EvalError>
    requires { base ≤ length work.old.values }
    ensures does { (m : Meaning) (left : _) → 0 < left → StepsFrom m left (λ n h. put_at base h (function_entered m (choice_seen chosen.entry) n)) work.old work.new result }
    ensures lighter { (m : Meaning) → out_nodes chosen.entry.body.now ≤ all_nodes m → GetsLighter m 1 work.old work.new result }
    ensures room { (left : _) → HaveRoom left work.old.values → HaveRoom left chosen.entry.values → HasRoomAfter left work.new result }
{
    let Chosen { body, values } = chosen;
    cut(&mut work.values, base);
    work.values.append(values)?;
    let scope = Scope::Variables {
        from: base,
        to: work.values.len(),
    };
    work.frames.push(Frame::Return { base })?;
    work.frames.push(Frame::Out { scope, out: &*body })?;
    Ok(1)
}

/// The program: a turn, and its body is next, with the inputs read as the values.
fn call_program<'a, 's: 'a>(
    set: &'a Setting<'s>,
    base: usize,
    left: u64,
    work: &mut Work<'a>,
) -> Result<u64, EvalError>
    requires within { base ≤ length work.old.values }
    requires fits { HaveRoom left work.old.values }
    ensures does { StepsFrom set.now left (λ n h. put_at base h (program_at set.now (drop base h.values) n)) work.old work.new result }
    ensures lighter { GetsLighter set.now 1 work.old work.new result }
    ensures room { HasRoomAfter left work.new result }
{
    if left == 0 {
        return Err(EvalError::TurnsSpent);
    }
    match set.body() {
        None => Err(EvalError::TurnsSpent),
        Some(out) => {
            let scope = Scope::Inputs {
                from: base,
                to: work.values.len(),
            };
            work.frames.push(Frame::Return { base })?;
            work.frames.push(Frame::Out { scope, out })?;
            Ok(1)
        }
    }
}

/// The value of the input, where it is given no values.
fn read_input<'a, 's: 'a>(
    set: &Setting<'s>,
    scope: Scope,
    f: SymId,
    base: usize,
    left: u64,
    work: &mut Work<'a>,
) -> Result<u64, EvalError>
    requires end { end_of scope ≤ length work.old.values }
    requires within { base ≤ length work.old.values }
    requires fits { HaveRoom left work.old.values }
    ensures does { StepsFrom set.now left (λ n h. put_at base h (value_by set.now None (inputs_of scope h.values) f [] (drop base h.values) kinds.Input)) work.old work.new result }
    ensures lighter { GetsLighter set.now 1 work.old work.new result }
    ensures room { HasRoomAfter left work.new result }
{
    if base < work.values.len() {
        return Err(EvalError::TurnsSpent);
    }
    let value = input_value(set, scope.inputs(work.values.as_slice()), f)?;
    work.values.push(value)?;
    Ok(0)
}

/// What a constructor makes of the values from the place on.
fn make<'a, 's: 'a>(
    set: &Setting<'s>,
    kind: Kind,
    base: usize,
    left: u64,
    work: &mut Work<'a>,
) -> Result<u64, EvalError>
    requires within { base ≤ length work.old.values }
    requires fits { HaveRoom left work.old.values }
    ensures does { StepsFrom set.now left (λ n h. put_at base h (constructed kind (drop base h.values))) work.old work.new result }
    ensures lighter { GetsLighter set.now 1 work.old work.new result }
    ensures room { HasRoomAfter left work.new result }
{
    let (value, used) = construct(
        set.alloc(),
        kind,
        behind(work.values.as_slice(), base),
        left,
    )?;
    cut(&mut work.values, base);
    work.values.push(value)?;
    Ok(used)
}

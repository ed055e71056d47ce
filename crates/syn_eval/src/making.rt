// What constructors make of values.
ghost use Rattle.std.specs.Prelude.{◌≡◌, ◌∷◌, ◌≤◌, ◌-◌, [], IfOk};
ghost use Rattle.syn_term.specs.declared.sorts.Kind.TheVariants as kinds;
ghost use Rattle.syn_model.specs.Calls.{constructed};
ghost use Rattle.syn_eval.specs.Ending.{Ends};
ghost use Rattle.syn_eval.specs.inner.Scopes.{HasRoom, HaveRoom};

use crate::errors::EvalError;
use std::alloc::Global;
use syn_term::{Kind, NoMemory};
use syn_value::{Value, Values};

/// Zero, where there are no arguments.
fn zero(args: &[Value], turns: u64) -> Result<(Value, u64), EvalError>
    ensures ends { Ends (λ _. constructed kinds.Zero args.now) turns result }
    ensures within { IfOk result (λ p. p.1 ≤ turns) }
    ensures fits { IfOk result (λ p. HasRoom (turns - p.1) p.0) }
{
    match args {
        [] => Ok((Value::number(0), 0)),
        _ => Err(EvalError::TurnsSpent),
    }
}

/// The empty list, where there are no arguments.
fn empty(args: &[Value], turns: u64) -> Result<(Value, u64), EvalError>
    ensures ends { Ends (λ _. constructed kinds.Nil args.now) turns result }
    ensures within { IfOk result (λ p. p.1 ≤ turns) }
    ensures fits { IfOk result (λ p. HasRoom (turns - p.1) p.0) }
{
    match args {
        [] => Ok((Value::list(Values::empty()), 0)),
        _ => Err(EvalError::TurnsSpent),
    }
}

/// The successor of a number.
fn successor(args: &[Value], turns: u64) -> Result<(Value, u64), EvalError>
    requires { HaveRoom turns args.now }
    ensures ends { Ends (λ _. constructed kinds.Succ args.now) turns result }
    ensures within { IfOk result (λ p. p.1 ≤ turns) }
    ensures fits { IfOk result (λ p. HasRoom (turns - p.1) p.0) }
{
    match args {
        [arg] => match arg.as_number() {
            None => Err(EvalError::TurnsSpent),
            Some(n) => {
                if turns == 0 {
                    return Err(EvalError::TurnsSpent);
                }
                Ok((Value::number(n + 1), 1))
            }
        },
        _ => Err(EvalError::TurnsSpent),
    }
}

/// The first value in front of the second, which is a list.
fn longer(alloc: Global, args: &[Value], turns: u64) -> Result<(Value, u64), EvalError>
    requires { HaveRoom turns args.now }
    ensures ends { Ends (λ _. constructed kinds.Cons args.now) turns result }
    ensures within { IfOk result (λ p. p.1 ≤ turns) }
    ensures fits { IfOk result (λ p. HasRoom (turns - p.1) p.0) }
{
    match args {
        [first, rest] => match rest.as_list()? {
            None => Err(EvalError::TurnsSpent),
            Some(items) => {
                if turns == 0 {
                    drop(items);
                    return Err(EvalError::TurnsSpent);
                }
                Ok((Value::list(put_front(alloc, first, items)?), 1))
            }
        },
        _ => Err(EvalError::TurnsSpent),
    }
}

/// The first value in front of the others.
fn put_front(alloc: Global, first: &Value, rest: Values) -> Result<Values, NoMemory>
    ensures { IfOk result (λ vs. vs ≡ first.now ∷ rest) }
{
    match first.again() {
        Ok(first) => Values::cons(alloc, first, rest),
        Err(error) => {
            drop(rest);
            Err(error)
        }
    }
}

/// The values as a list.
fn values_of(alloc: Global, args: &[Value]) -> Result<Values, NoMemory>
    ensures { IfOk result (λ vs. vs ≡ args.now) }
{
    let mut made = Values::empty();
    let mut i = args.len();
    while 0 < i {
        made = put_front(alloc, &args[i - 1], made)?;
        i -= 1;
    }
    Ok(made)
}

/// The tuple of the values.
fn tuple(alloc: Global, args: &[Value], turns: u64) -> Result<(Value, u64), EvalError>
    requires { HaveRoom turns args.now }
    ensures ends { Ends (λ _. constructed kinds.Tuple args.now) turns result }
    ensures within { IfOk result (λ p. p.1 ≤ turns) }
    ensures fits { IfOk result (λ p. HasRoom (turns - p.1) p.0) }
{
    if turns == 0 {
        return Err(EvalError::TurnsSpent);
    }
    Ok((Value::tuple(values_of(alloc, args)?), 1))
}

/// What a constructor of this kind makes of the values. Other symbols make nothing.
pub fn construct(
    alloc: Global,
    kind: Kind,
    args: &[Value],
    turns: u64,
) -> Result<(Value, u64), EvalError>
    requires { HaveRoom turns args.now }
    ensures ends { Ends (λ _. constructed kind args.now) turns result }
    ensures within { IfOk result (λ p. p.1 ≤ turns) }
    ensures fits { IfOk result (λ p. HasRoom (turns - p.1) p.0) }
{
    match kind {
        Kind::Zero => zero(args, turns),
        Kind::Succ => successor(args, turns),
        Kind::Nil => empty(args, turns),
        Kind::Cons => longer(alloc, args, turns),
        Kind::Tuple => tuple(alloc, args, turns),
        _ => Err(EvalError::TurnsSpent),
    }
}

// Evaluation itself: terms, formulas and outputs, and the calls that they make. Each function is given
// the turns that are left, and answers how many it took.
ghost use Rattle.std.specs.Prelude.{◌≡◌, ◌≤◌, ◌-◌, ◌&&◌, ◌||◌, [], None, IfOk, if◌then◌else◌, drop, length, map, not, take};
ghost use Rattle.std.specs.Option.{option_map};
ghost use Rattle.syn_term.specs.declared.sorts.Kind.TheVariants as kinds;
ghost use Rattle.syn_term.specs.Terms.{nodes};
ghost use Rattle.syn_form.specs.declared.trees.Form.TheVariants as forms;
ghost use Rattle.syn_form.specs.declared.trees.Form.TheViews as form_views;
ghost use Rattle.syn_model.specs.Calls.{half, smaller, value_by};
ghost use Rattle.syn_eval.specs.Ending.{Ends};
ghost use Rattle.syn_eval.specs.inner.Rules.{rule_seen};
ghost use Rattle.syn_eval.specs.inner.Scopes.{HasRoom, HaveRoom, ScopeHasRoom, form_in, function_at, number_in, order_at, out_in, program_at, relation_at, tally_in, term_in, terms_in, truth_in, value_in};
ghost use Rattle.syn_eval.specs.inner.Weights.{AreLight, AreLightForms, all_nodes};

use crate::choosing::choose;
use crate::errors::EvalError;
use crate::making::construct;
use crate::rules::Rule;
use crate::setting::Setting;
use crate::variables::{input_value, variable_value};
use sqlite_items::Items;
use syn_form::{Form, Out};
use syn_term::{Kind, Node, Shared, SymId, Term};
use syn_value::Value;

/// What a term is evaluated in: the meaning of symbols, and the values of inputs and variables.
#[derive(Clone, Copy)]
pub(crate) struct Scope<'a, 's> {
    pub(crate) set: &'a Setting<'s>,
    pub(crate) inputs: &'a [Value],
    pub(crate) values: &'a [Value],
}

/// Of some truth values, whether all are true and whether any is.
#[derive(Clone, Copy)]
struct Tally {
    all: bool,
    any: bool,
}

#[cycle(eval)]
pub(crate) fn eval_term(
    scope: &Scope<'_, '_>,
    t: &Term,
    turns: u64,
) -> Result<(Value, u64), EvalError>
    requires fits { ScopeHasRoom scope.now turns }
    ensures ends { Ends (term_in scope.now t.now) turns result }
    ensures within { IfOk result (λ p. p.1 ≤ turns) }
    ensures fits { IfOk result (λ p. HasRoom (turns - p.1) p.0) }
{
    match t.get() {
        Node::Var(_, v) => match variable_value(scope.values, v.number) {
            Ok(value) => Ok((value, 0)),
            Err(_) => Err(EvalError::NoMemory),
        },
        Node::App(_, f, args) => {
            let (args, used) = eval_terms(scope, args.as_slice(), turns)?;
            let outcome = call(scope, *f, args.as_slice(), turns - used);
            drop(args);
            let (value, more) = outcome?;
            Ok((value, used + more))
        }
    }
}

/// The values of the terms, from left to right.
#[cycle(eval)]
fn eval_terms(
    scope: &Scope<'_, '_>,
    terms: &[Term],
    turns: u64,
) -> Result<(Items<Value>, u64), EvalError>
    requires fits { ScopeHasRoom scope.now turns }
    ensures ends { Ends (terms_in scope.now terms.now) turns result }
    ensures within { IfOk result (λ p. p.1 ≤ turns) }
    ensures fits { IfOk result (λ p. HaveRoom (turns - p.1) p.0) }
{
    let mut made = Items::new(scope.set.alloc());
    let mut used = 0;
    for t in terms {
        match eval_term(scope, t, turns - used) {
            Ok((value, more)) => {
                used += more;
                made.push(value)?;
            }
            Err(error) => {
                drop(made);
                return Err(error);
            }
        }
    }
    Ok((made, used))
}

/// The value of the symbol on the values.
#[cycle(eval)]
pub(crate) fn call(
    scope: &Scope<'_, '_>,
    f: SymId,
    args: &[Value],
    turns: u64,
) -> Result<(Value, u64), EvalError>
    requires fits { ScopeHasRoom scope.now turns }
    requires args { HaveRoom turns args.now }
    ensures ends { Ends (value_in scope.now f args.now) turns result }
    ensures within { IfOk result (λ p. p.1 ≤ turns) }
    ensures fits { IfOk result (λ p. HasRoom (turns - p.1) p.0) }
{
    match scope.set.entry(f) {
        None => Err(EvalError::TurnsSpent),
        Some(entry) => match entry.kind {
            Kind::Fun => call_function(scope.set, entry.functions.as_slice(), args, turns),
            Kind::Program => call_program(scope.set, args, turns),
            Kind::Input => read_input(scope, f, args, turns),
            kind => construct(scope.set.alloc(), kind, args, turns),
        },
    }
}

/// The value of the input, where it is given no values.
fn read_input(
    scope: &Scope<'_, '_>,
    f: SymId,
    args: &[Value],
    turns: u64,
) -> Result<(Value, u64), EvalError>
    requires fits { ScopeHasRoom scope.now turns }
    ensures ends { Ends (λ _. value_by scope.now.set.now None scope.now.inputs.now f [] args.now kinds.Input) turns result }
    ensures within { IfOk result (λ p. p.1 ≤ turns) }
    ensures fits { IfOk result (λ p. HasRoom (turns - p.1) p.0) }
{
    match args {
        [] => Ok((input_value(scope.set, scope.inputs, f)?, 0)),
        _ => Err(EvalError::TurnsSpent),
    }
}

/// The value of the function with these clauses: a turn, and the body of the clause that fits.
#[cycle(eval)]
fn call_function(
    set: &Setting<'_>,
    rules: &[Rule<'_, Out>],
    args: &[Value],
    turns: u64,
) -> Result<(Value, u64), EvalError>
    requires args { HaveRoom turns args.now }
    requires light { AreLight set.now (map rule_seen rules.now) }
    ensures ends { Ends (function_at set.now (map rule_seen rules.now) args.now) turns result }
    ensures within { IfOk result (λ p. p.1 ≤ turns) }
    ensures fits { IfOk result (λ p. HasRoom (turns - p.1) p.0) }
{
    if turns == 0 {
        return Err(EvalError::TurnsSpent);
    }
    match choose(set.alloc(), set.symbols(), rules, args)? {
        None => Err(EvalError::TurnsSpent),
        Some(chosen) => {
            let scope = Scope {
                set: &*set,
                inputs: &[],
                values: chosen.values.as_slice(),
            };
            let outcome = eval_out(&scope, chosen.body, turns - 1);
            drop(chosen);
            match outcome {
                Ok((value, used)) => Ok((value, 1 + used)),
                Err(error) => Err(error),
            }
        }
    }
}

/// The value of the program: a turn, and its body with the inputs read as the values.
#[cycle(eval)]
fn call_program(set: &Setting<'_>, args: &[Value], turns: u64) -> Result<(Value, u64), EvalError>
    requires args { HaveRoom turns args.now }
    ensures ends { Ends (program_at set.now args.now) turns result }
    ensures within { IfOk result (λ p. p.1 ≤ turns) }
    ensures fits { IfOk result (λ p. HasRoom (turns - p.1) p.0) }
{
    if turns == 0 {
        return Err(EvalError::TurnsSpent);
    }
    match set.body() {
        None => Err(EvalError::TurnsSpent),
        Some(body) => {
            let scope = Scope {
                set: &*set,
                inputs: &*args,
                values: &[],
            };
            let (value, used) = eval_out(&scope, body, turns - 1)?;
            Ok((value, 1 + used))
        }
    }
}

/// The arm that is taken.
fn arm<'a>(is: bool, first: &'a Shared<Out>, second: &'a Shared<Out>) -> &'a Out
    ensures { result.now ≡ (if is then first.now else second.now) }
{
    if is { first.get() } else { second.get() }
}

/// The value of an output: the test, and then one arm.
#[cycle(eval)]
fn eval_out(scope: &Scope<'_, '_>, out: &Out, turns: u64) -> Result<(Value, u64), EvalError>
    requires fits { ScopeHasRoom scope.now turns }
    ensures ends { Ends (out_in scope.now out.now) turns result }
    ensures within { IfOk result (λ p. p.1 ≤ turns) }
    ensures fits { IfOk result (λ p. HasRoom (turns - p.1) p.0) }
{
    match out {
        Out::Give(t) => eval_term(scope, t, turns),
        Out::If(test, first, second) => {
            let (is, used) = eval_form(scope, test.get(), turns)?;
            let (value, more) = eval_out(scope, arm(is, first, second), turns - used)?;
            Ok((value, used + more))
        }
    }
}

/// The truth value of an implication.
fn implies(first: bool, second: bool) -> bool
    ensures { result ≡ (not first || second) }
{
    !first || second
}

/// The truth value of an atom: the values of its arguments, and the symbol on these.
#[cycle(eval)]
fn eval_atom(
    scope: &Scope<'_, '_>,
    r: SymId,
    args: &[Term],
    turns: u64,
) -> Result<(bool, u64), EvalError>
    requires fits { ScopeHasRoom scope.now turns }
    ensures ends { Ends (form_in scope.now (forms.Atom r args.now)) turns result }
    ensures within { IfOk result (λ p. p.1 ≤ turns) }
{
    let (values, used) = eval_terms(scope, args, turns)?;
    let (is, more) = ask(scope, r, values.as_slice(), turns - used)?;
    Ok((is, used + more))
}

/// The truth value of an equality: both values, and whether they are the same.
#[cycle(eval)]
fn eval_equal(
    scope: &Scope<'_, '_>,
    first: &Term,
    second: &Term,
    turns: u64,
) -> Result<(bool, u64), EvalError>
    requires fits { ScopeHasRoom scope.now turns }
    ensures ends { Ends (form_in scope.now (forms.Equal first.now second.now)) turns result }
    ensures within { IfOk result (λ p. p.1 ≤ turns) }
{
    let (v, used) = eval_term(scope, first, turns)?;
    match eval_term(scope, second, turns - used) {
        Ok((w, more)) => {
            let is = v.same(&w);
            drop(v);
            drop(w);
            Ok((is, used + more))
        }
        Err(error) => {
            drop(v);
            Err(error)
        }
    }
}

/// The truth value of an implication, whose two sides are both evaluated.
#[cycle(eval)]
fn eval_implies(
    scope: &Scope<'_, '_>,
    first: &Form,
    second: &Form,
    turns: u64,
) -> Result<(bool, u64), EvalError>
    requires fits { ScopeHasRoom scope.now turns }
    ensures ends { Ends (form_in scope.now (form_views.Implies first.now second.now)) turns result }
    ensures within { IfOk result (λ p. p.1 ≤ turns) }
{
    let (x, used) = eval_form(scope, first, turns)?;
    let (y, more) = eval_form(scope, second, turns - used)?;
    Ok((implies(x, y), used + more))
}

/// The truth value of the `and` of the formulas, all of which are evaluated.
#[cycle(eval)]
fn eval_and(scope: &Scope<'_, '_>, all: &[Form], turns: u64) -> Result<(bool, u64), EvalError>
    requires fits { ScopeHasRoom scope.now turns }
    ensures ends { Ends (form_in scope.now (form_views.And all.now)) turns result }
    ensures within { IfOk result (λ p. p.1 ≤ turns) }
{
    let (tally, used) = eval_forms(scope, all, turns)?;
    Ok((tally.all, used))
}

/// The truth value of the `or` of the formulas, all of which are evaluated.
#[cycle(eval)]
fn eval_or(scope: &Scope<'_, '_>, all: &[Form], turns: u64) -> Result<(bool, u64), EvalError>
    requires fits { ScopeHasRoom scope.now turns }
    ensures ends { Ends (form_in scope.now (form_views.Or all.now)) turns result }
    ensures within { IfOk result (λ p. p.1 ≤ turns) }
{
    let (tally, used) = eval_forms(scope, all, turns)?;
    Ok((tally.any, used))
}

/// The truth value of a formula; all members of a connective are evaluated.
#[cycle(eval)]
pub(crate) fn eval_form(
    scope: &Scope<'_, '_>,
    form: &Form,
    turns: u64,
) -> Result<(bool, u64), EvalError>
    requires fits { ScopeHasRoom scope.now turns }
    ensures ends { Ends (form_in scope.now form.now) turns result }
    ensures within { IfOk result (λ p. p.1 ≤ turns) }
{
    match form {
        Form::True => Ok((true, 0)),
        Form::False => Ok((false, 0)),
        Form::Atom(r, args) => eval_atom(scope, *r, args.get().as_slice(), turns),
        Form::Equal(first, second) => eval_equal(scope, first, second, turns),
        Form::Not(a) => {
            let (is, used) = eval_form(scope, a.get(), turns)?;
            Ok((!is, used))
        }
        Form::And(all) => eval_and(scope, all.get().as_slice(), turns),
        Form::Or(all) => eval_or(scope, all.get().as_slice(), turns),
        Form::Implies(a, b) => eval_implies(scope, a.get(), b.get(), turns),
    }
}

/// The tally with one truth value more.
fn with_one(tally: Tally, is: bool) -> Tally
    ensures { result ≡ record { all = tally.all && is; any = tally.any || is } }
{
    Tally {
        all: tally.all && is,
        any: tally.any || is,
    }
}

/// The truth values of the formulas, from left to right, none left out.
#[cycle(eval)]
fn eval_forms(scope: &Scope<'_, '_>, forms: &[Form], turns: u64) -> Result<(Tally, u64), EvalError>
    requires fits { ScopeHasRoom scope.now turns }
    ensures ends { Ends (tally_in scope.now forms.now) turns result }
    ensures within { IfOk result (λ p. p.1 ≤ turns) }
{
    let mut tally = Tally {
        all: true,
        any: false,
    };
    let mut used = 0;
    for form in forms {
        let (is, more) = eval_form(scope, form, turns - used)?;
        tally = with_one(tally, is);
        used += more;
    }
    Ok((tally, used))
}

/// The truth value of the symbol on the values.
#[cycle(eval)]
fn ask(
    scope: &Scope<'_, '_>,
    r: SymId,
    args: &[Value],
    turns: u64,
) -> Result<(bool, u64), EvalError>
    requires fits { ScopeHasRoom scope.now turns }
    requires args { HaveRoom turns args.now }
    ensures ends { Ends (truth_in scope.now r args.now) turns result }
    ensures within { IfOk result (λ p. p.1 ≤ turns) }
{
    match scope.set.entry(r) {
        None => Err(EvalError::TurnsSpent),
        Some(entry) => match entry.kind {
            Kind::Rel => ask_relation(scope.set, entry.relations.as_slice(), args, turns),
            Kind::Order => match entry.measure {
                None => Err(EvalError::TurnsSpent),
                Some(measure) => ask_order(scope.set, measure, args, turns),
            },
            _ => Err(EvalError::TurnsSpent),
        },
    }
}

/// The truth value of the relation with these clauses: a turn, and the body of the clause that fits.
#[cycle(eval)]
fn ask_relation(
    set: &Setting<'_>,
    rules: &[Rule<'_, Form>],
    args: &[Value],
    turns: u64,
) -> Result<(bool, u64), EvalError>
    requires args { HaveRoom turns args.now }
    requires light { AreLightForms set.now (map rule_seen rules.now) }
    ensures ends { Ends (relation_at set.now (map rule_seen rules.now) args.now) turns result }
    ensures within { IfOk result (λ p. p.1 ≤ turns) }
{
    if turns == 0 {
        return Err(EvalError::TurnsSpent);
    }
    match choose(set.alloc(), set.symbols(), rules, args)? {
        None => Err(EvalError::TurnsSpent),
        Some(chosen) => {
            let scope = Scope {
                set: &*set,
                inputs: &[],
                values: chosen.values.as_slice(),
            };
            let outcome = eval_form(&scope, chosen.body, turns - 1);
            drop(chosen);
            match outcome {
                Ok((is, used)) => Ok((is, 1 + used)),
                Err(error) => Err(error),
            }
        }
    }
}

/// The number that the term's value is, and the turns that it took; None where the value is no number.
#[cycle(eval)]
fn eval_number(scope: &Scope<'_, '_>, t: &Term, turns: u64) -> Result<(Option<u64>, u64), EvalError>
    requires fits { ScopeHasRoom scope.now turns }
    ensures ends { Ends (number_in scope.now t.now) turns result }
    ensures within { IfOk result (λ p. p.1 ≤ turns) }
{
    let (v, used) = eval_term(scope, t, turns)?;
    Ok((v.as_number(), used))
}

/// Whether the measure of the first half of the values is below that of the second: a turn, and both
/// measures.
#[cycle(eval)]
fn ask_order(
    set: &Setting<'_>,
    measure: &Term,
    args: &[Value],
    turns: u64,
) -> Result<(bool, u64), EvalError>
    requires args { HaveRoom turns args.now }
    requires light { nodes measure.now ≤ all_nodes set.now }
    ensures ends { Ends (order_at set.now measure.now args.now) turns result }
    ensures within { IfOk result (λ p. p.1 ≤ turns) }
{
    if turns == 0 {
        return Err(EvalError::TurnsSpent);
    }
    let first = Scope {
        set: &*set,
        inputs: &[],
        values: front(args),
    };
    let second = Scope {
        set: &*set,
        inputs: &[],
        values: back(args),
    };
    let (m, used) = eval_number(&first, measure, turns - 1)?;
    let (n, more) = eval_number(&second, measure, turns - 1 - used)?;
    match is_below(m, n) {
        None => Err(EvalError::TurnsSpent),
        Some(is) => Ok((is, 1 + (used + more))),
    }
}

/// The first half of the values.
fn front(args: &[Value]) -> &[Value]
    ensures { result.now ≡ take (half (length args.now)) args.now }
{
    &args[..half(args.len())]
}

/// The second half of the values.
fn back(args: &[Value]) -> &[Value]
    ensures { result.now ≡ drop (half (length args.now)) args.now }
{
    &args[half(args.len())..]
}

/// Half of the number, rounded down.
fn half(n: usize) -> usize
    ensures half { result ≡ half n }
    ensures within { result ≤ n }
{
    n / 2
}

/// Whether the first number is below the second; None where one of the two isn't there.
fn is_below(first: Option<u64>, second: Option<u64>) -> Option<bool>
    ensures { option_map (λ b. record { result = b; turns = 0 }) result ≡ smaller first second }
{
    match first {
        None => None,
        Some(m) => match second {
            None => None,
            Some(n) => Some(m < n),
        },
    }
}

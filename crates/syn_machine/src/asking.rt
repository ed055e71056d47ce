// A relation or an order on the last values of the list.
ghost use Rattle.std.specs.Prelude.{◌<◌, ◌≤◌, drop, length, map};
ghost use Rattle.syn_term.specs.Terms.{nodes};
ghost use Rattle.syn_form.specs.Trees.{form_nodes};
ghost use Rattle.syn_model.specs.Calls.{Meaning};
ghost use Rattle.syn_eval.specs.inner.Rules.{choice_seen, rule_seen};
ghost use Rattle.syn_eval.specs.inner.Scopes.{HaveRoom, order_at, relation_at};
ghost use Rattle.syn_eval.specs.inner.Weights.{AreLightForms, all_nodes};
ghost use Rattle.syn_machine.specs.declared.frames.Frame.TheVariants as frame;
ghost use Rattle.syn_machine.specs.inner.Frames.{do_atom};
ghost use Rattle.syn_machine.specs.inner.Steps.{DoesIn, HasRoomAfter, StepsFrom, relation_entered, tell_at};
ghost use Rattle.syn_machine.specs.inner.Weights.{GetsLighter, frame_weight};

use crate::frames::{Frame, Scope, Work};
use crate::lists::{behind, cut};
use syn_eval::{Chosen, EvalError, Rule, Setting, choose};
use syn_form::Form;
use syn_term::{Kind, SymId, Term};

/// The next argument of the symbol, or the symbol on all of them.
pub(crate) fn next_asked<'a, 's: 'a>(
    set: &'a Setting<'s>,
    scope: Scope,
    symbol: SymId,
    count: usize,
    rest: &'a [Term],
    left: u64,
    work: &mut Work<'a>,
) -> Result<u64, EvalError>
    requires { HaveRoom left work.old.values }
    ensures does { DoesIn set.now left (frame.Ask scope symbol count rest.entry) work.old work.new result }
    ensures lighter { GetsLighter set.now (frame_weight (frame.Ask scope symbol count rest.entry)) work.old work.new result }
    ensures room { HasRoomAfter left work.new result }
{
    match rest {
        [] => ask(set, symbol, count, left, work),
        [term, more @ ..] => {
            work.frames.push(Frame::Ask {
                scope,
                symbol,
                count,
                rest: more,
            })?;
            work.frames.push(Frame::Term { scope, term })?;
            Ok(0)
        }
    }
}

/// The symbol on so many values, the last ones.
fn ask<'a, 's: 'a>(
    set: &'a Setting<'s>,
    r: SymId,
    count: usize,
    left: u64,
    work: &mut Work<'a>,
) -> Result<u64, EvalError>
    requires { HaveRoom left work.old.values }
    ensures does { StepsFrom set.now left (λ n. do_atom set.now n r count) work.old work.new result }
    ensures lighter { GetsLighter set.now 1 work.old work.new result }
    ensures room { HasRoomAfter left work.new result }
{
    let len = work.values.len();
    if len < count {
        return Err(EvalError::TurnsSpent);
    }
    let base = len - count;
    match set.entry(r) {
        None => Err(EvalError::TurnsSpent),
        Some(entry) => match entry.kind {
            Kind::Rel => ask_relation(set, entry.relations.as_slice(), base, left, work),
            Kind::Order => match entry.measure {
                None => Err(EvalError::TurnsSpent),
                Some(measure) => ask_order(&*measure, base, left, work),
            },
            _ => Err(EvalError::TurnsSpent),
        },
    }
}

/// The relation with these clauses: a turn, and the body of the clause that fits is next.
fn ask_relation<'a, 's: 'a>(
    set: &'a Setting<'s>,
    rules: &'a [Rule<'s, Form>],
    base: usize,
    left: u64,
    work: &mut Work<'a>,
) -> Result<u64, EvalError>
    requires within { base ≤ length work.old.values }
    requires fits { HaveRoom left work.old.values }
    requires light { AreLightForms set.now (map rule_seen rules.now) }
    ensures does { StepsFrom set.now left (λ n h. tell_at base h (relation_at set.now (map rule_seen rules.now) (drop base h.values) n)) work.old work.new result }
    ensures lighter { GetsLighter set.now 1 work.old work.new result }
    ensures room { HasRoomAfter left work.new result }
{
    if left == 0 {
        return Err(EvalError::TurnsSpent);
    }
    match choose(
        set.alloc(),
        set.symbols(),
        rules,
        behind(work.values.as_slice(), base),
    )? {
        None => Err(EvalError::TurnsSpent),
        Some(chosen) => enter(chosen, base, work),
    }
}

/// The body of the clause is next, and the values of its variables stand from the place on.
fn enter<'a, 's: 'a>(
    chosen: Chosen<'s, Form>,
    base: usize,
    work: &mut Work<'a>,
) -> Result<u64, EvalError>
    requires { base ≤ length work.old.values }
    ensures does { (m : Meaning) (left : _) → 0 < left → StepsFrom m left (λ n h. tell_at base h (relation_entered m (choice_seen chosen.entry) n)) work.old work.new result }
    ensures lighter { (m : Meaning) → form_nodes chosen.entry.body.now ≤ all_nodes m → GetsLighter m 1 work.old work.new result }
    ensures room { (left : _) → HaveRoom left work.old.values → HaveRoom left chosen.entry.values → HasRoomAfter left work.new result }
{
    let Chosen { body, values } = chosen;
    cut(&mut work.values, base);
    work.values.append(values)?;
    let scope = Scope::Variables {
        from: base,
        to: work.values.len(),
    };
    work.frames.push(Frame::Forget { base })?;
    work.frames.push(Frame::Form {
        scope,
        form: &*body,
    })?;
    Ok(1)
}

/// The order with this measure: a turn, and its measure is next, on the first half of the values and
/// then on the second.
fn ask_order<'a>(
    measure: &'a Term,
    base: usize,
    left: u64,
    work: &mut Work<'a>,
) -> Result<u64, EvalError>
    requires within { base ≤ length work.old.values }
    requires fits { HaveRoom left work.old.values }
    ensures does { (m : Meaning) → StepsFrom m left (λ n h. tell_at base h (order_at m measure.entry.now (drop base h.values) n)) work.old work.new result }
    ensures lighter { (m : Meaning) → nodes measure.entry.now ≤ all_nodes m → GetsLighter m 1 work.old work.new result }
    ensures room { HasRoomAfter left work.new result }
{
    if left == 0 {
        return Err(EvalError::TurnsSpent);
    }
    let end = work.values.len();
    let middle = base + (end - base) / 2;
    let first = Scope::Variables {
        from: base,
        to: middle,
    };
    let second = Scope::Variables {
        from: middle,
        to: end,
    };
    work.frames.push(Frame::Below { base })?;
    work.frames.push(Frame::Term {
        scope: second,
        term: measure,
    })?;
    work.frames.push(Frame::Term {
        scope: first,
        term: measure,
    })?;
    Ok(1)
}

// The truth values of formulas: all members of a connective are evaluated, from left to right.
ghost use Rattle.std.specs.Prelude.{◌≡◌, ◌≤◌, [], ◌∷◌, Ok, OnOk, length};
ghost use Rattle.syn_machine.specs.declared.frames.Connective.TheVariants as connectives;
ghost use Rattle.syn_machine.specs.declared.frames.Frame.TheVariants as frame;
ghost use Rattle.syn_machine.specs.inner.Frames.{end_of, joined_by};
ghost use Rattle.syn_model.specs.Calls.{Meaning};
ghost use Rattle.syn_machine.specs.inner.Steps.{Does, KeepsRoom, Puts};
ghost use Rattle.syn_machine.specs.inner.Weights.{GetsLighter, frame_weight};

use crate::frames::{Connective, Frame, Scope, Work};
use syn_eval::EvalError;
use syn_form::Form;
use syn_term::{NoMemory, SymId, Term};

/// The truth value of the formula.
pub(crate) fn open_form<'a>(
    scope: Scope,
    form: &'a Form,
    work: &mut Work<'a>,
) -> Result<u64, EvalError>
    ensures does { Does (frame.Form scope form.entry) work.old work.new result }
    ensures lighter { (m : Meaning) → GetsLighter m (frame_weight (frame.Form scope form.entry)) work.old work.new result }
    ensures room { KeepsRoom work.old work.new result }
{
    if work.values.len() < scope.end() {
        return Err(EvalError::TurnsSpent);
    }
    put_form(scope, form, work)?;
    Ok(0)
}

/// Puts down what the truth value of the formula asks for.
fn put_form<'a>(scope: Scope, form: &'a Form, work: &mut Work<'a>) -> Result<(), NoMemory>
    requires { end_of scope ≤ length work.old.values }
    ensures does { OnOk result (Does (frame.Form scope form.entry) work.old work.new (Ok 0)) }
    ensures lighter { OnOk result ((m : Meaning) → GetsLighter m (frame_weight (frame.Form scope form.entry)) work.old work.new (Ok 0)) }
    ensures values { OnOk result (work.new.values ≡ work.old.values) }
{
    match form {
        Form::True => put_truth(true, work),
        Form::False => put_truth(false, work),
        Form::Atom(r, args) => open_atom(scope, *r, args.get().as_slice(), work),
        Form::Equal(first, second) => open_equal(scope, first, second, work),
        Form::Not(a) => open_not(scope, a.get(), work),
        Form::And(all) => open_chain(scope, Connective::And, true, all.get().as_slice(), work),
        Form::Or(all) => open_chain(scope, Connective::Or, false, all.get().as_slice(), work),
        Form::Implies(a, b) => open_implies(scope, a.get(), b.get(), work),
    }
}

/// The truth value.
fn put_truth(is: bool, work: &mut Work<'_>) -> Result<(), NoMemory>
    ensures frames { OnOk result (work.new.frames ≡ work.old.frames) }
    ensures values { OnOk result (work.new.values ≡ work.old.values) }
    ensures truths { OnOk result (work.new.truths ≡ is ∷ work.old.truths) }
{
    work.truths.push(is)?;
    Ok(())
}

/// The values of the arguments, and the symbol on them.
fn open_atom<'a>(
    scope: Scope,
    symbol: SymId,
    rest: &'a [Term],
    work: &mut Work<'a>,
) -> Result<(), NoMemory>
    ensures { OnOk result (Puts (frame.Ask scope symbol (length rest.now) rest.entry ∷ []) work.old work.new) }
{
    work.frames.push(Frame::Ask {
        scope,
        symbol,
        count: rest.len(),
        rest,
    })?;
    Ok(())
}

/// The truth value of the formula, and the other one in its place.
fn open_not<'a>(scope: Scope, form: &'a Form, work: &mut Work<'a>) -> Result<(), NoMemory>
    ensures { OnOk result (Puts (frame.Form scope form.entry ∷ (frame.Not ∷ [])) work.old work.new) }
{
    work.frames.push(Frame::Not)?;
    work.frames.push(Frame::Form { scope, form })?;
    Ok(())
}

/// Both values, and whether they are the same.
fn open_equal<'a>(
    scope: Scope,
    first: &'a Term,
    second: &'a Term,
    work: &mut Work<'a>,
) -> Result<(), NoMemory>
    ensures { OnOk result (Puts (frame.Term scope first.entry ∷ (frame.Term scope second.entry ∷ (frame.Same ∷ []))) work.old work.new) }
{
    work.frames.push(Frame::Same)?;
    work.frames.push(Frame::Term {
        scope,
        term: second,
    })?;
    work.frames.push(Frame::Term { scope, term: first })?;
    Ok(())
}

/// The truth values of the members, joined with this one.
fn open_chain<'a>(
    scope: Scope,
    connective: Connective,
    is: bool,
    rest: &'a [Form],
    work: &mut Work<'a>,
) -> Result<(), NoMemory>
    ensures frames { OnOk result (work.new.frames ≡ frame.Chain scope connective rest.entry ∷ work.old.frames) }
    ensures values { OnOk result (work.new.values ≡ work.old.values) }
    ensures truths { OnOk result (work.new.truths ≡ is ∷ work.old.truths) }
{
    work.truths.push(is)?;
    work.frames.push(Frame::Chain {
        scope,
        connective,
        rest,
    })?;
    Ok(())
}

/// Both truth values, and whether the first implies the second.
fn open_implies<'a>(
    scope: Scope,
    first: &'a Form,
    second: &'a Form,
    work: &mut Work<'a>,
) -> Result<(), NoMemory>
    ensures { OnOk result (Puts (frame.Form scope first.entry ∷ (frame.Form scope second.entry ∷ (frame.Join connectives.Implies ∷ []))) work.old work.new) }
{
    work.frames.push(Frame::Join {
        connective: Connective::Implies,
    })?;
    work.frames.push(Frame::Form {
        scope,
        form: second,
    })?;
    work.frames.push(Frame::Form { scope, form: first })?;
    Ok(())
}

/// The next member of a connective, if there is one more.
pub(crate) fn next_member<'a>(
    scope: Scope,
    connective: Connective,
    rest: &'a [Form],
    work: &mut Work<'a>,
) -> Result<u64, EvalError>
    ensures does { Does (frame.Chain scope connective rest.entry) work.old work.new result }
    ensures lighter { (m : Meaning) → GetsLighter m (frame_weight (frame.Chain scope connective rest.entry)) work.old work.new result }
    ensures room { KeepsRoom work.old work.new result }
{
    match rest {
        [] => Ok(0),
        [form, more @ ..] => {
            work.frames.push(Frame::Chain {
                scope,
                connective,
                rest: more,
            })?;
            work.frames.push(Frame::Join { connective })?;
            work.frames.push(Frame::Form { scope, form })?;
            Ok(0)
        }
    }
}

/// The truth value of the connective on the two.
fn joined(connective: Connective, first: bool, second: bool) -> bool
    ensures { result ≡ joined_by connective first second }
{
    match connective {
        Connective::And => first && second,
        Connective::Or => first || second,
        Connective::Implies => !first || second,
    }
}

/// The last two truth values joined.
pub(crate) fn join(connective: Connective, work: &mut Work<'_>) -> Result<u64, EvalError>
    ensures does { Does (frame.Join connective) work.old work.new result }
    ensures lighter { (m : Meaning) → GetsLighter m (frame_weight (frame.Join connective)) work.old work.new result }
    ensures room { KeepsRoom work.old work.new result }
{
    match work.truths.pop() {
        None => Err(EvalError::TurnsSpent),
        Some(second) => match work.truths.pop() {
            None => Err(EvalError::TurnsSpent),
            Some(first) => {
                work.truths.push(joined(connective, first, second))?;
                Ok(0)
            }
        },
    }
}

/// The other truth value in place of the last.
pub(crate) fn negate(work: &mut Work<'_>) -> Result<u64, EvalError>
    ensures does { Does (frame.Not) work.old work.new result }
    ensures lighter { (m : Meaning) → GetsLighter m (frame_weight (frame.Not)) work.old work.new result }
    ensures room { KeepsRoom work.old work.new result }
{
    match work.truths.pop() {
        None => Err(EvalError::TurnsSpent),
        Some(is) => {
            work.truths.push(!is)?;
            Ok(0)
        }
    }
}

/// Whether the last two values are the same.
pub(crate) fn compare(work: &mut Work<'_>) -> Result<u64, EvalError>
    ensures does { Does (frame.Same) work.old work.new result }
    ensures lighter { (m : Meaning) → GetsLighter m (frame_weight (frame.Same)) work.old work.new result }
    ensures room { KeepsRoom work.old work.new result }
{
    match work.values.pop() {
        None => Err(EvalError::TurnsSpent),
        Some(second) => match work.values.pop() {
            None => {
                drop(second);
                Err(EvalError::TurnsSpent)
            }
            Some(first) => {
                let is = first.same(&second);
                drop(first);
                drop(second);
                work.truths.push(is)?;
                Ok(0)
            }
        },
    }
}

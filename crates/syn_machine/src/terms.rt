// The values of terms: a variable is read, and an application asks for its arguments first.
ghost use Rattle.syn_eval.specs.inner.Scopes.{HaveRoom};
ghost use Rattle.syn_machine.specs.declared.frames.Frame.TheVariants as frame;
ghost use Rattle.syn_model.specs.Calls.{Meaning};
ghost use Rattle.syn_machine.specs.inner.Steps.{Does, DoesIn, HasRoomAfter, KeepsRoom};
ghost use Rattle.syn_machine.specs.inner.Weights.{GetsLighter, frame_weight};

use crate::calling::apply;
use crate::frames::{Frame, Scope, Work};
use syn_eval::{EvalError, Setting, variable_value};
use syn_term::{Node, SymId, Term};

/// The value of the term.
pub(crate) fn open_term<'a>(
    scope: Scope,
    term: &'a Term,
    work: &mut Work<'a>,
) -> Result<u64, EvalError>
    ensures does { Does (frame.Term scope term.entry) work.old work.new result }
    ensures lighter { (m : Meaning) → GetsLighter m (frame_weight (frame.Term scope term.entry)) work.old work.new result }
    ensures room { KeepsRoom work.old work.new result }
{
    if work.values.len() < scope.end() {
        return Err(EvalError::TurnsSpent);
    }
    match term.get() {
        Node::Var(_, v) => {
            let value = variable_value(scope.variables(work.values.as_slice()), v.number)?;
            work.values.push(value)?;
        }
        Node::App(_, f, args) => work.frames.push(Frame::Apply {
            scope,
            symbol: *f,
            count: args.len(),
            rest: args.as_slice(),
        })?,
    }
    Ok(0)
}

/// The next argument of the symbol, or the symbol on all of them.
pub(crate) fn next_argument<'a, 's: 'a>(
    set: &'a Setting<'s>,
    scope: Scope,
    symbol: SymId,
    count: usize,
    rest: &'a [Term],
    left: u64,
    work: &mut Work<'a>,
) -> Result<u64, EvalError>
    requires { HaveRoom left work.old.values }
    ensures does { DoesIn set.now left (frame.Apply scope symbol count rest.entry) work.old work.new result }
    ensures lighter { GetsLighter set.now (frame_weight (frame.Apply scope symbol count rest.entry)) work.old work.new result }
    ensures room { HasRoomAfter left work.new result }
{
    match rest {
        [] => apply(set, scope, symbol, count, left, work),
        [term, more @ ..] => {
            work.frames.push(Frame::Apply {
                scope,
                symbol,
                count,
                rest: more,
            })?;
            work.frames.push(Frame::Term { scope, term })?;
            Ok(0)
        }
    }
}

// The values of outputs: the test, and then one arm.
ghost use Rattle.syn_machine.specs.declared.frames.Frame.TheVariants as frame;
ghost use Rattle.syn_model.specs.Calls.{Meaning};
ghost use Rattle.syn_machine.specs.inner.Steps.{Does, KeepsRoom};
ghost use Rattle.syn_machine.specs.inner.Weights.{GetsLighter, frame_weight};

use crate::frames::{Frame, Scope, Work};
use syn_eval::EvalError;
use syn_form::Out;

/// The value of the output.
pub(crate) fn open_out<'a>(
    scope: Scope,
    out: &'a Out,
    work: &mut Work<'a>,
) -> Result<u64, EvalError>
    ensures does { Does (frame.Out scope out.entry) work.old work.new result }
    ensures lighter { (m : Meaning) → GetsLighter m (frame_weight (frame.Out scope out.entry)) work.old work.new result }
    ensures room { KeepsRoom work.old work.new result }
{
    match out {
        Out::Give(term) => work.frames.push(Frame::Term { scope, term })?,
        Out::If(test, first, second) => {
            work.frames.push(Frame::Choose {
                scope,
                first: first.get(),
                second: second.get(),
            })?;
            work.frames.push(Frame::Form {
                scope,
                form: test.get(),
            })?;
        }
    }
    Ok(0)
}

/// The arm that the last truth value tells is next.
pub(crate) fn take_arm<'a>(
    scope: Scope,
    first: &'a Out,
    second: &'a Out,
    work: &mut Work<'a>,
) -> Result<u64, EvalError>
    ensures does { Does (frame.Choose scope first.entry second.entry) work.old work.new result }
    ensures lighter { (m : Meaning) → GetsLighter m (frame_weight (frame.Choose scope first.entry second.entry)) work.old work.new result }
    ensures room { KeepsRoom work.old work.new result }
{
    match work.truths.pop() {
        None => Err(EvalError::TurnsSpent),
        Some(is) => {
            let out = if is { first } else { second };
            work.frames.push(Frame::Out { scope, out })?;
            Ok(0)
        }
    }
}

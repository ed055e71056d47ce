// The ends of calls: what a call put on the list of values is let go of.
ghost use Rattle.syn_machine.specs.declared.frames.Frame.TheVariants as frame;
ghost use Rattle.syn_model.specs.Calls.{Meaning};
ghost use Rattle.syn_machine.specs.inner.Steps.{Does, KeepsRoom, TakesNumber};
ghost use Rattle.syn_machine.specs.inner.Weights.{GetsLighter, frame_weight};

use crate::frames::Work;
use crate::lists::cut;
use syn_eval::EvalError;

/// Lets go of the values from the place on, but for the last.
pub(crate) fn give_back(base: usize, work: &mut Work<'_>) -> Result<u64, EvalError>
    ensures does { Does (frame.Return base) work.old work.new result }
    ensures lighter { (m : Meaning) → GetsLighter m (frame_weight (frame.Return base)) work.old work.new result }
    ensures room { KeepsRoom work.old work.new result }
{
    match work.values.pop() {
        None => Err(EvalError::TurnsSpent),
        Some(value) => {
            cut(&mut work.values, base);
            work.values.push(value)?;
            Ok(0)
        }
    }
}

/// Lets go of the values from the place on.
pub(crate) fn forget(base: usize, work: &mut Work<'_>) -> Result<u64, EvalError>
    ensures does { Does (frame.Forget base) work.old work.new result }
    ensures lighter { (m : Meaning) → GetsLighter m (frame_weight (frame.Forget base)) work.old work.new result }
    ensures room { KeepsRoom work.old work.new result }
{
    cut(&mut work.values, base);
    Ok(0)
}

/// The number that the last value is, which is let go of. None: it is no number, or there is none.
fn last_number(work: &mut Work<'_>) -> Option<u64>
    ensures { TakesNumber work.old work.new result }
{
    match work.values.pop() {
        None => None,
        Some(value) => value.as_number(),
    }
}

/// Whether the last value but one is a smaller number than the last.
pub(crate) fn tell_below(base: usize, work: &mut Work<'_>) -> Result<u64, EvalError>
    ensures does { Does (frame.Below base) work.old work.new result }
    ensures lighter { (m : Meaning) → GetsLighter m (frame_weight (frame.Below base)) work.old work.new result }
    ensures room { KeepsRoom work.old work.new result }
{
    match last_number(work) {
        None => Err(EvalError::TurnsSpent),
        Some(second) => match last_number(work) {
            None => Err(EvalError::TurnsSpent),
            Some(first) => {
                cut(&mut work.values, base);
                work.truths.push(first < second)?;
                Ok(0)
            }
        },
    }
}

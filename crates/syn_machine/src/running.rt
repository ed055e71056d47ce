// The machine: one frame after another, until none is left.
ghost use Rattle.std.specs.Prelude.{◌≡◌, false};
ghost use Rattle.syn_model.specs.Calls.{Meaning};
ghost use Rattle.syn_model.specs.Evaluation.{free};
ghost use Rattle.syn_eval.specs.inner.Scopes.{HaveRoom};
ghost use Rattle.syn_machine.specs.inner.Frames.{held, opens};
ghost use Rattle.syn_machine.specs.inner.Steps.{Does, DoesIn, HasRoomAfter, KeepsRoom, Steps, all_of};
ghost use Rattle.syn_machine.specs.inner.Weights.{GetsLighter, frame_weight};

use crate::asking::next_asked;
use crate::forms::{compare, join, negate, next_member, open_form};
use crate::frames::{Frame, Work};
use crate::outputs::{open_out, take_arm};
use crate::returning::{forget, give_back, tell_below};
use crate::terms::{next_argument, open_term};
use syn_eval::{EvalError, Setting};

/// Does what the frame says, and tells the turns that it took.
fn step<'a, 's: 'a>(
    set: &'a Setting<'s>,
    frame: Frame<'a>,
    left: u64,
    work: &mut Work<'a>,
) -> Result<u64, EvalError>
    requires { HaveRoom left work.old.values }
    ensures does { DoesIn set.now left frame.entry work.old work.new result }
    ensures lighter { GetsLighter set.now (frame_weight frame.entry) work.old work.new result }
    ensures room { HasRoomAfter left work.new result }
{
    match frame {
        Frame::Term { scope, term } => open_term(scope, term, work),
        Frame::Apply {
            scope,
            symbol,
            count,
            rest,
        } => next_argument(set, scope, symbol, count, rest, left, work),
        Frame::Form { scope, form } => open_form(scope, form, work),
        Frame::Ask {
            scope,
            symbol,
            count,
            rest,
        } => next_asked(set, scope, symbol, count, rest, left, work),
        Frame::Out { scope, out } => open_out(scope, out, work),
        other => settle(other, work),
    }
}

/// Does what a frame says that opens nothing: it goes on with what others put on the lists.
fn settle<'a>(frame: Frame<'a>, work: &mut Work<'a>) -> Result<u64, EvalError>
    requires { opens frame ≡ false }
    ensures does { Does frame.entry work.old work.new result }
    ensures lighter { (m : Meaning) → GetsLighter m (frame_weight frame.entry) work.old work.new result }
    ensures room { KeepsRoom work.old work.new result }
{
    match frame {
        Frame::Same => compare(work),
        Frame::Not => negate(work),
        Frame::Chain {
            scope,
            connective,
            rest,
        } => next_member(scope, connective, rest, work),
        Frame::Join { connective } => join(connective, work),
        Frame::Choose {
            scope,
            first,
            second,
        } => take_arm(scope, first, second, work),
        Frame::Return { base } => give_back(base, work),
        Frame::Forget { base } => forget(base, work),
        Frame::Below { base } => tell_below(base, work),
        _ => unreachable!(),
    }
}

/// Does all that is to do, and tells the turns that it took.
pub(crate) fn run<'a, 's: 'a>(
    set: &'a Setting<'s>,
    work: &mut Work<'a>,
    turns: u64,
) -> Result<u64, EvalError>
    requires { HaveRoom turns work.old.values }
    ensures does { Steps turns (all_of set.now work.old) (λ _. free (held work.new)) result }
    ensures room { HasRoomAfter turns work.new result }
{
    let mut left = turns;
    while let Some(frame) = work.frames.pop() {
        left -= step(set, frame, left, &mut *work)?;
    }
    Ok(turns - left)
}

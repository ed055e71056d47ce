// Positions at the front of words: `-`, or numbers with full stops between; and several with commas.
ghost use Rattle.std.specs.Prelude.{◌≡◌, None, Some, IfOk, MatchOption, true};
ghost use Rattle.syn_deriv.specs.inner.Firsts.{got};
ghost use Rattle.syn_deriv.specs.inner.StepReading as reading;

use crate::cursor::Cursor;
use sqlite_items::Items;
use std::alloc::Global;
use syn_term::{NoMemory, Pos};

impl<'a> Cursor<'a> {
    /// The numbers at the front, with full stops between. The one error of each of these is want of memory.
    fn steps(&mut self, alloc: Global) -> Result<Option<Pos>, NoMemory>
        ensures { IfOk result (λ o. MatchOption o (reading.steps_on true self.old.left ≡ None) (λ p. reading.steps_on true self.old.left ≡ Some (got p self.new.left))) }
    {
        let mut steps = Pos::root(alloc);
        while let Some(number) = self.number() {
            steps.push(number)?;
            if !self.sign(b".") {
                return Ok(Some(steps));
            }
        }
        Ok(None)
    }

    /// The position at the front.
    pub(crate) fn position(&mut self, alloc: Global) -> Result<Option<Pos>, NoMemory>
        ensures { IfOk result (λ o. MatchOption o (reading.position_first self.old.left ≡ None) (λ p. reading.position_first self.old.left ≡ Some (got p self.new.left))) }
    {
        if self.sign(b"-") {
            return Ok(Some(Pos::root(alloc)));
        }
        self.steps(alloc)
    }

    /// The positions at the front, with commas between.
    pub(crate) fn positions(&mut self, alloc: Global) -> Result<Option<Items<Pos>>, NoMemory>
        ensures { IfOk result (λ o. MatchOption o (reading.positions_first self.old.left ≡ None) (λ ps. reading.positions_first self.old.left ≡ Some (got ps self.new.left))) }
    {
        let mut positions = Items::new(alloc);
        while let Some(position) = self.position(alloc)? {
            positions.push(position)?;
            if !self.sign(b",") {
                return Ok(Some(positions));
            }
        }
        Ok(None)
    }
}

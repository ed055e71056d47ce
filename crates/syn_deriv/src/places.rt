// What rules name of the rows before: a row with positions in it, and the two parts of a replacement.
ghost use Rattle.std.specs.Prelude.{◌≡◌, None, Some, IfOk, MatchOption};
ghost use Rattle.syn_deriv.specs.inner.Firsts.{got};
ghost use Rattle.syn_deriv.specs.inner.StepReading as reading;

use crate::cursor::{Cursor, is_text};
use sqlite_items::Items;
use std::alloc::Global;
use syn_row::Dir;
use syn_term::{NoMemory, Pos};

/// A row, and a position in it.
#[derive(Drop)]
pub(crate) struct RowPosition {
    pub(crate) row: u32,
    pub(crate) at: Pos,
}

/// A row, and positions in it.
#[derive(Drop)]
pub(crate) struct RowPositions {
    pub(crate) row: u32,
    pub(crate) at: Items<Pos>,
}

/// What a replacement names: the equality or atom that is used, which way, and the place that is changed.
#[derive(Drop)]
pub(crate) struct Replacement {
    pub(crate) used: RowPosition,
    pub(crate) way: Dir,
    pub(crate) changed: RowPosition,
}

/// The direction that the name is: from the left to the right, or back.
fn direction_of(name: &str) -> Option<Dir>
    ensures { result ≡ reading.direction_of name.now }
{
    if is_text(name, "lr") {
        Some(Dir::Lr)
    } else if is_text(name, "rl") {
        Some(Dir::Rl)
    } else {
        None
    }
}

impl<'a> Cursor<'a> {
    /// The direction at the front, `lr` or `rl`.
    fn direction(&mut self) -> Option<Dir>
        ensures { MatchOption result (reading.direction_first self.old.left ≡ None) (λ d. reading.direction_first self.old.left ≡ Some (got d self.new.left)) }
    {
        match self.name() {
            None => None,
            Some(name) => direction_of(name),
        }
    }

    /// `N POS`. The one error of each of these is want of memory.
    fn row_position(&mut self, alloc: Global) -> Result<Option<RowPosition>, NoMemory>
        ensures { IfOk result (λ o. MatchOption o (reading.row_position_first self.old.left ≡ None) (λ p. reading.row_position_first self.old.left ≡ Some (got p self.new.left))) }
    {
        let Some(row) = self.number() else {
            return Ok(None);
        };
        match self.position(alloc)? {
            None => Ok(None),
            Some(at) => Ok(Some(RowPosition { row, at })),
        }
    }

    /// `N POS,..`.
    pub(crate) fn row_positions(&mut self, alloc: Global) -> Result<Option<RowPositions>, NoMemory>
        ensures { IfOk result (λ o. MatchOption o (reading.row_positions_first self.old.left ≡ None) (λ p. reading.row_positions_first self.old.left ≡ Some (got p self.new.left))) }
    {
        let Some(row) = self.number() else {
            return Ok(None);
        };
        match self.positions(alloc)? {
            None => Ok(None),
            Some(at) => Ok(Some(RowPositions { row, at })),
        }
    }

    /// `lr N POS`, behind the equality or atom that is used.
    fn changed(&mut self, alloc: Global, used: RowPosition) -> Result<Option<Replacement>, NoMemory>
        ensures { IfOk result (λ o. MatchOption o (reading.changed_first used self.old.left ≡ None) (λ u. reading.changed_first used self.old.left ≡ Some (got u self.new.left))) }
    {
        let Some(way) = self.direction() else {
            drop(used);
            return Ok(None);
        };
        match self.row_position(alloc) {
            Ok(Some(changed)) => Ok(Some(Replacement { used, way, changed })),
            Ok(None) => {
                drop(used);
                Ok(None)
            }
            Err(error) => {
                drop(used);
                Err(error)
            }
        }
    }

    /// `N POS lr N POS`.
    pub(crate) fn replacement(&mut self, alloc: Global) -> Result<Option<Replacement>, NoMemory>
        ensures { IfOk result (λ o. MatchOption o (reading.replacement_first self.old.left ≡ None) (λ u. reading.replacement_first self.old.left ≡ Some (got u self.new.left))) }
    {
        match self.row_position(alloc)? {
            None => Ok(None),
            Some(used) => self.changed(alloc, used),
        }
    }
}

// The rule of a row's line, read from the left.
ghost use Rattle.std.specs.Prelude.{◌≡◌, None, Some, IfOk, MatchOption};
ghost use Rattle.syn_deriv.specs.inner.Firsts.{got};
ghost use Rattle.syn_deriv.specs.inner.StepReading as reading;

use crate::cursor::{Cursor, is_text};
use crate::places::{Replacement, RowPosition, RowPositions};
use std::alloc::Global;
use syn_start::{Origin, Step};
use syn_term::{NoMemory, Text};

/// The replacement by an equality.
fn equality_step(made: Replacement) -> Step
    ensures { result ≡ reading.equality_step made }
{
    let Replacement { used, way, changed } = made;
    let RowPosition { row: first, at } = used;
    let RowPosition {
        row: second,
        at: place,
    } = changed;
    Step::Equal {
        first,
        at,
        dir: way,
        second,
        place,
    }
}

/// The same by an atom of two arguments.
fn relation_step(made: Replacement) -> Step
    ensures { result ≡ reading.relation_step made }
{
    let Replacement { used, way, changed } = made;
    let RowPosition { row: first, at } = used;
    let RowPosition {
        row: second,
        at: place,
    } = changed;
    Step::Relate {
        first,
        at,
        dir: way,
        second,
        place,
    }
}

impl<'a> Cursor<'a> {
    /// `NAME`, behind `axiom`. The one error of each of these is want of memory.
    fn axiom_step(&mut self, alloc: Global) -> Result<Option<Step>, NoMemory>
        ensures { IfOk result (λ o. MatchOption o (reading.axiom_first self.old.left ≡ None) (λ s. reading.axiom_first self.old.left ≡ Some (got s self.new.left))) }
    {
        match self.free_name() {
            None => Ok(None),
            Some(name) => Ok(Some(Step::Start(Origin::Axiom(Text::from_str(alloc, name)?)))),
        }
    }

    /// `NAME K`, behind `def`.
    fn def_step(&mut self, alloc: Global) -> Result<Option<Step>, NoMemory>
        ensures { IfOk result (λ o. MatchOption o (reading.def_first self.old.left ≡ None) (λ s. reading.def_first self.old.left ≡ Some (got s self.new.left))) }
    {
        let Some(name) = self.free_name() else {
            return Ok(None);
        };
        match self.number() {
            None => Ok(None),
            Some(clause) => {
                let name = Text::from_str(alloc, name)?;
                Ok(Some(Step::Start(Origin::Def { name, clause })))
            }
        }
    }

    /// `N I`, behind `split`.
    fn split_step(&mut self) -> Option<Step>
        ensures { MatchOption result (reading.split_first self.old.left ≡ None) (λ s. reading.split_first self.old.left ≡ Some (got s self.new.left)) }
    {
        match self.number() {
            None => None,
            Some(row) => match self.number() {
                None => None,
                Some(member) => Some(Step::Split { row, member }),
            },
        }
    }

    /// `N`, behind `dual`.
    fn dual_step(&mut self) -> Option<Step>
        ensures { MatchOption result (reading.dual_first self.old.left ≡ None) (λ s. reading.dual_first self.old.left ≡ Some (got s self.new.left)) }
    {
        match self.number() {
            None => None,
            Some(row) => Some(Step::Dual { row }),
        }
    }

    /// `N POS`, behind `reflex`.
    fn reflex_step(&mut self, alloc: Global) -> Result<Option<Step>, NoMemory>
        ensures { IfOk result (λ o. MatchOption o (reading.reflex_first self.old.left ≡ None) (λ s. reading.reflex_first self.old.left ≡ Some (got s self.new.left))) }
    {
        let Some(row) = self.number() else {
            return Ok(None);
        };
        match self.position(alloc)? {
            None => Ok(None),
            Some(at) => Ok(Some(Step::Reflex { row, at })),
        }
    }

    /// `N POS,..`, behind the positions in the first row.
    fn resolved_step(
        &mut self,
        alloc: Global,
        first: RowPositions,
    ) -> Result<Option<Step>, NoMemory>
        ensures { IfOk result (λ o. MatchOption o (reading.resolved_first first self.old.left ≡ None) (λ s. reading.resolved_first first self.old.left ≡ Some (got s self.new.left))) }
    {
        match self.row_positions(alloc) {
            Ok(Some(second)) => Ok(Some(Step::Resolve {
                first: first.row,
                ps: first.at,
                second: second.row,
                qs: second.at,
            })),
            Ok(None) => {
                drop(first);
                Ok(None)
            }
            Err(error) => {
                drop(first);
                Err(error)
            }
        }
    }

    /// `N POS,.. N POS,..`, behind `resolve`.
    fn resolve_step(&mut self, alloc: Global) -> Result<Option<Step>, NoMemory>
        ensures { IfOk result (λ o. MatchOption o (reading.resolve_first self.old.left ≡ None) (λ s. reading.resolve_first self.old.left ≡ Some (got s self.new.left))) }
    {
        match self.row_positions(alloc)? {
            None => Ok(None),
            Some(first) => self.resolved_step(alloc, first),
        }
    }

    /// `N POS lr N POS`, behind `equal`.
    fn equal_step(&mut self, alloc: Global) -> Result<Option<Step>, NoMemory>
        ensures { IfOk result (λ o. MatchOption o (reading.equal_first self.old.left ≡ None) (λ s. reading.equal_first self.old.left ≡ Some (got s self.new.left))) }
    {
        match self.replacement(alloc)? {
            None => Ok(None),
            Some(made) => Ok(Some(equality_step(made))),
        }
    }

    /// The same, behind `relate`.
    fn relate_step(&mut self, alloc: Global) -> Result<Option<Step>, NoMemory>
        ensures { IfOk result (λ o. MatchOption o (reading.relate_first self.old.left ≡ None) (λ s. reading.relate_first self.old.left ≡ Some (got s self.new.left))) }
    {
        match self.replacement(alloc)? {
            None => Ok(None),
            Some(made) => Ok(Some(relation_step(made))),
        }
    }

    /// A rule that takes rows, behind this word.
    fn rule_step(&mut self, alloc: Global, keyword: &str) -> Result<Option<Step>, NoMemory>
        ensures { IfOk result (λ o. MatchOption o (reading.rule_by keyword.now self.old.left ≡ None) (λ s. reading.rule_by keyword.now self.old.left ≡ Some (got s self.new.left))) }
    {
        if is_text(keyword, "equal") {
            return self.equal_step(alloc);
        }
        if is_text(keyword, "resolve") {
            return self.resolve_step(alloc);
        }
        if is_text(keyword, "reflex") {
            return self.reflex_step(alloc);
        }
        if is_text(keyword, "split") {
            return Ok(self.split_step());
        }
        if is_text(keyword, "dual") {
            return Ok(self.dual_step());
        }
        if is_text(keyword, "relate") {
            return self.relate_step(alloc);
        }
        Ok(None)
    }

    /// The step of the rule behind this word.
    fn step_by(&mut self, alloc: Global, keyword: &str) -> Result<Option<Step>, NoMemory>
        ensures { IfOk result (λ o. MatchOption o (reading.step_by keyword.now self.old.left ≡ None) (λ s. reading.step_by keyword.now self.old.left ≡ Some (got s self.new.left))) }
    {
        if is_text(keyword, "goal") {
            return Ok(Some(Step::Start(Origin::Goal)));
        }
        if is_text(keyword, "input") {
            return Ok(Some(Step::Start(Origin::Input)));
        }
        if is_text(keyword, "induct") {
            return Ok(Some(Step::Start(Origin::Induct)));
        }
        if is_text(keyword, "axiom") {
            return self.axiom_step(alloc);
        }
        if is_text(keyword, "def") {
            return self.def_step(alloc);
        }
        self.rule_step(alloc, keyword)
    }

    /// The step at the front.
    pub(crate) fn step(&mut self, alloc: Global) -> Result<Option<Step>, NoMemory>
        ensures { IfOk result (λ o. MatchOption o (reading.step_first self.old.left ≡ None) (λ s. reading.step_first self.old.left ≡ Some (got s self.new.left))) }
    {
        match self.name() {
            None => Ok(None),
            Some(keyword) => self.step_by(alloc, keyword),
        }
    }
}

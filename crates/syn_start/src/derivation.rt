// A derivation: rows one after another, each with the step that is said to give it.
ghost use Rattle.std.specs.Prelude.{◌≡◌, ◌++◌, ◌∷◌, [], OnErr, OnOk, slice_get};
ghost use Rattle.std.specs.Option.{option_map};
ghost use Rattle.syn_start.specs.Derivations.{line_at};

use crate::steps::Step;
use sqlite_items::Items;
use std::alloc::Global;
use std::marker::Model;
use syn_row::Row;
use syn_term::NoMemory;

/// A derivation. Contracts see it as the list of its lines, each a step and the row that is said to come
/// of it; whether it does is not asked here.
#[derive(Drop)]
pub struct Derivation {
    lines: Items<(Step, Row)>,
}

impl Model for Derivation {
    ghost use Rattle.std.specs.Coded.{codes};
    ghost use Rattle.syn_start.specs.Derivations.{Lines};
    ghost use Rattle.syn_start.specs.contracts.steps.Step as step;
    ghost use Rattle.syn_row.specs.contracts.rows.Row as row;

    ghost Value = { Lines };

    ghost coded = { Prim.hlevel (codes, step.the_row.coded, row.the_row.coded) };

    ghost view = { λ d. d.lines };
}

impl Derivation {
    /// The derivation without lines.
    pub fn new(alloc: Global) -> Derivation
        ensures { result ≡ [] }
    {
        Derivation {
            lines: Items::new(alloc),
        }
    }

    /// Puts a line behind the others. The one error is `NoMemory`; the derivation is then as it was.
    pub fn push(&mut self, step: Step, row: Row) -> Result<(), NoMemory>
        ensures ok { OnOk result (self.new ≡ self.old ++ (step, row) ∷ []) }
        ensures err { OnErr result (self.new ≡ self.old) }
    {
        self.lines.push((step, row))?;
        Ok(())
    }

    /// The lines in their order.
    pub fn lines(&self) -> &[(Step, Row)]
        ensures { result.now ≡ self.now }
    {
        self.lines.as_slice()
    }

    /// The line with this number, counted from 1; None exactly where there is none.
    pub fn get(&self, i: u32) -> Option<(&Step, &Row)>
        ensures { option_map (λ line. (line.0.now, line.1.now)) result ≡ line_at self.now i }
    {
        match i.checked_sub(1) {
            None => None,
            Some(index) => line(self.lines.as_slice(), index as usize),
        }
    }
}

/// The line that so many others stand before.
fn line(lines: &[(Step, Row)], index: usize) -> Option<(&Step, &Row)>
    ensures { option_map (λ line. (line.0.now, line.1.now)) result ≡ slice_get lines.now index }
{
    match lines.get(index) {
        None => None,
        Some((step, row)) => Some((step, row)),
    }
}

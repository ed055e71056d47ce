// A row's line: its number, its rule, and the row behind a colon.
ghost use Rattle.std.specs.Prelude.{◌≡◌, All, None, Some, IfOk, IfSome, MatchOption};
ghost use Rattle.syn_term.specs.Bank.{Extends};
ghost use Rattle.syn_lex.specs.Lexing.{IsTokenWord};
ghost use Rattle.syn_row.specs.Rows.{bare_row};
ghost use Rattle.syn_start.specs.Rows.{IsRowOf};
ghost use Rattle.syn_deriv.specs.DerivationLines.{WritesLine, WritesRow, bare_line};
ghost use Rattle.syn_deriv.specs.inner.Firsts.{got};
ghost use Rattle.syn_deriv.specs.inner.StepReading as reading;
ghost use Rattle.syn_deriv.specs.inner.Telling.{Tells};

use crate::cursor::{Cursor, is_text};
use crate::row_forms::row_behind;
use std::alloc::Global;
use syn_form::Side;
use syn_lex::Words;
use syn_row::Row;
use syn_start::{Start, Step};
use syn_term::{Bank, NoMemory};

/// The side that the name is.
fn side_of(name: &str) -> Option<Side>
    ensures { result ≡ reading.side_of name.now }
{
    if is_text(name, "goal") {
        Some(Side::Goal)
    } else if is_text(name, "assertion") {
        Some(Side::Assertion)
    } else {
        None
    }
}

impl<'a> Cursor<'a> {
    /// The kind at the front, `goal` or `assertion`.
    fn side(&mut self) -> Option<Side>
        ensures { MatchOption result (reading.side_first self.old.left ≡ None) (λ s. reading.side_first self.old.left ≡ Some (got s self.new.left)) }
    {
        match self.name() {
            None => None,
            Some(name) => side_of(name),
        }
    }

    /// The step, where a colon stands behind it.
    fn with_colon(&mut self, step: Step) -> Option<Step>
        ensures { MatchOption result (reading.with_colon (got step self.old.left) ≡ None) (λ s. reading.with_colon (got step self.old.left) ≡ Some (got s self.new.left)) }
    {
        if self.sign(b":") {
            Some(step)
        } else {
            drop(step);
            None
        }
    }

    /// `RULE:`. The one error of each of these is want of memory.
    fn rule(&mut self, alloc: Global) -> Result<Option<Step>, NoMemory>
        ensures { IfOk result (λ o. MatchOption o (reading.rule_first self.old.left ≡ None) (λ s. reading.rule_first self.old.left ≡ Some (got s self.new.left))) }
    {
        match self.step(alloc)? {
            None => Ok(None),
            Some(step) => Ok(self.with_colon(step)),
        }
    }

    /// `N RULE:`, of the row with this number. Each word is a token of its kind.
    fn front(&mut self, alloc: Global, number: u64) -> Result<Option<Step>, NoMemory>
        ensures read { IfOk result (λ o. MatchOption o (reading.front_first number self.old.left ≡ None) (λ s. reading.front_first number self.old.left ≡ Some (got s self.new.left))) }
        ensures each { All IsTokenWord self.old.left }
    {
        let Some(own) = self.number() else {
            return Ok(None);
        };
        if u64::from(own) == number {
            self.rule(alloc)
        } else {
            Ok(None)
        }
    }
}

/// The row that the words are; None where they are none.
#[tactic(auto, using(syn_expr::proofs::Growth::growth))]
fn row_of_words(
    alloc: Global,
    bank: &mut Bank,
    start: &Start,
    words: &Words,
) -> Result<Option<Row>, NoMemory>
    ensures told { IfOk result (Tells bare_row (λ r. WritesRow start.now r words.now)) }
    ensures row { IfOk result (λ o. IfSome o (IsRowOf start.now bank.new)) }
    ensures extends { Extends bank.old bank.new }
{
    let mut cursor = Cursor {
        left: words.from(0),
    };
    match cursor.side() {
        None => Ok(None),
        Some(side) => row_behind(alloc, bank, start, side, &cursor.left),
    }
}

/// The line of this step, where the words are a row; else None.
#[tactic(auto, using(syn_expr::proofs::Growth::growth))]
fn with_row(
    alloc: Global,
    bank: &mut Bank,
    start: &Start,
    step: Step,
    words: &Words,
) -> Result<Option<(Step, Row)>, NoMemory>
    ensures told { IfOk result (λ o. MatchOption o ((r : _) → WritesRow start.now r words.now → ⊥) (λ line. (line.0 ≡ step) × WritesRow start.now (bare_row line.1) words.now)) }
    ensures row { IfOk result (λ o. IfSome o (λ line. IsRowOf start.now bank.new line.1)) }
    ensures extends { Extends bank.old bank.new }
{
    match row_of_words(alloc, bank, start, words) {
        Ok(Some(row)) => Ok(Some((step, row))),
        Ok(None) => {
            drop(step);
            Ok(None)
        }
        Err(error) => {
            drop(step);
            Err(error)
        }
    }
}

/// The line of the row with this number, counted from 1, that the words are: its step, and the row. None
/// where they are none.
#[tactic(auto, using(syn_expr::proofs::Growth::growth))]
pub(crate) fn line_of_words(
    alloc: Global,
    bank: &mut Bank,
    start: &Start,
    number: u64,
    words: &Words,
) -> Result<Option<(Step, Row)>, NoMemory>
    ensures told { IfOk result (Tells bare_line (λ line. WritesLine start.now number line words.now)) }
    ensures row { IfOk result (λ o. IfSome o (λ line. IsRowOf start.now bank.new line.1)) }
    ensures extends { Extends bank.old bank.new }
{
    let mut cursor = Cursor {
        left: words.from(0),
    };
    match cursor.front(alloc, number)? {
        None => Ok(None),
        Some(step) => with_row(alloc, bank, start, step, &cursor.left),
    }
}

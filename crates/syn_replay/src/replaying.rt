// The replay of a derivation.
ghost use Rattle.std.specs.Prelude.{◌≡◌, [], All, IfErr, IfOk, IfSome, MatchResult, OnOk, Some, length};
ghost use Rattle.std.specs.Option.{option_map};
ghost use Rattle.syn_term.specs.Bank.{Extends};
ghost use Rattle.syn_row.specs.Guards.{RuleBelongs};
ghost use Rattle.syn_model.specs.BareParts.{bare_program_tree};
ghost use Rattle.syn_step.specs.Acceptance.{FirstFollow, IsAccepted, accepted_program, judged};
ghost use Rattle.syn_start.specs.Rows.{IsRowOf};
ghost use Rattle.syn_replay.specs.Refusals.{Refuses};
ghost use Rattle.syn_replay.specs.inner.Ends.{EndsIn, FailsToEnd, FailsToFollow, HasNoProgram, IsProgramOf};

use crate::following::take_line;
use sqlite_items::Items;
use std::alloc::Global;
use std::fmt;
use syn_extract::{is_final, program_of};
use syn_model::Program;
use syn_row::Row;
use syn_start::{Derivation, Start, Step};
use syn_term::{Bank, NoMemory};

/// Why a derivation isn't accepted.
#[derive(Clone, Copy, Debug, PartialEq, Eq)]
pub enum CheckError {
    /// The row with this number, counted from 1, is the first that doesn't follow.
    NotFollows(u64),
    /// All rows follow, and there is no row or the last one isn't final.
    NotFinal,
    /// A request for memory was refused.
    NoMemory,
}

impl fmt::Display for CheckError {
    fn fmt<W: fmt::Write>(&self, f: &mut fmt::Formatter<W>) -> fmt::Result {
        match self {
            CheckError::NotFollows(k) => write!(f, "row {k} does not follow"),
            CheckError::NotFinal => write!(f, "not final"),
            CheckError::NoMemory => write!(f, "no memory"),
        }
    }
}

impl From<NoMemory> for CheckError {
    ghost use Rattle.syn_replay.specs.declared.replaying.CheckError.{CheckError};
    ghost use Rattle.syn_replay.specs.declared.replaying.CheckError.TheVariants as error;

    ghost from_gives = { λ _ e. e ≡ error.NoMemory };

    fn from(_error: NoMemory) -> CheckError {
        CheckError::NoMemory
    }
}

/// Judges the lines one after another, and puts their rows, simplified, into the list, which is empty.
#[tactic(auto, using(crate::proofs::Growth::growth))]
fn replay(
    alloc: Global,
    bank: &mut Bank,
    start: &Start,
    lines: &[(Step, Row)],
    rows: &mut Items<Row>,
) -> Result<(), CheckError>
    requires rule { IfSome (start.now).rule (RuleBelongs bank.old) }
    requires lines { All (λ line. IsRowOf start.now bank.old line.1) lines.now }
    requires none { rows.old ≡ [] }
    ensures follow { MatchResult result (λ _. FirstFollow start.now lines.now (length lines.now)) (FailsToFollow start.now lines.now) }
    ensures rows { OnOk result (rows.new ≡ judged lines.now) }
    ensures extends { Extends bank.old bank.new }
{
    for (i, line) in lines.iter().enumerate() {
        let follows = take_line(alloc, bank, start, &line.0, &line.1, rows)?;
        if !follows {
            return Err(CheckError::NotFollows(i as u64 + 1));
        }
    }
    Ok(())
}

/// The program of a row, where it is final.
#[tactic(auto, using(crate::proofs::Growth::growth))]
fn final_program(
    alloc: Global,
    bank: &mut Bank,
    start: &Start,
    row: &Row,
) -> Result<Program, CheckError>
    requires { IsRowOf start.now bank.old row.now }
    ensures program { MatchResult result (IsProgramOf (start.now).spec row.now) (HasNoProgram (start.now).spec row.now) }
    ensures extends { Extends bank.old bank.new }
{
    if !is_final(start.spec(), row) {
        return Err(CheckError::NotFinal);
    }
    let program = program_of(alloc, bank, start.theory(), start.spec(), row)?;
    Ok(program)
}

/// The program of the last of the rows, where that is final.
#[tactic(auto, using(crate::proofs::Growth::growth))]
fn last_program(
    alloc: Global,
    bank: &mut Bank,
    start: &Start,
    rows: &[Row],
) -> Result<Program, CheckError>
    requires { All (IsRowOf start.now bank.old) rows.now }
    ensures program { MatchResult result (EndsIn (start.now).spec rows.now) (FailsToEnd (start.now).spec rows.now) }
    ensures extends { Extends bank.old bank.new }
{
    match rows.last() {
        None => Err(CheckError::NotFinal),
        Some(row) => final_program(alloc, bank, start, row),
    }
}

/// The program of the derivation, where it is accepted: each row, simplified, is a variant of the row that its step gives over
/// the simplified rows before it, and the last is final. The program is that of the last row, simplified (Manna and Waldinger
/// 1980).
///
/// The terms of the rows and of the guard rule belong to the bank, and each row is plain over the specification's table, with an
/// output of the result's sort. Refused is a derivation with `NotFollows` of the first row that doesn't follow, and with
/// `NotFinal` where all follow and none is there or the last isn't final; the other error is want of memory. The bank makes the
/// rows that the steps give, whatever the answer is.
#[tactic(auto, using(crate::proofs::Growth::growth))]
pub fn check(
    alloc: Global,
    bank: &mut Bank,
    start: &Start,
    d: &Derivation,
) -> Result<Program, CheckError>
    requires rule { IfSome (start.now).rule (RuleBelongs bank.old) }
    requires rows { All (λ line. IsRowOf start.now bank.old line.1) d.now }
    ensures accepted { IfOk result (λ _. IsAccepted start.now d.now) }
    ensures program { IfOk result (λ p. Some (bare_program_tree p) ≡ option_map bare_program_tree (accepted_program start.now d.now)) }
    ensures refused { IfErr result (Refuses start.now d.now) }
    ensures extends { Extends bank.old bank.new }
{
    let mut rows = Items::new(alloc);
    match replay(alloc, bank, start, d.lines(), &mut rows) {
        Ok(()) => {
            let program = last_program(alloc, bank, start, rows.as_slice());
            drop(rows);
            program
        }
        Err(error) => {
            drop(rows);
            Err(error)
        }
    }
}

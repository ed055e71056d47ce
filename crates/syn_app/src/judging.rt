// The work of each command, stage by stage: a file read whole, its text judged, and what follows from
// it. It ends with the text that the command puts, or with a status; the one write is behind it.
ghost use Rattle.std.specs.Prelude.{◌≡◌, ◌≤◌, map, IfOk, IfErr, MatchResult, string_bytes};
ghost use Rattle.syn_app.specs.ProgramText.{printed_program};
ghost use Rattle.syn_app.specs.Trees.{TheoryTree};
ghost use Rattle.syn_app.specs.inner.Checks.{flat_names, flat_spec};
ghost use Rattle.syn_app.specs.Comes.{Stops, TellsPuts, TellsReads};
ghost use Rattle.syn_app.specs.DerivationText.{entry_of};
ghost use Rattle.syn_app.specs.inner.Printing.{nat_program, nat_program_symbols};
ghost use Rattle.syn_app.specs.SpecText.{AreProgramNames, IsCondition};
ghost use Rattle.syn_app.specs.Work.{derivation_work, spec_work, theory_stage, work};
ghost use Rattle.syn_app.specs.inner.Judging.{DerivationFails, EntriesFail, IsTheory, IsLoaded, IsSpecRead, LoadFails, Passed, Prints, PrintsEntries, SpecFails, TheoryFails, WriteEnds};
ghost use Rattle.syn_app.specs.inner.Requests.{command_asked};

use crate::check::{check, symbols_of};
use crate::command::{Command, Names, Request};
use crate::derivation_text::read_derivation;
use crate::evaluating::eval_text;
use crate::flat::FlatRow;
use crate::printing::print_program;
use crate::replay::CheckError;
use crate::spec_text::{FlatSpec, read_spec};
use crate::status::{Status, Which};
use crate::theory_text::read_theory;
use std::alloc::Global;
use syn_lex::FileError;
use syn_outside::{Cabinet, ReadError, Sink, WriteError, put_all, read_all};
use syn_term::{NoMemory, Symbols, Term};

/// The most bytes that a file may have.
const MOST_BYTES: u64 = 4_194_304;

/// The bytes of a file.
pub(crate) fn load<C: Cabinet>(
    alloc: Global,
    cab: &mut C,
    name: &str,
    which: Which,
) -> Result<Vec<u8>, Status>
    ensures bytes { IfOk result (λ v. IsLoaded (C.files cab.old) name.now v.items) }
    ensures status { IfErr result (LoadFails which (C.read_faults cab.old) (C.read_faults cab.new) (C.files cab.old) name.now) }
    ensures files { C.files cab.new ≡ C.files cab.old }
    ensures later { C.read_faults cab.old ≤ C.read_faults cab.new }
    ensures tells { MatchResult result (λ _. C.read_faults cab.new ≡ C.read_faults cab.old) (λ e. TellsReads e (C.read_faults cab.old) (C.read_faults cab.new)) }
{
    match read_all(alloc, cab, name, MOST_BYTES) {
        Ok(bytes) => Ok(bytes),
        Err(ReadError::Fault) => Err(Status::ReadFault(which)),
        Err(ReadError::TooLong) => Err(Status::TooLong(which)),
        Err(ReadError::NoMemory) => Err(Status::NoMemory),
    }
}

/// Whether the bytes are the text of a theory.
fn judge_theory(alloc: Global, bytes: &[u8]) -> Result<(), Status>
    ensures { MatchResult result (λ _. IsTheory bytes.now) (TheoryFails bytes.now) }
{
    match read_theory(alloc, bytes) {
        Ok(_) => Ok(()),
        Err(FileError::Bad(line)) => Err(Status::BadTheory(line)),
        Err(FileError::NoMemory) => Err(Status::NoMemory),
    }
}

/// The specification that the bytes are the text of.
fn judge_spec(alloc: Global, bytes: &[u8]) -> Result<FlatSpec<'_>, Status>
    ensures { MatchResult result (IsSpecRead bytes.now) (SpecFails bytes.now) }
{
    match read_spec(alloc, bytes) {
        Ok(spec) => Ok(spec),
        Err(FileError::Bad(line)) => Err(Status::BadSpec(line)),
        Err(FileError::NoMemory) => Err(Status::NoMemory),
    }
}

/// The text of the program of an accepted derivation.
fn print(
    alloc: Global,
    syms: &Symbols,
    spec: &FlatSpec<'_>,
    body: &Term,
) -> Result<String, NoMemory>
    requires { syms.now ≡ nat_program_symbols spec.now.program.now spec.now.input.now }
    ensures { IfOk result (λ text. (theory : TheoryTree) → string_bytes text ≡ printed_program theory (nat_program spec.now.program.now spec.now.input.now body.now)) }
{
    print_program(alloc, syms, spec.program, spec.input, body)
}

/// The text of the program of the derivation that the rows are, given the specification's symbols.
fn text_of(
    alloc: Global,
    syms: &Symbols,
    spec: &FlatSpec<'_>,
    rows: &[FlatRow],
) -> Result<String, Status>
    requires names { AreProgramNames (flat_names spec.now) }
    requires condition { IsCondition spec.now.term }
    requires symbols { syms.now ≡ nat_program_symbols spec.now.program.now spec.now.input.now }
    ensures { MatchResult result (λ text. PrintsEntries spec.now (map entry_of rows.now) (string_bytes text)) (EntriesFail spec.now (map entry_of rows.now)) }
{
    match check(alloc, syms, spec, rows) {
        Err(CheckError::NotFollows(row)) => Err(Status::NotFollows(row)),
        Err(CheckError::NotFinal) => Err(Status::NotFinal),
        Err(CheckError::NoMemory) => Err(Status::NoMemory),
        Ok(body) => match print(alloc, syms, spec, &body) {
            Ok(text) => Ok(text),
            Err(NoMemory) => Err(Status::NoMemory),
        },
    }
}

/// The text of the program of the derivation that the rows are.
fn judge_rows(alloc: Global, spec: &FlatSpec<'_>, rows: &[FlatRow]) -> Result<String, Status>
    requires names { AreProgramNames (flat_names spec.now) }
    requires condition { IsCondition spec.now.term }
    ensures { MatchResult result (λ text. PrintsEntries spec.now (map entry_of rows.now) (string_bytes text)) (EntriesFail spec.now (map entry_of rows.now)) }
{
    match symbols_of(alloc, spec.program, spec.input) {
        Err(NoMemory) => Err(Status::NoMemory),
        Ok(syms) => text_of(alloc, &syms, spec, rows),
    }
}

/// The text of the program of the derivation that the bytes are the text of.
fn judge_derivation(alloc: Global, spec: &FlatSpec<'_>, bytes: &[u8]) -> Result<String, Status>
    requires names { AreProgramNames (flat_names spec.now) }
    requires condition { IsCondition spec.now.term }
    ensures { MatchResult result (λ text. Prints spec.now bytes.now (string_bytes text)) (DerivationFails spec.now bytes.now) }
{
    match read_derivation(alloc, spec.input, bytes) {
        Err(FileError::Bad(line)) => Err(Status::BadDerivation(line)),
        Err(FileError::NoMemory) => Err(Status::NoMemory),
        Ok(rows) => judge_rows(alloc, spec, rows.as_slice()),
    }
}

/// Reads the theory and judges its text.
fn check_theory<C: Cabinet>(alloc: Global, cab: &mut C, name: &str) -> Result<(), Status>
    ensures status { MatchResult result (λ _. (theory : TheoryTree) × Passed (theory_stage name.now) (C.files cab.old) theory) (Stops (theory_stage name.now) (C.files cab.old) (C.read_faults cab.old) (C.read_faults cab.new)) }
    ensures files { C.files cab.new ≡ C.files cab.old }
    ensures later { C.read_faults cab.old ≤ C.read_faults cab.new }
    ensures tells { MatchResult result (λ _. C.read_faults cab.new ≡ C.read_faults cab.old) (λ e. TellsReads e (C.read_faults cab.old) (C.read_faults cab.new)) }
{
    match load(alloc, cab, name, Which::Theory) {
        Err(status) => Err(status),
        Ok(bytes) => judge_theory(alloc, bytes.as_slice()),
    }
}

/// Reads the derivation, judges its text and its rows, and answers the text of its program.
fn derivation_text<C: Cabinet>(
    alloc: Global,
    cab: &mut C,
    spec: &FlatSpec<'_>,
    name: &str,
) -> Result<String, Status>
    requires names { AreProgramNames (flat_names spec.now) }
    requires condition { IsCondition spec.now.term }
    ensures status { (theory : TheoryTree) → MatchResult result (λ text. Passed (derivation_work theory (flat_spec spec.now) name.now) (C.files cab.old) (string_bytes text)) (Stops (derivation_work theory (flat_spec spec.now) name.now) (C.files cab.old) (C.read_faults cab.old) (C.read_faults cab.new)) }
    ensures files { C.files cab.new ≡ C.files cab.old }
    ensures later { C.read_faults cab.old ≤ C.read_faults cab.new }
    ensures tells { MatchResult result (λ _. C.read_faults cab.new ≡ C.read_faults cab.old) (λ e. TellsReads e (C.read_faults cab.old) (C.read_faults cab.new)) }
{
    match load(alloc, cab, name, Which::Derivation) {
        Err(status) => Err(status),
        Ok(bytes) => judge_derivation(alloc, spec, bytes.as_slice()),
    }
}

/// Reads the specification and judges its text, and then the derivation.
fn spec_text<C: Cabinet>(
    alloc: Global,
    cab: &mut C,
    name: &str,
    deriv: &str,
) -> Result<String, Status>
    ensures status { (theory : TheoryTree) → MatchResult result (λ text. Passed (spec_work theory name.now deriv.now) (C.files cab.old) (string_bytes text)) (Stops (spec_work theory name.now deriv.now) (C.files cab.old) (C.read_faults cab.old) (C.read_faults cab.new)) }
    ensures files { C.files cab.new ≡ C.files cab.old }
    ensures later { C.read_faults cab.old ≤ C.read_faults cab.new }
    ensures tells { MatchResult result (λ _. C.read_faults cab.new ≡ C.read_faults cab.old) (λ e. TellsReads e (C.read_faults cab.old) (C.read_faults cab.new)) }
{
    match load(alloc, cab, name, Which::Spec) {
        Err(status) => Err(status),
        Ok(bytes) => match judge_spec(alloc, bytes.as_slice()) {
            Err(status) => Err(status),
            Ok(spec) => derivation_text(alloc, cab, &spec, deriv),
        },
    }
}

/// The text that a check puts: that of the program of the derivation.
fn check_text<C: Cabinet>(alloc: Global, cab: &mut C, names: Names<'_>) -> Result<String, Status>
    ensures status { MatchResult result (λ text. Passed (work (Command.Check names.entry.theory.now names.entry.spec.now names.entry.deriv.now)) (C.files cab.old) (string_bytes text)) (Stops (work (Command.Check names.entry.theory.now names.entry.spec.now names.entry.deriv.now)) (C.files cab.old) (C.read_faults cab.old) (C.read_faults cab.new)) }
    ensures files { C.files cab.new ≡ C.files cab.old }
    ensures later { C.read_faults cab.old ≤ C.read_faults cab.new }
    ensures tells { MatchResult result (λ _. C.read_faults cab.new ≡ C.read_faults cab.old) (λ e. TellsReads e (C.read_faults cab.old) (C.read_faults cab.new)) }
{
    match check_theory(alloc, cab, names.theory) {
        Err(status) => Err(status),
        Ok(()) => spec_text(alloc, cab, names.spec, names.deriv),
    }
}

/// The text that a command puts into the sink.
pub(crate) fn command_text<C: Cabinet>(
    alloc: Global,
    cab: &mut C,
    request: Request<'_>,
) -> Result<String, Status>
    ensures status { MatchResult result (λ text. Passed (work (command_asked request.entry)) (C.files cab.old) (string_bytes text)) (Stops (work (command_asked request.entry)) (C.files cab.old) (C.read_faults cab.old) (C.read_faults cab.new)) }
    ensures files { C.files cab.new ≡ C.files cab.old }
    ensures later { C.read_faults cab.old ≤ C.read_faults cab.new }
    ensures tells { MatchResult result (λ _. C.read_faults cab.new ≡ C.read_faults cab.old) (λ e. TellsReads e (C.read_faults cab.old) (C.read_faults cab.new)) }
{
    match request {
        Request::Check(names) => check_text(alloc, cab, names),
        Request::Eval(names) => eval_text(alloc, cab, names),
    }
}

/// Puts the text into the sink.
pub(crate) fn write<S: Sink>(out: &mut S, text: &str) -> Status
    ensures ends { WriteEnds (S.text out.old) (S.text out.new) (S.faults out.old) (S.faults out.new) text.now result }
    ensures tells { TellsPuts result (S.faults out.old) (S.faults out.new) }
{
    match put_all(out, text.as_bytes()) {
        Ok(()) => Status::Done,
        Err(WriteError::Fault) => Status::WriteFault,
        Err(WriteError::NoMemory) => Status::NoMemory,
    }
}

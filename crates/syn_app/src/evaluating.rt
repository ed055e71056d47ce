// The work of an evaluation, stage by stage: the theory read, then the program over it, then the values,
// and last the call. It ends with the text that tells the value and the turns, or with a status.
ghost use Rattle.std.specs.Prelude.{◌≡◌, ◌≤◌, ◌+◌, ◌-◌, ◌^◌, ◌⊎◌, [], ℕ, List, Option, length, map, IfOk, MatchResult, string_bytes};
ghost use Rattle.syn_outside.specs.Files.{File};
ghost use Rattle.syn_value.specs.Texts.{IsValueText};
ghost use Rattle.syn_value.specs.declared.tree.ValueTree.{ValueTree};
ghost use Rattle.syn_model.specs.BareParts.{bare_program_tree};
ghost use Rattle.syn_model.specs.BareTrees.{bare_theory_tree};
ghost use Rattle.syn_eval.specs.Ending.{AllFit, IsWithin, counted};
ghost use Rattle.syn_app.specs.Bounds.{most_turns};
ghost use Rattle.syn_app.specs.Comes.{Stops, TellsReads};
ghost use Rattle.syn_app.specs.EvalWork.{program_stage, program_work, printed_result, theory_file_stage, values_work};
ghost use Rattle.syn_app.specs.Work.{work};
ghost use Rattle.syn_app.specs.inner.Evaluating.{CallFails, IsProgramRead, IsTheoryRead, ProgramFails, PutsValues, Tells, TheoryFileFails, ValuesFail, calls_at};
ghost use Rattle.syn_app.specs.inner.Judging.{Passed};

use crate::command::{Command, EvalNames};
use crate::judging::load;
use crate::status::{Status, Which};
use sqlite_items::Items;
use std::alloc::Global;
use syn_eval::EvalError;
use syn_files::{read_program, read_theory};
use syn_lex::FileError;
use syn_machine::run_program;
use syn_model::{Param, Program, Theory};
use syn_outside::Cabinet;
use syn_term::{Bank, NoMemory, Sort, Symbols};
use syn_value::{Value, ValueError, print_value, read_value};

/// The most turns of an evaluation.
const MOST_TURNS: u64 = 10_000_000;

/// The theory that the bytes are the text of.
fn judge_theory(alloc: Global, bank: &mut Bank, bytes: &[u8]) -> Result<Theory, Status>
    ensures { MatchResult result (IsTheoryRead bytes.now) (TheoryFileFails bytes.now) }
{
    match read_theory(alloc, bank, bytes) {
        Ok(theory) => Ok(theory),
        Err(FileError::Bad(line)) => Err(Status::BadTheory(line)),
        Err(FileError::NoMemory) => Err(Status::NoMemory),
    }
}

/// The program over the theory that the bytes are the text of.
fn judge_program(
    alloc: Global,
    bank: &mut Bank,
    theory: &Theory,
    bytes: &[u8],
) -> Result<Program, Status>
    ensures { MatchResult result (IsProgramRead theory.now bytes.now) (ProgramFails theory.now bytes.now) }
{
    match read_program(alloc, bank, theory, bytes) {
        Ok(program) => Ok(program),
        Err(FileError::Bad(line)) => Err(Status::BadProgram(line)),
        Err(FileError::NoMemory) => Err(Status::NoMemory),
    }
}

/// The theory of the file.
fn load_theory<C: Cabinet>(
    alloc: Global,
    bank: &mut Bank,
    cab: &mut C,
    name: &str,
) -> Result<Theory, Status>
    ensures status { MatchResult result (λ t. Passed (theory_file_stage name.now) (C.files cab.old) (bare_theory_tree t)) (Stops (theory_file_stage name.now) (C.files cab.old) (C.read_faults cab.old) (C.read_faults cab.new)) }
    ensures files { C.files cab.new ≡ C.files cab.old }
    ensures later { C.read_faults cab.old ≤ C.read_faults cab.new }
    ensures tells { MatchResult result (λ _. C.read_faults cab.new ≡ C.read_faults cab.old) (λ e. TellsReads e (C.read_faults cab.old) (C.read_faults cab.new)) }
{
    match load(alloc, cab, name, Which::Theory) {
        Err(status) => Err(status),
        Ok(bytes) => judge_theory(alloc, bank, bytes.as_slice()),
    }
}

/// The program of the file, over the theory.
fn load_program<C: Cabinet>(
    alloc: Global,
    bank: &mut Bank,
    cab: &mut C,
    theory: &Theory,
    name: &str,
) -> Result<Program, Status>
    ensures status { MatchResult result (λ p. Passed (program_stage (bare_theory_tree theory.now) name.now) (C.files cab.old) (bare_program_tree p)) (Stops (program_stage (bare_theory_tree theory.now) name.now) (C.files cab.old) (C.read_faults cab.old) (C.read_faults cab.new)) }
    ensures files { C.files cab.new ≡ C.files cab.old }
    ensures later { C.read_faults cab.old ≤ C.read_faults cab.new }
    ensures tells { MatchResult result (λ _. C.read_faults cab.new ≡ C.read_faults cab.old) (λ e. TellsReads e (C.read_faults cab.old) (C.read_faults cab.new)) }
{
    match load(alloc, cab, name, Which::Program) {
        Err(status) => Err(status),
        Ok(bytes) => judge_program(alloc, bank, theory, bytes.as_slice()),
    }
}

/// The value of the sort that the word is, where it stands at this place.
fn read_one(
    alloc: Global,
    syms: &Symbols,
    sort: Sort,
    word: &str,
    place: u64,
) -> Result<Value, Status>
    ensures { MatchResult result (IsValueText syms.now sort word.now) (λ e. (e ≡ Status.NoMemory) ⊎ ((e ≡ Status.BadValue place) × ((v : ValueTree) → IsValueText syms.now sort word.now v → ⊥))) }
{
    match read_value(alloc, syms, sort, word) {
        Ok(value) => Ok(value),
        Err(ValueError::BadValue) => Err(Status::BadValue(place)),
        Err(ValueError::NoMemory) => Err(Status::NoMemory),
    }
}

/// That no word is left, where the first of them would stand at this place.
fn none_left(words: &[String], place: u64) -> Result<(), Status>
    ensures { MatchResult result (λ _. words.now ≡ []) (λ e. (e ≡ Status.BadValue place) × (words.now ≡ [] → ⊥)) }
{
    if words.is_empty() {
        Ok(())
    } else {
        Err(Status::BadValue(place))
    }
}

/// Puts down the values of the words, one for each input, the first of which stands at this place. It goes
/// on by a call of itself, since a program has four inputs at most.
fn read_values(
    alloc: Global,
    syms: &Symbols,
    inputs: &[Param],
    words: &[String],
    place: u64,
    values: &mut Items<Value>,
) -> Result<(), Status>
    requires { place + length inputs.now ≤ 2 ^ 64 - 1 }
    ensures { MatchResult result (λ _. PutsValues syms.now inputs.now (map string_bytes words.now) values.old values.new) (ValuesFail syms.now inputs.now (map string_bytes words.now) place) }
{
    let Some((input, inputs)) = inputs.split_first() else {
        return none_left(words, place);
    };
    let Some((word, words)) = words.split_first() else {
        return Err(Status::BadValue(place));
    };
    let value = read_one(alloc, syms, input.sort, word.as_str(), place)?;
    match values.push(value) {
        Ok(()) => read_values(alloc, syms, inputs, words, place + 1, values),
        Err(_) => Err(Status::NoMemory),
    }
}

/// The call of the program on the values.
fn call(
    alloc: Global,
    theory: &Theory,
    program: &Program,
    args: &[Value],
) -> Result<(Value, u64), Status>
    requires { AllFit most_turns args.now }
    ensures { MatchResult result (λ p. IsWithin (calls_at theory.now program.now args.now) most_turns (counted p)) (CallFails theory.now program.now args.now) }
{
    match run_program(alloc, theory, program, args, MOST_TURNS) {
        Ok(result) => Ok(result),
        Err(EvalError::TurnsSpent) => Err(Status::TurnsSpent),
        Err(EvalError::NoMemory) => Err(Status::NoMemory),
    }
}

/// `value V, turns T` and a line feed.
fn result_text(alloc: Global, value: &Value, turns: u64) -> Result<String, NoMemory>
    ensures { IfOk result (λ text. string_bytes text ≡ printed_result (record { result = value.now; turns = turns })) }
{
    let text = print_value(alloc, value)?;
    let shown = text.as_str();
    Ok(format!(in alloc; "value {shown}, turns {turns}\n")?)
}

/// The text that tells the value of the program's call on the values, and its turns.
fn call_text(
    alloc: Global,
    theory: &Theory,
    program: &Program,
    args: &[Value],
) -> Result<String, Status>
    requires { AllFit most_turns args.now }
    ensures { MatchResult result (λ text. Tells theory.now program.now args.now (string_bytes text)) (CallFails theory.now program.now args.now) }
{
    let (value, turns) = call(alloc, theory, program, args)?;
    match result_text(alloc, &value, turns) {
        Ok(text) => Ok(text),
        Err(NoMemory) => Err(Status::NoMemory),
    }
}

/// The values of the words, one for each input of the program.
fn values_of(alloc: Global, program: &Program, words: &[String]) -> Result<Items<Value>, Status>
    ensures { MatchResult result (PutsValues (program.now).table (program.now).head.inputs (map string_bytes words.now) []) (ValuesFail (program.now).table (program.now).head.inputs (map string_bytes words.now) 1) }
{
    let mut values = Items::new(alloc);
    match read_values(
        alloc,
        program.symbols(),
        program.inputs(),
        words,
        1,
        &mut values,
    ) {
        Ok(()) => Ok(values),
        Err(status) => {
            drop(values);
            Err(status)
        }
    }
}

/// The text that tells the value of the program's call on the values of the words, and its turns.
fn values_text(
    alloc: Global,
    theory: &Theory,
    program: &Program,
    words: &[String],
) -> Result<String, Status>
    ensures { (files : Option (List File)) (now : ℕ) → MatchResult result (λ text. Passed (values_work (bare_theory_tree theory.now) (bare_program_tree program.now) (map string_bytes words.now)) files (string_bytes text)) (Stops (values_work (bare_theory_tree theory.now) (bare_program_tree program.now) (map string_bytes words.now)) files now now) }
{
    match values_of(alloc, program, words) {
        Err(status) => Err(status),
        Ok(values) => call_text(alloc, theory, program, values.as_slice()),
    }
}

/// The text that an evaluation puts, over a theory that was read.
fn program_text<C: Cabinet>(
    alloc: Global,
    bank: &mut Bank,
    cab: &mut C,
    theory: &Theory,
    names: EvalNames<'_>,
) -> Result<String, Status>
    ensures status { MatchResult result (λ text. Passed (program_work (bare_theory_tree theory.now) names.entry.program.now (map string_bytes names.entry.values.now)) (C.files cab.old) (string_bytes text)) (Stops (program_work (bare_theory_tree theory.now) names.entry.program.now (map string_bytes names.entry.values.now)) (C.files cab.old) (C.read_faults cab.old) (C.read_faults cab.new)) }
    ensures files { C.files cab.new ≡ C.files cab.old }
    ensures later { C.read_faults cab.old ≤ C.read_faults cab.new }
    ensures tells { MatchResult result (λ _. C.read_faults cab.new ≡ C.read_faults cab.old) (λ e. TellsReads e (C.read_faults cab.old) (C.read_faults cab.new)) }
{
    match load_program(alloc, bank, cab, theory, names.program) {
        Err(status) => Err(status),
        Ok(program) => values_text(alloc, theory, &program, names.values),
    }
}

/// The text that an evaluation puts: the value of the program's call, and its turns.
pub(crate) fn eval_text<C: Cabinet>(
    alloc: Global,
    cab: &mut C,
    names: EvalNames<'_>,
) -> Result<String, Status>
    ensures status { MatchResult result (λ text. Passed (work (Command.Eval names.entry.theory.now names.entry.program.now (map string_bytes names.entry.values.now))) (C.files cab.old) (string_bytes text)) (Stops (work (Command.Eval names.entry.theory.now names.entry.program.now (map string_bytes names.entry.values.now))) (C.files cab.old) (C.read_faults cab.old) (C.read_faults cab.new)) }
    ensures files { C.files cab.new ≡ C.files cab.old }
    ensures later { C.read_faults cab.old ≤ C.read_faults cab.new }
    ensures tells { MatchResult result (λ _. C.read_faults cab.new ≡ C.read_faults cab.old) (λ e. TellsReads e (C.read_faults cab.old) (C.read_faults cab.new)) }
{
    let mut bank = Bank::new(alloc);
    match load_theory(alloc, &mut bank, cab, names.theory) {
        Err(status) => Err(status),
        Ok(theory) => program_text(alloc, &mut bank, cab, &theory, names),
    }
}

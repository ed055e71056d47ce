// The top call: the words first, then the work of their command, which ends with a text or with a
// status, and then the one write.
ghost use Rattle.std.specs.Prelude.{◌≡◌, ◌↔◌, ◌⊎◌, ℕ, List, [], map, string_bytes};
ghost use Rattle.syn_outside.specs.Faults.{Rose};
ghost use Rattle.syn_outside.specs.Files.{File};
ghost use Rattle.syn_outside.specs.Texts.{Adds, AddsPrefix};
ghost use Rattle.syn_app.specs.Trees.{ProgramTree, SpecTree, TheoryTree};
ghost use Rattle.syn_app.specs.Checks.{IsProven};
ghost use Rattle.syn_app.specs.Comes.{Comes, ComesFor, IsQuiet, IsRefusal, TellsPuts, TellsReads};
ghost use Rattle.syn_app.specs.ProgramTexts.{IsProgramText};
ghost use Rattle.syn_app.specs.Refusals.{FaultOf, HasBadDerivation, HasBadProgram, HasBadSpec, HasBadTheory, HasBadValue, HasFile, OfCommand, OfProgram, OfTexts, RunsLong, Writes};
ghost use Rattle.syn_app.specs.Replay.{IsAccepted, IsFirstToFail, IsUnfinished};
ghost use Rattle.syn_app.specs.SpecText.{IsSpecText};
ghost use Rattle.syn_app.specs.Stages.{IsLong};
ghost use Rattle.syn_app.specs.Words.{Fits, FitsNone};
ghost use Rattle.syn_app.specs.Work.{Asks, IsDerivationFor};
ghost use Rattle.syn_app.specs.inner.Requests.{command_asked};
ghost use Rattle.syn_app.specs.inner.Says.{Says};

use crate::command::{Command, Request, request_of};
use crate::flat::Entry;
use crate::judging::{command_text, write};
use crate::status::{Status, Which};
use std::alloc::Global;
use syn_outside::{Cabinet, Sink};

/// Does what the command asks, and puts its text.
fn answer<C: Cabinet, S: Sink>(
    alloc: Global,
    request: Request<'_>,
    cab: &mut C,
    out: &mut S,
) -> Status
    ensures comes { ComesFor (record { words = []; files = C.files cab.old; reads = C.read_faults cab.old; reads_after = C.read_faults cab.new; text = S.text out.old; text_after = S.text out.new; faults = S.faults out.old; faults_after = S.faults out.new }) (command_asked request.entry) result }
    ensures before { IsRefusal result → S.text out.new ≡ S.text out.old }
    ensures files { C.files cab.new ≡ C.files cab.old }
    ensures tells_reads { TellsReads result (C.read_faults cab.old) (C.read_faults cab.new) }
    ensures tells_puts { TellsPuts result (S.faults out.old) (S.faults out.new) }
{
    match command_text(alloc, cab, request) {
        Err(status) => status,
        Ok(text) => write(out, text.as_str()),
    }
}

/// Does what the words ask, with every clause that the top call has in two relations.
fn run<C: Cabinet, S: Sink>(alloc: Global, words: &[String], cab: &mut C, out: &mut S) -> Status
    ensures comes { Comes (record { words = map string_bytes words.now; files = C.files cab.old; reads = C.read_faults cab.old; reads_after = C.read_faults cab.new; text = S.text out.old; text_after = S.text out.new; faults = S.faults out.old; faults_after = S.faults out.new }) result }
    ensures says { Says (record { words = map string_bytes words.now; files = C.files cab.old; reads = C.read_faults cab.old; reads_after = C.read_faults cab.new; text = S.text out.old; text_after = S.text out.new; faults = S.faults out.old; faults_after = S.faults out.new }) result }
    ensures before { IsRefusal result → S.text out.new ≡ S.text out.old }
    ensures files { C.files cab.new ≡ C.files cab.old }
    ensures tells_reads { TellsReads result (C.read_faults cab.old) (C.read_faults cab.new) }
    ensures tells_puts { TellsPuts result (S.faults out.old) (S.faults out.new) }
{
    match request_of(words) {
        None => Status::Words,
        Some(request) => answer(alloc, request, cab, out),
    }
}

/// Does all that the program does: `words` are the words after the program's name, `cab` holds the
/// files that they name, and `out` takes what is printed. There are two forms of words so far.
/// `check THEORY SPEC DERIV`: the derivation of the third file is checked for the specification of
/// the second over the theory of the first, and the text of its program is put into `out`.
/// `eval THEORY PROGRAM VALUE..`: the program of the second file is called on the values, over the
/// theory of the first, and `value V, turns T` is put into `out`.
///
/// The answer is Done, or the first refusal in this order: the words; the stages of the command's
/// work, which for a check are the theory read, then its text; the specification read, then its
/// text; the derivation read, then its text; the rows of the derivation; and for an evaluation the
/// theory read, then its text; the program read, then its text; the values; the evaluation; and last
/// the write. NoMemory may come at any place.
pub fn synth<C: Cabinet, S: Sink>(
    alloc: Global,
    words: &[String],
    cab: &mut C,
    out: &mut S,
) -> Status
    // When each status comes, by the work of the command that the words are: the clauses below follow
    // from it.
    ensures comes { Comes (record { words = map string_bytes words.now; files = C.files cab.old; reads = C.read_faults cab.old; reads_after = C.read_faults cab.new; text = S.text out.old; text_after = S.text out.new; faults = S.faults out.old; faults_after = S.faults out.new }) result }

    // Done: the derivation is accepted, its program is of primitive symbols alone and correct where
    // the axioms hold, and the sink has gained exactly the printed program, which is a text of it;
    // or the call has this value in so many turns, and the sink has gained exactly what tells both.
    // Bytes are the text of one program at most.
    ensures done { result ≡ Status.Done → OfCommand (map string_bytes words.now) (C.files cab.old) (Writes (Adds (S.text out.old) (S.text out.new))) }
    ensures program_once { (bytes : List ℕ) (p q : ProgramTree) → IsProgramText bytes p → IsProgramText bytes q → p ≡ q }

    // An accepted derivation for a specification of a text is proven, whoever found it accepted.
    ensures sound { (theory : TheoryTree) (spec : SpecTree) (entries : List Entry) (b d : List ℕ) → IsSpecText b spec → IsDerivationFor spec d entries → IsAccepted theory spec entries → (p : ProgramTree) × IsProven theory spec entries p }

    // What each refusal says of the words and the files.
    ensures words { (result ≡ Status.Words) ↔ FitsNone (map string_bytes words.now) }
    ensures read_fault { (w : Which) → result ≡ Status.ReadFault w → FaultOf (map string_bytes words.now) (C.files cab.old) (C.read_faults cab.old) (C.read_faults cab.new) w }
    ensures too_long { (w : Which) → result ≡ Status.TooLong w → OfCommand (map string_bytes words.now) (C.files cab.old) (HasFile w IsLong) }
    ensures bad_theory { (k : ℕ) → result ≡ Status.BadTheory k → OfCommand (map string_bytes words.now) (C.files cab.old) (HasBadTheory k) }
    ensures bad_spec { (k : ℕ) → result ≡ Status.BadSpec k → OfCommand (map string_bytes words.now) (C.files cab.old) (HasBadSpec k) }
    ensures bad_derivation { (k : ℕ) → result ≡ Status.BadDerivation k → OfCommand (map string_bytes words.now) (C.files cab.old) (HasBadDerivation k) }
    ensures not_follows { (k : ℕ) → result ≡ Status.NotFollows k → OfCommand (map string_bytes words.now) (C.files cab.old) (OfTexts (λ theory spec entries. IsFirstToFail spec entries k)) }
    ensures not_final { result ≡ Status.NotFinal → OfCommand (map string_bytes words.now) (C.files cab.old) (OfTexts IsUnfinished) }
    ensures bad_program { (k : ℕ) → result ≡ Status.BadProgram k → OfCommand (map string_bytes words.now) (C.files cab.old) (HasBadProgram k) }
    ensures bad_value { (k : ℕ) → result ≡ Status.BadValue k → OfCommand (map string_bytes words.now) (C.files cab.old) (OfProgram (HasBadValue k)) }
    ensures turns_spent { result ≡ Status.TurnsSpent → OfCommand (map string_bytes words.now) (C.files cab.old) (OfProgram RunsLong) }
    ensures write_fault { result ≡ Status.WriteFault → Rose (S.faults out.old) (S.faults out.new) }

    // Exactly: where files are told, no fault is counted and no counter stands at its last value, the
    // status is one that the command asks for over these files, Done among them, or NoMemory. It asks
    // for one at most.
    ensures exact { (fs : List File) (c : Command) → C.files cab.old ≡ Some fs → IsQuiet (C.read_faults cab.old) (C.read_faults cab.new) → IsQuiet (S.faults out.old) (S.faults out.new) → Fits (map string_bytes words.now) c → Asks c fs result ⊎ (result ≡ Status.NoMemory) }
    ensures one { (c : Command) (fs : List File) (r q : Status) → Asks c fs r → Asks c fs q → r ≡ q }

    // A fault of the outside is told: the one count rises under ReadFault alone, the other under
    // WriteFault alone. So want of memory is never the answer to a fault.
    ensures tells_reads { TellsReads result (C.read_faults cab.old) (C.read_faults cab.new) }
    ensures tells_puts { TellsPuts result (S.faults out.old) (S.faults out.new) }
    ensures memory_quiet { result ≡ Status.NoMemory → (C.read_faults cab.new ≡ C.read_faults cab.old) × (S.faults out.new ≡ S.faults out.old) }

    // What stays: the files always; the sink's text after a refusal before the write. After a fault
    // or want of memory in the write some first bytes of the program's text were put.
    ensures files { C.files cab.new ≡ C.files cab.old }
    ensures before { IsRefusal result → S.text out.new ≡ S.text out.old }
    ensures part { result ≡ Status.WriteFault → OfCommand (map string_bytes words.now) (C.files cab.old) (Writes (AddsPrefix (S.text out.old) (S.text out.new))) }
    ensures memory { result ≡ Status.NoMemory → (S.text out.new ≡ S.text out.old) ⊎ OfCommand (map string_bytes words.now) (C.files cab.old) (Writes (AddsPrefix (S.text out.old) (S.text out.new))) }
{
    run(alloc, words, cab, out)
}

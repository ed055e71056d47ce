// What the process's arguments come to, over any files and any output: so what is promised of told
// files and a told text is promised of the call that `main` makes.
ghost use Rattle.std.specs.Prelude.{◌≡◌, ◌⊎◌, MatchResult};
ghost use Rattle.std.specs.IoError.{error_kind};
ghost use Rattle.std.specs.Process.{exit_status};
ghost use Rattle.syn_app.specs.Status.{status_number};
ghost use Rattle.syn_app.specs.Words.{FitsNone};
ghost use Rattle.syn_app.specs.declared.status.Status.{Status};
ghost use Rattle.syn_main.specs.Ending as ending;
ghost use Rattle.syn_main.specs.Ending.{Reaches, words_of};

use crate::report::report;
use crate::words::{refusal, words_in};
use std::alloc::Global;
use std::env::Args;
use std::io;
use std::process::ExitCode;
use syn_app::{Status, status_code, synth};
use syn_outside::{Cabinet, Sink};

/// Does what the arguments ask, tells the status on standard error, and answers its number.
pub fn run<R: Eprint, C: Cabinet, S: Sink>(
    rt: &R,
    alloc: Global,
    args: io::Result<Args>,
    cab: &mut C,
    out: &mut S,
) -> ExitCode
    ensures { (status : Status) × (exit_status result ≡ status_number status) × MatchResult args (λ a. Reaches (record { words = words_of a.rest.items; files = C.files cab.old; reads = C.read_faults cab.old; reads_after = C.read_faults cab.new; text = S.text out.old; text_after = S.text out.new; faults = S.faults out.old; faults_after = S.faults out.new }) status) (λ error. status ≡ ending.refusal (error_kind error)) }
{
    let status = answer(alloc, args, cab, out);
    report(rt, alloc, &status);
    ExitCode::from(status_code(&status))
}

/// What the top call answers to the words among the arguments, or the status that stands in their
/// place.
fn answer<C: Cabinet, S: Sink>(
    alloc: Global,
    args: io::Result<Args>,
    cab: &mut C,
    out: &mut S,
) -> Status
    ensures reaches { MatchResult args (λ a. Reaches (record { words = words_of a.rest.items; files = C.files cab.old; reads = C.read_faults cab.old; reads_after = C.read_faults cab.new; text = S.text out.old; text_after = S.text out.new; faults = S.faults out.old; faults_after = S.faults out.new }) result) (λ error. result ≡ ending.refusal (error_kind error)) }
    ensures words { result ≡ Status.Words → MatchResult args (λ a. FitsNone (words_of a.rest.items)) (λ error. ending.refusal (error_kind error) ≡ Status.Words) }
    ensures no_words { MatchResult args (λ a. FitsNone (words_of a.rest.items)) (λ error. ending.refusal (error_kind error) ≡ Status.Words) → (result ≡ Status.Words) ⊎ (result ≡ Status.NoMemory) }
{
    match args {
        Err(error) => refusal(error.kind()),
        Ok(args) => match words_in(alloc, args) {
            Err(_) => Status::NoMemory,
            Ok(words) => synth(alloc, words.as_slice(), cab, out),
        },
    }
}

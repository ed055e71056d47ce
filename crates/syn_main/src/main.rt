//! The program `synth`: the words after its name go to the top call with the files of the current
//! folder and standard output, and the answer becomes a line on standard error and the number that
//! the process ends with. Whatever decides an answer is in the top call; here is only what reaches
//! outside.
#![tactic(auto)]

mod answer;
mod report;
mod words;

use answer::run;
use std::env;
use std::process::ExitCode;
use syn_outside::{FolderCabinet, StdSink};

fn main(rt: HostRuntime) -> ExitCode {
    run(
        &rt,
        rt.alloc(),
        env::args(&rt),
        &mut FolderCabinet::new(&rt),
        &mut StdSink::new(&rt),
    )
}

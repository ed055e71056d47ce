// Words as commands, and statuses as numbers and texts.
use crate::bench::owned;
use std::alloc::Global;
use std::process::Abort;
use std::test::Fail;
use syn_app::{Command, Status, Which, command_of, status_code, status_line};

fn assert_status<R: Abort>(
    rt: &R,
    alloc: Global,
    status: Status,
    number: u8,
    want: &str,
) -> Result<(), Fail> {
    let line = status_line(alloc, &status)?;
    assert_eq!(rt; status_code(&status), number, "{want}");
    assert_eq!(rt; line.as_str(), want);
    Ok(())
}

#[test]
fn tells_statuses(rt: HostRuntime) -> Result<(), Fail> {
    let read = Status::ReadFault;
    for (status, number, want) in [
        (Status::Done, 0, "done"),
        (Status::Words, 2, "words: no such form"),
        (read(Which::Theory), 3, "read fault: theory"),
        (read(Which::Spec), 3, "read fault: spec"),
        (read(Which::Derivation), 3, "read fault: derivation"),
        (Status::TooLong(Which::Spec), 4, "too long: spec"),
        (Status::BadTheory(1), 5, "bad theory: line 1"),
        (Status::BadSpec(3), 6, "bad spec: line 3"),
        (Status::BadDerivation(10), 7, "bad derivation: line 10"),
        (Status::NotFollows(5), 8, "row 5 does not follow"),
        (Status::NotFinal, 9, "not final"),
        (Status::BadValue(2), 10, "bad value: 2"),
        (Status::TurnsSpent, 12, "turns spent"),
        (Status::WriteFault, 15, "write fault"),
        (Status::NoMemory, 16, "no memory"),
        (Status::BadProgram(4), 17, "bad program: line 4"),
        (read(Which::Program), 3, "read fault: program"),
    ] {
        assert_status(&rt, rt.alloc(), status, number, want)?;
    }
    Ok(())
}

/// Whether the command is the check of `a`, `check` and `c`.
fn is_check(command: &Command) -> bool {
    match command {
        Command::Check {
            theory,
            spec,
            deriv,
        } => theory.as_str() == "a" && spec.as_str() == "check" && deriv.as_str() == "c",
        Command::Eval { .. } => false,
    }
}

/// Whether the words are that command. None where they are of no form.
fn reads_check(alloc: Global, words: &str) -> Result<Option<bool>, Fail> {
    let words = owned(alloc, words)?;
    match command_of(alloc, words.as_slice())? {
        None => Ok(None),
        Some(command) => Ok(Some(is_check(&command))),
    }
}

#[test]
fn tells_commands(rt: HostRuntime) -> Result<(), Fail> {
    let alloc = rt.alloc();
    assert_eq!(rt; reads_check(alloc, "check a check c")?, Some(true));
    assert_eq!(rt; reads_check(alloc, "check a b")?, None);
    Ok(())
}

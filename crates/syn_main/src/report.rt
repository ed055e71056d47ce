// What the process says on standard error. A print that fails changes nothing: the number that the
// process ends with says the same.
use std::alloc::Global;
use syn_app::{Status, status_line};

/// The forms of words, each with what it does. A command adds a line here.
const FORMS: [(&str, &str); 2] = [
    (
        "check THEORY SPEC DERIV",
        "check the derivation and print its program",
    ),
    (
        "eval THEORY PROGRAM VALUE..",
        "evaluate the program on the values and print the value and the turns",
    ),
];

/// Prints the line of the status, and after it the forms where the words had none. A command that
/// did what it says needs no line.
pub fn report<R: Eprint>(rt: &R, alloc: Global, status: &Status) {
    match status {
        Status::Done => {}
        Status::Words => {
            print_line(rt, alloc, status);
            print_forms(rt);
        }
        _ => print_line(rt, alloc, status),
    }
}

/// Prints the line of the status.
fn print_line<R: Eprint>(rt: &R, alloc: Global, status: &Status) {
    let _ = match status_line(alloc, status) {
        Ok(line) => eprintln!(rt; "{line}"),
        Err(_) => eprintln!(rt; "no memory"),
    };
}

/// Prints what a person may type.
fn print_forms<R: Eprint>(rt: &R) {
    for (words, does) in FORMS {
        let _ = eprintln!(rt; "  synth {words}\n      {does}");
    }
}

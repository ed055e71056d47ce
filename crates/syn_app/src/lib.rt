//! The top call: what the shipped program does, given the words after its name, a cabinet of files
//! and a sink.
#![tactic(auto)]

mod check;
mod command;
mod derivation_text;
mod evaluating;
mod flat;
mod judging;
mod lines;
mod numbers;
mod printing;
mod replay;
mod rows;
mod spec_text;
mod status;
mod terms;
mod theory_text;
mod top;
mod trees;

pub use command::{Command, command_of};
pub use flat::{Base, Entry, FlatForm, FlatRow, FlatTerm, Row, Step};
pub use status::{Status, Which, status_code, status_line};
pub use top::synth;

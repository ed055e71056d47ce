//! Evaluation by a machine: the value of a program's call and the truth value of a closed formula, within
//! a number of turns, as evaluation by recursion gives them. What is still to do is one list of frames, and
//! values stand on a list of their own, so calls may nest as deep as memory allows.
#![tactic(auto)]

mod asking;
mod calling;
mod forms;
mod frames;
mod lists;
mod outputs;
mod returning;
mod running;
mod stack;
mod terms;
mod top;

pub use frames::{Connective, Frame, Scope, Work};
pub use stack::Stack;
pub use top::{run_program, run_test};

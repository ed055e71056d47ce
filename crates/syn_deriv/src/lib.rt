//! Derivation texts: what a text says line by line, and the text that is printed for a derivation. Whether
//! a step gives its row is not asked here. What is printed reads back to an equal derivation.
#![tactic(auto)]

mod cursor;
mod places;
mod positions;
mod print_rows;
mod print_steps;
mod row_forms;
mod row_lines;
mod step_words;
mod text;

pub use print_rows::print_derivation;
pub use text::read_derivation;

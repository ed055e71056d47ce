//! One step of a derivation: the row that it gives over the rows before it; and which derivations are accepted.
#![tactic(auto)]

mod initial_rows;
mod numbered;
mod one_row;
mod results;
mod two_rows;

pub use results::result;

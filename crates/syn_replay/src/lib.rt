//! The replay of a derivation: whether each row follows from those before it, and the program of the last one.
#![tactic(auto)]

mod following;
mod replaying;
mod variants;

pub use replaying::{CheckError, check};
